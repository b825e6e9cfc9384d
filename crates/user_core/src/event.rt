// What is heard, as far as it moves a task on.
ghost use Rattle.std.specs.Prelude.{◌≡◌};
ghost use Rattle.user_core.specs.Event.{plain_of, noticed};

use fcltu_numbers::CltuNotificationType;
use user_lines::{Tag, Told};

/// What a message is to a task.
#[derive(Clone, Copy, Debug)]
pub enum Event {
    /// Nothing that a task waits for.
    Nothing,
    /// The return of an invocation.
    Returned {
        tag: Tag,
        invoke: Option<u16>,
        refused: bool,
    },
    /// The CLTUs that wait won't be radiated.
    Halted,
    /// No CLTU waits; the last one that was radiated has this identification.
    Emptied {
        last_ok: Option<u32>,
    },
    /// The end of the data that START asked for.
    EndOfData,
    /// A PEER-ABORT.
    Aborted,
}

impl Event {
    // What is told, but for the items of a transfer buffer.
    pub(crate) fn plain(told: &Told<'_>) -> Event
        ensures { result ≡ plain_of told.now }
    {
        match told {
            Told::Returned {
                tag,
                invoke,
                refusal,
            } => Event::Returned {
                tag: *tag,
                invoke: *invoke,
                refused: refusal.is_some(),
            },
            Told::Transferred {
                invoke,
                refusal,
                ..
            } => Event::Returned {
                tag: Tag::TransferReturn,
                invoke: Some(*invoke),
                refused: refusal.is_some(),
            },
            Told::Notice { kind, last_ok } => Event::noticed(*kind, *last_ok),
            Told::Aborted(_) => Event::Aborted,
            _ => Event::Nothing,
        }
    }

    fn noticed(kind: CltuNotificationType, last_ok: Option<u32>) -> Event
        ensures { result ≡ noticed kind last_ok }
    {
        match kind {
            CltuNotificationType::SlduExpired
            | CltuNotificationType::ProductionInterrupted
            | CltuNotificationType::ProductionHalted => Event::Halted,
            CltuNotificationType::BufferEmpty => Event::Emptied { last_ok },
            _ => Event::Nothing,
        }
    }
}
