// How a user program ends by its talk.
ghost use Rattle.std.specs.Prelude.{◌≡◌};
ghost use Rattle.user_show.specs.Ending.{EndsWith};
ghost use Rattle.user_talk.specs.Closing.{ending_by, ending_of, line_of};

use crate::end::End;
use octet_core::Sink;
use user_core::Status;
use user_show::{Ending, end_with};

impl End {
    // The last line behind those of the messages, where there is one.
    fn line<'a>(self) -> &'a [u8]
        ensures { result.now ≡ line_of self }
    {
        match self {
            End::Over {
                status: Status::PeerEnded,
                closed: true,
            } => b"closed\n",
            End::Spent => b"turns spent\n",
            End::LinkFault => b"link fault\n",
            _ => b"",
        }
    }

    // How the program ends.
    fn ending(self) -> Ending
        ensures { result ≡ ending_of self }
    {
        match self {
            End::Over { status, .. } => ending_by(status),
            End::Spent => Ending::TurnsSpent,
            End::LinkFault => Ending::LinkFault,
            End::WriteFault => Ending::WriteFault,
            End::Memory => Ending::Memory,
        }
    }

    // Writes the last line.
    pub(crate) fn close<O: Sink>(self, output: &mut O) -> Ending
        ensures { EndsWith (O.written output.old) (O.written output.new)
            (O.faults output.old) (O.faults output.new) (line_of self) (ending_of self) result }
    {
        end_with(self.line(), self.ending(), output)
    }
}

fn ending_by(status: Status) -> Ending
    ensures { result ≡ ending_by status }
{
    match status {
        Status::Done => Ending::Done,
        Status::Refused => Ending::Refused,
        Status::BadMessage => Ending::BadMessage,
        Status::PeerEnded => Ending::PeerEnded,
        Status::OutOfMemory => Ending::Memory,
    }
}
