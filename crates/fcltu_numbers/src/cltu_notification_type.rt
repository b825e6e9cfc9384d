// What a forward service tells unasked (CCSDS 912.1-B, annex A, CltuNotification).
use sle_numbers::Numbered;
use std::fmt;

/// What an ASYNC-NOTIFY tells. The number is the context tag of the choice.
#[derive(Clone, Copy, Debug, PartialEq, Eq)]
pub enum CltuNotificationType {
    CltuRadiated = 0,
    /// A CLTU's latest time went by; the queue was cleared.
    SlduExpired = 1,
    ProductionInterrupted = 2,
    ProductionHalted = 3,
    ProductionOperational = 4,
    /// No CLTU waits.
    BufferEmpty = 5,
    /// The actions of an event were done.
    ActionListCompleted = 6,
    /// The actions of an event were begun and not all done.
    ActionListNotCompleted = 7,
    /// An event's condition didn't hold.
    EventConditionEvFalse = 8,
}

impl Numbered for CltuNotificationType {
    ghost use Rattle.fcltu_numbers.specs.CltuNotificationType.{number_of, word_of, all, each};

    ghost number_of = { number_of };

    ghost word_of = { word_of };

    ghost all = { all };

    ghost each = { each };

    fn values() -> &'static [CltuNotificationType] {
        &[
            CltuNotificationType::CltuRadiated,
            CltuNotificationType::SlduExpired,
            CltuNotificationType::ProductionInterrupted,
            CltuNotificationType::ProductionHalted,
            CltuNotificationType::ProductionOperational,
            CltuNotificationType::BufferEmpty,
            CltuNotificationType::ActionListCompleted,
            CltuNotificationType::ActionListNotCompleted,
            CltuNotificationType::EventConditionEvFalse,
        ]
    }

    fn number(self) -> u8 {
        self as u8
    }

    fn word(self) -> &'static str {
        match self {
            CltuNotificationType::CltuRadiated => "cltuRadiated",
            CltuNotificationType::SlduExpired => "slduExpired",
            CltuNotificationType::ProductionInterrupted => "productionInterrupted",
            CltuNotificationType::ProductionHalted => "productionHalted",
            CltuNotificationType::ProductionOperational => "productionOperational",
            CltuNotificationType::BufferEmpty => "bufferEmpty",
            CltuNotificationType::ActionListCompleted => "actionListCompleted",
            CltuNotificationType::ActionListNotCompleted => "actionListNotCompleted",
            CltuNotificationType::EventConditionEvFalse => "eventConditionEvFalse",
        }
    }
}

impl fmt::Display for CltuNotificationType {
    fn fmt<W: fmt::Write>(&self, f: &mut fmt::Formatter<W>) -> fmt::Result {
        f.write_str(self.word())
    }
}
