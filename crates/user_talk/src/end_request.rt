// Who may ask a user to end.
ghost use Rattle.std.specs.Prelude.{Bool, List, Option};
ghost use Rattle.cds_time.specs.Readings.{TellsNext};

/// Where a talk learns that its user is to end in good order.
///
/// A user takes the first true for good.
pub trait EndRequest: Drop {
    /// The answers so far, the oldest first, or none where they aren't observable.
    ghost answers: { Self → Option (List Bool) };

    /// True once the user is asked to end.
    fn is_asked(&mut self) -> bool
        ensures { TellsNext (answers self.old) (answers self.new) result };
}
