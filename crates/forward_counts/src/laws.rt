// What holds of any history of a book, as the contract of a function that does nothing: a caller
// has the law by the call.
ghost use Rattle.forward_counts.specs.Counts.{ForwardIsCounted};

/// The numbers of a status report of the forward service are those of its run's events.
pub fn reports_are_counted()
    ensures { ForwardIsCounted }
{}
