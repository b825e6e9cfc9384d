// What holds of every connection. A law's function does nothing: its contract is the law.
ghost use Rattle.station_links.specs.Run.{RunsAreSessions};

/// Over any pieces, closes, breaks, stalls, books and readings, what a connection says and asks is
/// *Session* of the polls and offers that the steering fixes.
pub fn runs_are_sessions()
    ensures { RunsAreSessions }
{}
