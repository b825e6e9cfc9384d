// Errors of accepting a connection that pass.

use crate::Uptime;
use std::io;
use std::io::ErrorKind;
use std::time::Duration;

// How many seconds are between two reports of an error that passes.
const REPORT_SECONDS: u64 = 60;

/// For how many milliseconds a caller waits before it tries again.
pub const RETRY_MILLIS: u64 = 100;

// By Linux's numbers: ENOMEM, ENFILE, EMFILE, EPROTO, ENETDOWN, ECONNABORTED, ENOBUFS. The address
// of accept(2) names them as errors of one connection, or of what the system has too little of now.
const PASSING: [i32; 7] = [12, 23, 24, 71, 100, 103, 105];

/// True if an error of accepting a connection says that none has come yet.
pub fn is_early(error: &io::Error) -> bool {
    matches!(error.kind(), ErrorKind::WouldBlock | ErrorKind::Interrupted)
}

/// True if it passes: the next try may succeed.
pub fn is_passing(error: &io::Error) -> bool {
    if error.kind() == ErrorKind::OutOfMemory {
        return true;
    }
    match error.raw_os_error() {
        Some(code) => PASSING.contains(&code),
        None => false,
    }
}

/// Says when an error that passes is reported: once a minute.
#[derive(Drop)]
pub struct Passing {
    reported: Option<Duration>,
}

impl Passing {
    /// Nothing was reported yet.
    pub fn new() -> Passing {
        Passing { reported: None }
    }

    /// True if it is to be reported now.
    pub fn is_due(&mut self, time: Uptime) -> bool {
        let minute = Duration::from_secs(REPORT_SECONDS);
        if let Some(then) = self.reported
            && !time.has_passed(minute, then)
        {
            return false;
        }
        self.reported = Some(time.now());
        true
    }
}
