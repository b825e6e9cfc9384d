// The names by which GET-PARAMETER asks for parameters (this product's own).

/// How many items a transfer buffer holds at most.
pub const BUFFER_SIZE: u16 = 4;

/// The delivery mode.
pub const DELIVERY_MODE: u16 = 6;

/// How long an item waits at most.
pub const LATENCY_LIMIT: u16 = 15;

/// The time from status report to status report.
pub const REPORTING_CYCLE: u16 = 26;

/// The quality that the last START asked for; of RAF alone.
pub const REQUESTED_QUALITY: u16 = 27;

/// The channel that the last START asked for; of RCF alone.
pub const REQUESTED_CHANNEL: u16 = 28;

/// How long a return may take.
pub const RETURN_TIMEOUT: u16 = 29;
