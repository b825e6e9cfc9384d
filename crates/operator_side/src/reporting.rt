// Lines of a report.

use std::alloc::AllocError;
use std::io::Write;

/// Writes a line in one call, so that none of another thread's comes between its words. A line for
/// which there was no memory, or that can't be written, is left out.
pub fn report<W: Write>(reports: &mut W, line: Result<String, AllocError>) {
    if let Ok(line) = line {
        let _ = reports.write_all(line.as_bytes());
    }
}
