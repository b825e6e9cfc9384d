// The row of a line.
ghost use Rattle.std.specs.Prelude.{◌≡◌, IfOk};

use line_table::{Ran, Row};
use std::alloc::{AllocError, Global};

// A row of the table, by its parts.
pub(crate) fn row_of(
    alloc: Global,
    number: u32,
    line: &[u8],
    said: &[u8],
    words: &[u8],
    ran: Ran,
) -> Result<Row, AllocError>
    ensures { IfOk result (λ row. row.line.items ≡ line.now) }
{
    let line = Vec::from_slice(alloc, line)?;
    let said = Vec::from_slice(alloc, said)?;
    let words = Vec::from_slice(alloc, words)?;
    Ok(Row {
        number,
        line,
        said,
        words,
        ran,
    })
}
