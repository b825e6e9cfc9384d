// The table of a script's lines on a page, each beside what it led to.
//
// `put_table` writes a row for each line, in order: its number, the line, the lines of the transcript
// that it led to, and words of any kind. Its contract is `table_text` (`specs/Table.antt`), so that
// nothing of a script and of its transcript is missing there, and nothing stands there twice.
// `end_with_table` makes it the end of a page.
#![tactic(auto)]

mod row;
mod table;

pub use row::{Ran, Row};
pub use table::{end_with_table, put_table};
