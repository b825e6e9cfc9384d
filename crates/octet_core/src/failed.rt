// What a call of the outside answers when it failed.

use std::error::Error;
use std::fmt;

/// A call of the outside failed, and the count of its faults rose.
#[derive(Clone, Copy, Debug, PartialEq, Eq)]
pub struct Failed;

impl fmt::Display for Failed {
    fn fmt<W: fmt::Write>(&self, f: &mut fmt::Formatter<W>) -> fmt::Result {
        f.write_str("a call of the outside failed")
    }
}

impl Error for Failed {}
