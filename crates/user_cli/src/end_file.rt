// A file that asks a user to end.

use std::fs;
use user_talk::EndRequest;

/// Asks a user to end once a file is there. It tells none of its answers.
#[derive(Drop)]
pub struct EndFile<'a> {
    files: &'a HostRuntime,
    path: Option<String>,
}

impl<'a> EndFile<'a> {
    /// A file at this path; without one nothing asks.
    pub fn new(files: &'a HostRuntime, path: Option<String>) -> EndFile<'a> {
        EndFile { files, path }
    }
}

impl EndRequest for EndFile<'_> {
    ghost use Rattle.std.specs.Prelude.{None};

    ghost answers = { λ file. None };

    /// A file that can't be looked for isn't there.
    fn is_asked(&mut self) -> bool {
        match &self.path {
            Some(path) => fs::exists(self.files, path.as_str()).unwrap_or(false),
            None => false,
        }
    }
}
