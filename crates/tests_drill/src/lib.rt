// Tests of the lines of scripts and of transcripts: rows of lines, and what they say. They stand
// above `drill_text`, and are proved once.
#![tactic(auto)]

#[cfg(test)]
mod scripts;
#[cfg(test)]
mod transcripts;
