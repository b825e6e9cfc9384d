// Tests of the words of a user's command line: rows of words, and what they ask for. They stand
// above `user_words`, and are proved once.
#![tactic(auto)]

#[cfg(test)]
mod rows;
#[cfg(test)]
mod tests;
