// Tests of words, of service instance identifiers and of configurations: rows of texts, and what
// each is read as, or why it is refused. They stand above what they try, and are proved once.
#![tactic(auto)]

#[cfg(test)]
mod kind;
#[cfg(test)]
mod rows;
#[cfg(test)]
mod site_text;
#[cfg(test)]
mod tests;
#[cfg(test)]
mod word_text;
