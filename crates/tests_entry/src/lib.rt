// Tests of entries: rows of their octets, and what each is read as, or why it is refused; rows of
// selections and frames, and whether a START asks for each. They stand above what they try, and are
// proved once.
#![tactic(auto)]

#[cfg(test)]
mod entry_text;
#[cfg(test)]
mod kind;
#[cfg(test)]
mod rows;
#[cfg(test)]
mod selection_text;
#[cfg(test)]
mod tests;
