// Tests of associations: rows of what happens to one, message by message, and what becomes of each;
// rows of BINDs, of outer tags, and of credentials. They stand above what they try, and are proved
// once.
#![tactic(auto)]

#[cfg(test)]
mod bind_text;
#[cfg(test)]
mod course;
#[cfg(test)]
mod credentials;
#[cfg(test)]
mod kind;
#[cfg(test)]
mod rows;
#[cfg(test)]
mod secret_text;
#[cfg(test)]
mod stations;
#[cfg(test)]
mod tests;
