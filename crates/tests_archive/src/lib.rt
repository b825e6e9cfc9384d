// Tests of an archive over a disk in memory: scripts of its calls, and what each answers.
#![tactic(auto)]

#[cfg(test)]
mod changed;
#[cfg(test)]
mod opening;
#[cfg(test)]
mod script;
#[cfg(test)]
mod tests;
