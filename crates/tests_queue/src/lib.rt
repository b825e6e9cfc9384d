// Tests of the queue of CLTUs: scripts of its calls with their answers. They stand above
// `cltu_queue`, and are proved once.
#![tactic(auto)]

#[cfg(test)]
mod rows;
#[cfg(test)]
mod script;
