// Tests of the link and the door in memory: what their calls answer and tell. They stand above
// `link_model` and `door_model`, and are proved once.
#![tactic(auto)]

#[cfg(test)]
mod memory_door;
#[cfg(test)]
mod memory_link;
