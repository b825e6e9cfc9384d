// The world behind a script: what each line of it does, and what is promised of all of them.
//
// A world is a record of lists and moments (`specs/State.antt`), and a line is a step: a function
// of the world and the line that gives what the line says and the next world (`specs/Lines.antt`).
// Its text, and what each START handed over, are functions of what was said. From the facts of each
// line (`specs/Sound.antt`) where its text stands follows once, for any lines (`specs/Once.antt`).
// The headline is that of every list of events of a station's world, which `laws` hands on.
//
// In code a world is a `Recorder` of `script_store`, which stores, and `Doors`, a book with the
// connections over it. Which world of the definitions it stands for is a relation
// (`specs/Standing.antt`).
//
// An entry's line costs one batch of the archive, a START's a look at the published entries for
// each of its buffers, and a connection's its rounds. An entry is shared by the archive, the
// published ones and the book, and its octets aren't copied for that.
#![tactic(auto)]

mod desk;
mod doors;
pub mod laws;
mod moment;
mod said;
mod world;

pub use world::World;
