// A station's calls of its book, each in a turn of its own.
//
// `publish`, `take`, `done`, `interrupted`, `quit` and `gone` enter a turn of the station's lock,
// make the call of that name, and commit the turn with the call's event. `Makes` in
// `specs/Turned.antt` says what such a turn is: it comes behind the events of some list that begins
// with all that the pass had seen, the call gets what one thread gets behind these, and its event
// is the last of the pass's own. Only `publish` may want memory, and then leaves its turn.
//
// A worker makes such turns one after the other. `Gains` in `specs/Gained.antt` says what a pass
// has gained over all of them, and the module `laws` how that goes on from turn to turn. `read`
// takes a worker's reading of its clock, and `pause` is for one that found nothing to do.
#![tactic(auto)]

pub mod laws;
mod pausing;
mod publishing;
mod radiating;
mod reading;
mod workers;

pub use pausing::pause;
pub use publishing::publish;
pub use radiating::{Taking, done, interrupted, take};
pub use reading::read;
pub use workers::{gone, quit};
