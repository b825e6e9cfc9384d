// The provider's commands, by the words of the command line, over any input, output and disk, and
// over any doors, clocks, source of entries and antenna.
//
// `provide` runs the command that the words are on an `Equipment`, and `provide_on` does so on the
// disk that was found for the command. `specs/Provided.antt` says what they promise of each command,
// and `specs/Running.antt` what of a station's run.
#![tactic(auto)]

mod equipment;
mod providing;

pub use equipment::Equipment;
pub use providing::{provide, provide_on};
