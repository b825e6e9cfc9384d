// What a command line may ask for.

use octet_core::Octets;
use run_plan::RunPlan;

/// What the words of the command line ask for.
#[derive(Debug, Drop)]
pub enum Plan {
    /// `drill`: run the script on the input.
    Drill,
    /// `init PATH`: make a new archive file.
    Init {
        /// The file's path, the octets of a text.
        path: Octets,
    },
    /// `list PATH`: write the entries of an archive file.
    List {
        /// The file's path, the octets of a text.
        path: Octets,
    },
    /// `rehearse N`: write what a pass of frames comes to.
    Rehearse {
        /// How many frames, 1 to 20,000.
        n: u32,
    },
    /// `run TURNS LINKS PATH FEED ANTENNA PORT..`: run a station, with what these words ask for.
    Run(RunPlan),
}
