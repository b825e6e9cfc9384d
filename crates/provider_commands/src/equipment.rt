// What the program runs on.

use station_book::Event;
use turn_lock::Pass;

/// What the program runs on. A command that runs no station looks at the first three fields alone.
#[derive(Drop)]
pub struct Equipment<I, O, D, G, C, F, A> {
    /// Where a script or a station's configuration comes from.
    pub input: I,
    /// Where every line goes to.
    pub output: O,
    /// What the archive's file lies on, for a command that has one.
    pub disk: Option<D>,
    /// The doors of a station, 1 to 16 for `run`.
    pub doors: Vec<G>,
    /// The clock of the door at each place.
    pub clocks: Vec<C>,
    /// Where a station's frames and other entries come from.
    pub frames: F,
    /// What sends a station's CLTUs.
    pub antenna: A,
    /// The clock of the antenna's worker.
    pub antenna_clock: C,
    /// Where the random numbers of sessions begin.
    pub draw: u32,
    /// Behind a run whose workers were started, its closed pass, with the events of all of them.
    pub passes: Option<Pass<Event>>,
}
