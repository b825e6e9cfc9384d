// Octets from and to the outside: sources, sinks, and the vector in which octets are kept.
//
// A `Source` gives octets and a `Sink` takes them. Each may fail, and each has a count of its
// faults that never falls: a call answers `Failed` only where that count rose, and leaves it where
// it is Ok. `MemorySource` and `MemorySink` tell contracts what they hold and fail at the calls of
// a list, for tests. `ReaderSource` and `WriterSink` are adapters over std's readers and writers,
// and tell what their reader or writer tells. `Faults` is the count of faults that each of them
// keeps, `FailingCalls` the list of failing calls of one in memory, and `Octets` the vector of
// octets that the crates above keep and hand on without a copy.
//
// What a call costs grows with the octets that it moves, and with nothing else.
#![tactic(auto)]

mod failed;
mod failing_calls;
mod faults;
pub mod laws;
mod memory;
mod memory_sink;
mod memory_source;
mod octets;
mod offer;
mod reader_source;
mod sink;
mod source;
mod writer_sink;

pub use failed::Failed;
pub use failing_calls::FailingCalls;
pub use faults::Faults;
pub use memory::Memory;
pub use memory_sink::MemorySink;
pub use memory_source::MemorySource;
pub use octets::Octets;
pub use offer::Offer;
pub use reader_source::ReaderSource;
pub use sink::Sink;
pub use source::Source;
pub use writer_sink::WriterSink;
