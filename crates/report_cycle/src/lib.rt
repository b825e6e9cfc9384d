// When the status reports of a service are given (CCSDS 911.1-B, RAF-SCHEDULE-STATUS-REPORT): at
// once, in a cycle, or no more.
//
// `Schedule` takes what a user asks for, with the reason of each refusal, and says in which round a
// report is due. The return services and the forward service have it alike. No call takes memory,
// and each costs the same whatever its values.
#![tactic(auto)]

mod schedule;

pub use schedule::{LONGEST_CYCLE, PICOS_A_SECOND, SHORTEST_CYCLE, Schedule};
