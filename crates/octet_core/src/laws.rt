// Laws of counts of faults, of what is told and of what was written: what the definitions mean over
// several calls.
//
// Each is the contract of a function with no body: a crate above uses a law by calling it.
ghost use Rattle.std.specs.Prelude.{◌≤◌, ◌++◌, ℕ, List, Option};
ghost use Rattle.octet_core.specs.Fault.{Rose};
ghost use Rattle.octet_core.specs.Told.{Tells};
ghost use Rattle.octet_core.specs.Written.{Gains, GainsFront, Continues};

/// A count that rose stays risen over further calls, and it rose since each earlier moment too.
pub fn a_count_that_rose_stays_risen()
    ensures later { (before now later : ℕ) → Rose before now → now ≤ later → Rose before later }
    ensures earlier { (earlier before now : ℕ) → earlier ≤ before → Rose before now
        → Rose earlier now }
{}

/// What is told of one run and of the next is told of both, in that order.
pub fn tellings_of_two_runs_join<A>()
    ensures { (before mid after : Option (List A)) (first second : List A)
        → Tells before mid first → Tells mid after second
        → Tells before after (first ++ second) }
{}

/// What was written before begins what is written later, whether the calls between succeed or fail.
pub fn what_was_written_stays()
    ensures all { (before after : Option (List ℕ)) (octets : List ℕ) → Gains before after octets
        → Continues before after }
    ensures front { (before after : Option (List ℕ)) (octets : List ℕ)
        → GainsFront before after octets → Continues before after }
    ensures over_calls { (before mid after : Option (List ℕ)) → Continues before mid
        → Continues mid after → Continues before after }
{}
