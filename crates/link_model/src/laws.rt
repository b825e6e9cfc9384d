// Laws of what links tell, and of the link in memory.
//
// Each is the contract of a function with no body: a crate above uses a law by calling it.
ghost use Rattle.std.specs.Prelude.{◌≡◌, ◌++◌, List, Option};
ghost use Rattle.link_model.specs.declared.call.Call.{Call};
ghost use Rattle.link_model.specs.Calls.{Tells, polls_in, octets_heard, blocks_in, octets_handed};
ghost use Rattle.link_model.specs.Steering.{Steering};
ghost use Rattle.link_model.specs.Run.{Step, after_run, come_in_run, heard_in_run, octets_left};

/// The calls of one run and those of the next are the calls of both, in that order.
pub fn calls_of_two_runs_join()
    ensures { (before mid after : Option (List Call)) (first second : List Call)
        → Tells before mid first → Tells mid after second
        → Tells before after (first ++ second) }
{}

/// What was heard and what was handed over in two runs is what it was in each, in their order.
pub fn parts_of_two_runs_join()
    ensures polls { (a b : List Call) → polls_in (a ++ b) ≡ polls_in a ++ polls_in b }
    ensures heard { (a b : List Call)
        → octets_heard (a ++ b) ≡ octets_heard a ++ octets_heard b }
    ensures blocks { (a b : List Call) → blocks_in (a ++ b) ≡ blocks_in a ++ blocks_in b }
    ensures handed { (a b : List Call)
        → octets_handed (a ++ b) ≡ octets_handed a ++ octets_handed b }
{}

/// The link in memory loses no octet, gives none twice and keeps their order: over any run, what
/// its polls heard, followed by what is left, is what was left before, followed by what came.
pub fn what_came_is_heard_once_and_in_order()
    ensures { (steering : Steering) (steps : List Step)
        → heard_in_run steering steps ++ octets_left (after_run steering steps)
        ≡ octets_left steering ++ come_in_run steering steps }
{}
