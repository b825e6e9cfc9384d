// Laws of deliveries over rounds, each the contract of a function that does nothing: a caller has
// the law by the call.
ghost use Rattle.std.specs.Prelude.{◌≡◌, ℕ, ◌^◌, ◌<◌, ◌≤◌, true, false, IsTrue, IsFalse, List, []};
ghost use Rattle.std.specs.Prelude.{◌∷◌, ◌++◌, ◌&&◌, length, take, Bool, Option, None};
ghost use Rattle.std.specs.List.{list_any};
ghost use Rattle.archive_terms.specs.Archive.{Entry, IsArchive};
ghost use Rattle.archive_terms.specs.Selection.{picked, is_stop_closed};
ghost use Rattle.archive_terms.specs.Delivery.{is_timely, Terms, entries_of, is_end_of_data};
ghost use Rattle.archive_terms.specs.Delivery.{archived_items, end_of_data, started};
ghost use Rattle.archive_terms.specs.Rounds.{Answer, free, Round, nothing, outcomes, handed_items};
ghost use Rattle.archive_terms.specs.Rounds.{settled_items, without_backlog, last_front};
ghost use Rattle.archive_terms.specs.Rounds.{to_hand_over, TimelyShape};
ghost use Rattle.archive_terms.specs.Glimpse.{Want, Glimpse, glimpse};
ghost use Rattle.frame_select.specs.Glimpse.{as_said};
ghost use Rattle.return_core.specs.Item.{are_of_archive};
ghost use Rattle.return_core.specs.Course.{Course, is_offering, want_of_course, with_step};
ghost use Rattle.return_core.specs.Standing.{goes_on, all_go_on, waiting_round, blocked_round};
ghost use Rattle.return_core.specs.Standing.{answered_round, StandsFor, Steps};
ghost use Rattle.return_core.specs.Visits.{Visit, stepped, rounds_of, IsLook, AreLooks};
ghost use Rattle.return_core.specs.Visits.{VisitsStand};
ghost use Rattle.return_core.specs.Coming.{AreTaken, moments_of, all_find, HandsStill, HandsReady};
ghost use Rattle.return_core.specs.Coming.{AreTakenOrKept, flagged};
ghost use Rattle.archive_terms.specs.Progress.{taken_rounds, all_keep, is_to_tell, are_enough_at};
ghost use Rattle.archive_terms.specs.Rounds.{after_rounds};

use archive_terms::laws::{
    all_is_handed_over, complete_delivery, places_are_counts, ready_buffers_come, still_rounds,
    timely_delivery,
};

/// A round in which a block of an earlier round waits leaves a delivery as it is, and one whose
/// buffer isn't due stands whatever its link would have answered; nothing is done in a round in
/// which a block waits.
pub fn rounds_without_an_offer()
    ensures blocked { (c : Course) (t : Terms) (entries : List Entry) (rounds : List Round)
        (front now : ℕ)
        → StandsFor c t entries rounds → last_front t.selection.first rounds ≤ front
        → StandsFor c t entries (rounds ++ blocked_round front now ∷ []) }
    ensures not_due { (c : Course) (t : Terms) (entries : List Entry) (rounds : List Round)
        (front now : ℕ) (answer : Answer)
        → StandsFor c t entries (rounds ++ waiting_round front now ∷ []) → IsFalse (is_offering c)
        → IsTrue (goes_on (free answer))
        → StandsFor c t entries (rounds ++ answered_round front now answer ∷ []) }
    ensures nothing_done { (t : Terms) (entries : List Entry) (rounds : List Round) (front now : ℕ)
        → IsTrue (all_go_on rounds)
        → (outcomes t entries (rounds ++ blocked_round front now ∷ []) started
        ≡ outcomes t entries rounds started ++ nothing ∷ [])
        × (outcomes t entries (rounds ++ waiting_round front now ∷ []) started
        ≡ outcomes t entries rounds started ++ nothing ∷ []) }
{}

/// The rounds of a session are rounds of a delivery: where it stood for rounds, and each visit of
/// its session was a step on the look that it wanted, with the link's answer where an offer was
/// made, it stands for these rounds and those of the visits; and what the visits did, handed over
/// and told of discards is what the delivery by counts does in their rounds.
pub fn each_visit_stands()
    ensures { (c : Course) (t : Terms) (entries : List Entry) (rounds : List Round)
        (visits : List Visit)
        → StandsFor c t entries rounds
        → AreLooks entries (last_front t.selection.first rounds) c visits
        → IsTrue (all_go_on (rounds_of visits)) → VisitsStand c t entries rounds visits }
{
    places_are_counts();
}

/// After a step on the look that it wanted, a delivery offers a buffer exactly where its START is due
/// one in that round, and it is the same.
pub fn a_step_offers_what_is_due()
    ensures { (c : Course) (t : Terms) (entries : List Entry) (rounds : List Round) (g : Glimpse)
        (now : ℕ)
        → StandsFor c t entries rounds → last_front t.selection.first rounds ≤ g.front
        → IsLook entries c (stepped g now None)
        → Steps (with_step c g now) t entries rounds g.front now }
{
    places_are_counts();
}

/// A delivery that stands for rounds over an archive does so over each longer one, and the looks of
/// its visits are looks at that one.
pub fn a_delivery_stands_as_the_archive_grows()
    ensures stands { (c : Course) (t : Terms) (entries later : List Entry) (rounds : List Round)
        → StandsFor c t entries rounds → last_front t.selection.first rounds ≤ length entries
        → IsArchive (entries ++ later) → StandsFor c t (entries ++ later) rounds }
    ensures looks { (c : Course) (entries later : List Entry) (from : ℕ) (visits : List Visit)
        → AreLooks entries from c visits → last_front from (rounds_of visits) ≤ length entries
        → AreLooks (entries ++ later) from c visits }
{}

/// A look at an archive that a delivery wanted is one at the front of each longer archive, which is
/// its length.
pub fn a_wanted_look_is_one_at_its_front()
    ensures look { (c : Course) (entries later : List Entry) (now : ℕ) (answer : Option Answer)
        → IsLook (entries ++ later) c
        (stepped (as_said (glimpse entries (want_of_course c))) now answer) }
    ensures whole { (c : Course) (entries : List Entry) (now : ℕ) (answer : Option Answer)
        → IsLook entries c (stepped (as_said (glimpse entries (want_of_course c))) now answer) }
    ensures front { (entries : List Entry) (want : Want)
        → (as_said (glimpse entries want)).front ≡ length entries }
{}

/// What a complete or offline delivery handed over in the rounds for which it stands is a prefix of
/// what its START is to hand over, of the archive up to the last front and of each longer one: its
/// entries are the first of the picked ones, each once, and end of data stands last, behind all of
/// them, and only where the stop is closed.
pub fn complete_rounds()
    ensures items { (c : Course) (t : Terms) (entries later : List Entry) (rounds : List Round)
        → StandsFor c t entries rounds → IsFalse (is_timely t.mode)
        → let archive = take (last_front 0 rounds) entries ++ later in
        let done = handed_items (outcomes t entries rounds started) in
        IsArchive archive → take (length done) (to_hand_over t archive) ≡ done }
    ensures entries { (c : Course) (t : Terms) (entries later : List Entry) (rounds : List Round)
        → StandsFor c t entries rounds → IsFalse (is_timely t.mode)
        → let archive = take (last_front 0 rounds) entries ++ later in
        let done = entries_of (handed_items (outcomes t entries rounds started)) in
        IsArchive archive → take (length done) (picked archive t.selection) ≡ done }
    ensures end_of_data { (c : Course) (t : Terms) (entries later : List Entry)
        (rounds : List Round)
        → StandsFor c t entries rounds → IsFalse (is_timely t.mode)
        → let archive = take (last_front 0 rounds) entries ++ later in
        let done = handed_items (outcomes t entries rounds started) in
        IsArchive archive → IsTrue (list_any is_end_of_data done)
        → IsTrue (is_stop_closed t.selection archive)
        × (done ≡ archived_items (picked archive t.selection) ++ end_of_data ∷ []) }
{
    complete_delivery();
}

/// What a timely delivery did in the rounds for which it stands has the shape of a timely delivery:
/// what was handed over and discarded is in order a prefix of what is picked; a buffer was
/// discarded exactly where it has a picked entry and the link stalled in that round; a buffer
/// handed over begins with backlog exactly where one was discarded since the last one handed over.
/// Where end of data was handed over, the stop is closed, and all that is picked was handed over or
/// discarded before.
pub fn timely_rounds()
    ensures shape { (c : Course) (t : Terms) (entries later : List Entry) (rounds : List Round)
        → StandsFor c t entries rounds → IsTrue (is_timely t.mode)
        → let archive = take (last_front 0 rounds) entries ++ later in
        IsArchive archive → TimelyShape (to_hand_over t archive)
        (outcomes t entries rounds started) }
    ensures end_of_data { (c : Course) (t : Terms) (entries later : List Entry)
        (rounds : List Round)
        → StandsFor c t entries rounds → IsTrue (is_timely t.mode)
        → let archive = take (last_front 0 rounds) entries ++ later in
        let done = outcomes t entries rounds started in
        IsArchive archive → IsTrue (list_any is_end_of_data (handed_items done))
        → IsTrue (is_stop_closed t.selection archive)
        × (without_backlog (settled_items done)
        ≡ archived_items (picked archive t.selection) ++ end_of_data ∷ []) }
{
    timely_delivery();
}

/// The items of a look at an archive meet what a step wants of them: their places are below the
/// front, and their frames aren't longer than an archive's.
pub fn looks_are_of_archive()
    ensures { (entries : List Entry) (want : Want) → IsArchive entries → length entries < 2 ^ 64
        → IsTrue (are_of_archive (as_said (glimpse entries want)).items) }
{}

/// What is owed comes. Where each visit finds the same front, and the buffer that is due in it is
/// taken whole, a delivery hands over, one buffer a visit, those that are ready, and the last one
/// once it is late (`still`). After enough of them a complete or offline START has handed over all
/// that it is to hand over, end of data too where the stop is closed (`complete`), and a timely one
/// has handed over or discarded it (`timely`). While the archive grows, or a complete or offline
/// START's link stalls, each visit whose buffer is taken whole hands over the next of those that
/// were ready before (`ready`); where each one's is, every visit does (`each`). Among visits that
/// stall, those whose buffer is taken, if one is due, are enough (`some`): a stall costs its own
/// visit and no more.
pub fn what_is_owed_comes()
    ensures still { (c : Course) (t : Terms) (entries : List Entry) (rounds : List Round)
        (visits : List Visit) (front : ℕ)
        → StandsFor c t entries rounds
        → AreLooks entries (last_front t.selection.first rounds) c visits
        → last_front t.selection.first rounds ≤ front → IsTrue (all_find front visits)
        → AreTaken c visits → HandsStill t entries rounds visits front }
    ensures complete { (c : Course) (t : Terms) (entries : List Entry) (rounds : List Round)
        (visits : List Visit) (front : ℕ)
        → StandsFor c t entries rounds
        → AreLooks entries (last_front t.selection.first rounds) c visits
        → last_front t.selection.first rounds ≤ front → IsTrue (all_find front visits)
        → AreTaken c visits → IsFalse (is_timely t.mode)
        → IsTrue (are_enough_at t entries front (after_rounds t entries rounds started)
        (moments_of visits))
        → handed_items (outcomes t entries (rounds ++ rounds_of visits) started)
        ≡ to_hand_over t (take front entries) }
    ensures timely { (c : Course) (t : Terms) (entries : List Entry) (rounds : List Round)
        (visits : List Visit) (front : ℕ)
        → StandsFor c t entries rounds
        → AreLooks entries (last_front t.selection.first rounds) c visits
        → last_front t.selection.first rounds ≤ front → IsTrue (all_find front visits)
        → AreTaken c visits
        → IsTrue (are_enough_at t entries front (after_rounds t entries rounds started)
        (moments_of visits))
        → without_backlog (settled_items (outcomes t entries (rounds ++ rounds_of visits) started))
        ≡ to_hand_over t (take front entries) }
    ensures ready { (c : Course) (t : Terms) (entries : List Entry) (rounds : List Round)
        (visits : List Visit) (front : ℕ)
        → StandsFor c t entries rounds → last_front t.selection.first rounds ≤ front
        → AreLooks entries front c visits → IsTrue (all_keep t.mode (rounds_of visits))
        → IsFalse (is_timely t.mode && is_to_tell (after_rounds t entries rounds started))
        → HandsReady t entries rounds visits front (taken_rounds (rounds_of visits)) }
    ensures each { (c : Course) (t : Terms) (entries : List Entry) (rounds : List Round)
        (visits : List Visit) (front : ℕ)
        → StandsFor c t entries rounds → last_front t.selection.first rounds ≤ front
        → AreLooks entries front c visits → AreTaken c visits
        → IsFalse (is_timely t.mode && is_to_tell (after_rounds t entries rounds started))
        → HandsReady t entries rounds visits front (length visits) }
    ensures some { (c : Course) (t : Terms) (entries : List Entry) (rounds : List Round)
        (flags : List Bool) (visits : List Visit) (front : ℕ)
        → StandsFor c t entries rounds → last_front t.selection.first rounds ≤ front
        → AreLooks entries front c visits → AreTakenOrKept t.mode c flags visits
        → IsFalse (is_timely t.mode && is_to_tell (after_rounds t entries rounds started))
        → HandsReady t entries rounds visits front (flagged flags) }
{
    places_are_counts();
    still_rounds();
    all_is_handed_over();
    ready_buffers_come();
}
