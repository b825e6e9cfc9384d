// Rounds of a delivery.
ghost use Rattle.std.specs.Prelude.{◌≡◌, ◌≤◌, List, [], ◌∷◌, ◌++◌, length, IsTrue, IfOk, OnOk};
ghost use Rattle.std.specs.Prelude.{OnErr};
ghost use Rattle.archive_terms.specs.Archive.{Entry, IsArchive};
ghost use Rattle.archive_terms.specs.Delivery.{Terms};
ghost use Rattle.archive_terms.specs.Rounds.{Round, last_front};
ghost use Rattle.return_core.specs.Mode.{answer_of};
ghost use Rattle.return_core.specs.Standing.{all_go_on, StandsFor};
ghost use Rattle.return_core.specs.Visits.{visited, done_in, discard_told, rounds_of, IsLook};
ghost use Rattle.return_core.specs.Visits.{AreLooks, VisitsStand};
ghost use Rattle.sample_returns.specs.Rounds.{visit_at};

use octet_core::{Memory, Offer};
use return_core::Delivery;
use return_core::laws::{
    a_delivery_stands_as_the_archive_grows, a_wanted_look_is_one_at_its_front, each_visit_stands,
    looks_are_of_archive,
};
use station_book::Book;

/// Makes a round in which no block waits, with the link's answer to what is offered. It says how
/// many items were discarded, if any were.
pub fn make_round(
    book: &Book,
    delivery: &mut Delivery,
    now: u128,
    answer: Offer,
) -> Result<Option<u32>, Memory>
    ensures visited { OnOk result (delivery.new
        ≡ visited (visit_at book.now delivery.old now (answer_of answer)) delivery.old) }
    ensures discards { IfOk result (λ count. count
        ≡ discard_told (done_in (visit_at book.now delivery.old now (answer_of answer))
        delivery.old)) }
    ensures look { IsLook book.now.published delivery.old
        (visit_at book.now delivery.old now (answer_of answer)) }
    ensures stands { (t : Terms) (entries : List Entry) (rounds : List Round) →
        let visits = visit_at book.now delivery.old now (answer_of answer) ∷ [] in
        StandsFor delivery.old t entries rounds
        → AreLooks entries (last_front t.selection.first rounds) delivery.old visits
        → IsTrue (all_go_on (rounds_of visits)) → VisitsStand delivery.old t entries rounds visits }
    ensures err { OnErr result (delivery.new ≡ delivery.old) }
{
    looks_are_of_archive();
    a_wanted_look_is_one_at_its_front();
    each_visit_stands();
    let glimpse = book.look(&delivery.want())?;
    delivery.step(glimpse, now);
    let discards = delivery.discards(answer);
    delivery.settle(answer);
    Ok(discards)
}

/// The rounds of a delivery stand behind what is published later.
pub fn stand_on(_delivery: &Delivery)
    ensures { (t : Terms) (entries later : List Entry) (rounds : List Round)
        → StandsFor _delivery.now t entries rounds
        → last_front t.selection.first rounds ≤ length entries → IsArchive (entries ++ later)
        → StandsFor _delivery.now t (entries ++ later) rounds }
{
    a_delivery_stands_as_the_archive_grows();
}
