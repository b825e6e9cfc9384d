// Laws of what a source tells, and of what a step drops, each the contract of an empty function: a
// caller has the law by the call.
ghost use Rattle.std.specs.Prelude.{◌≡◌, ◌++◌, ◌∷◌, [], ℕ, List, Option, Some};
ghost use Rattle.archive_terms.specs.Archive.{Entry};
ghost use Rattle.octet_core.specs.Told.{Tells};
ghost use Rattle.frame_archive.specs.State.{refusal, with_stored};
ghost use Rattle.frame_archive.specs.declared.fault.OfferFault.TheVariants as OfferFault;
ghost use Rattle.recorder.specs.Feeds.{Answer};
ghost use Rattle.recorder.specs.Offers.{Offered, after_offers, HasNoRoom};

use disk_model::Disk;

/// What a source tells of one run and of the next it tells of both, in that order. Of no call it
/// tells nothing.
pub fn answers_of_two_runs_join()
    ensures joined { (before mid after : Option (List Answer)) (first second : List Answer)
        → Tells before mid first → Tells mid after second
        → Tells before after (first ++ second) }
    ensures none { (told : Option (List Answer)) → Tells told told [] }
{}

/// An entry that is dropped as full has no room in the archive once all is stored that was offered
/// with it and that wasn't dropped: with the 7 octets of a batch it is longer than what is free of
/// the capacity. Or the archive holds as many entries as it can.
pub fn a_full_entry_has_no_room<D: Disk>()
    ensures { (start : Offered D) (before after : List Entry) (entry : Entry) (need free : ℕ)
        → (disk : D)
        → refusal (after_offers start before).archive entry ≡ Some (OfferFault.Full need free)
        → HasNoRoom (with_stored (after_offers start (before ++ entry ∷ after)).archive disk) entry }
{}
