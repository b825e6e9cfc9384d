// What holds of STARTs of the desk, each the contract of an empty function: a caller has it by the
// call.
ghost use Rattle.std.specs.Prelude.{◌≡◌, ℕ, ◌+◌, ◌≤◌, List, length, map};
ghost use Rattle.std.specs.List.{AllByRecursion};
ghost use Rattle.cds_time.specs.declared.cds.Cds.{Cds};
ghost use Rattle.isp1_tml.specs.Message.{IsMessage};
ghost use Rattle.archive_terms.specs.Archive.{Entry, IsArchive};
ghost use Rattle.station_desk.specs.ToldBuffer.{ToldBuffer, buffer_message};
ghost use Rattle.station_desk.specs.Readable.{AreReadable};
ghost use Rattle.station_desk.specs.Start.{terms, told_desk};

/// A user reads of each buffer that a START of the desk hands over just what it says, and each is a
/// message of the transport.
pub fn a_start_is_read()
    ensures readable { (entries : List Entry) (first last : Cds) (quality : ℕ) → IsArchive entries
        → AreReadable (told_desk entries first last quality) }
    ensures messages { (told : List ToldBuffer) → AreReadable told
        → AllByRecursion IsMessage (map buffer_message told) }
{
    archive_terms::laws::cut_into_buffers();
    archive_terms::laws::offline_buffers_hold_a_prefix();
    ber_core::laws::canonical_spells();
    return_pdu::laws::buffers_are_exact();
    return_pdu::laws::end_is_plain();
    return_pdu::laws::frames_are_plain();
    return_pdu::laws::frames_are_short();
}

/// A START of the desk hands over at most as many buffers as there are entries, and one more with
/// the end of data.
#[tactic(auto, using(crate::proofs::Rounds::few_told))]
pub fn a_start_has_few_buffers()
    ensures { (entries : List Entry) (first last : Cds) (quality : ℕ)
        → length (told_desk entries first last quality) ≤ length entries + 1 }
{}

/// A buffer of the desk has at most two items.
pub fn examples()
    ensures { (first last : Cds) (quality : ℕ) → (terms first last quality).size ≡ 2 }
{}
