// Laws of what a file stands for and of what a stop leaves, each the contract of an empty function:
// a caller has the law by the call.
ghost use Rattle.std.specs.Prelude.{◌≡◌, ◌<◌, ◌≤◌, ◌∷◌, ◌++◌, ℕ, [], List, Option, None, Some};
ghost use Rattle.std.specs.Prelude.{IfSome};
ghost use Rattle.std.specs.Prelude.{IsTrue, IsFalse};
ghost use Rattle.archive_terms.specs.Archive.{Entry, IsArchive, is_storable};
ghost use Rattle.std.specs.List.{list_all};
ghost use Rattle.disk_model.specs.Images.{Pending};
ghost use Rattle.disk_model.specs.Moments.{IsImageOf};
ghost use Rattle.disk_model.specs.Calls.{AllMade, FailedAtOne};
ghost use Rattle.disk_model.specs.MemoryDisk.{DiskState, IsMadeCall, IsFailedCall, pending_of};
ghost use Rattle.disk_model.specs.MemoryDisk.{steered, restarted, content_of};
ghost use Rattle.disk_model.specs.declared.orders.Orders.{Orders};
ghost use Rattle.disk_model.specs.declared.orders.Stop.{Stop};
ghost use Rattle.gate_journal.specs.File.{IsBatch, StandsFor, StandsAt};
ghost use Rattle.record_form.specs.Reading.{AreOctets};
ghost use Rattle.gate_journal.specs.Reading.{IsDamagedAt, IsNoJournal, LedTo, Verdict, IsFound};
ghost use Rattle.gate_journal.specs.JournalState.{Keeps, IsAtRest, IsToStop, StopsIn};
ghost use Rattle.gate_journal.specs.JournalState.{KeepsOnRestart};
ghost use Rattle.gate_journal.specs.JournalState.{appending, entries_left, leaves_batch, HasBatch};
ghost use Rattle.gate_journal.specs.JournalState.{IsToFail, FailsIn, holds_batch};

/// A file stands for one list of entries at most, and its gate stands at one place.
pub fn a_file_stands_for_one_list()
    ensures list { (one other : List Entry) (file : List ℕ) → StandsFor one file
        → StandsFor other file → one ≡ other }
    ensures place { (one other : List Entry) (place there : ℕ) (file : List ℕ)
        → StandsAt one place file → StandsAt other there file → place ≡ there }
{
    record_form::laws::read_back();
}

/// Where all is synced each image stands for what is kept.
pub fn an_image_at_rest_stands_for_what_is_kept()
    ensures { (pending : Option Pending) (entries : List Entry) (image : List ℕ)
        → Keeps pending entries → IsImageOf pending image → StandsFor entries image }
{}

/// A batch that with the entries that are kept is an archive may be appended.
pub fn a_batch_may_follow()
    ensures archive { (pending : Option Pending) (stored batch entries : List Entry)
        → Keeps pending stored → IsArchive (stored ++ batch) → Keeps pending entries
        → IsArchive (entries ++ batch) }
    ensures storable { (stored batch : List Entry) → IsArchive (stored ++ batch)
        → IsTrue (list_all is_storable batch) }
{
    record_form::laws::read_back();
}

/// A file that is damaged is so at one place and stands for nothing; nor does one that is no
/// journal.
pub fn a_refused_file_stands_for_nothing()
    ensures damaged { (place there : ℕ) (entries : List Entry) (file : List ℕ) → AreOctets file
        → IsDamagedAt place file → StandsAt entries there file → ⊥ }
    ensures place { (one other : ℕ) (file : List ℕ) → AreOctets file → IsDamagedAt one file
        → IsDamagedAt other file → one ≡ other }
    ensures no_journal { (place there : ℕ) (entries : List Entry) (file : List ℕ)
        → IsNoJournal place file → StandsAt entries there file → ⊥ }
{
    archive_terms::laws::archive_grows();
    record_form::laws::read_where_spelled();
    record_form::laws::read_back();
}

/// Each list of octets stands for entries, or is no journal, or is damaged, and is one of the three
/// alone: of one list of entries, or at one place.
pub fn each_file_has_one_verdict()
    ensures some { (file : List ℕ) → AreOctets file → (verdict : Verdict) × IsFound verdict file }
    ensures one { (one other : Verdict) (file : List ℕ) → AreOctets file → IsFound one file
        → IsFound other file → one ≡ other }
{
    archive_terms::laws::archive_grows();
    record_form::laws::read_where_spelled();
    a_file_stands_for_one_list();
    a_refused_file_stands_for_nothing();
}

/// Entries that were read of a file are a front of those that it stands for.
pub fn what_is_read_is_a_front()
    ensures { (front entries : List Entry) (gate place : ℕ) (file : List ℕ) → LedTo gate front file
        → StandsAt entries place file → (rest : List Entry) × (entries ≡ front ++ rest) }
{
    record_form::laws::read_back();
}

/// What is kept is what a recovery finds.
pub fn a_recovery_finds_what_is_kept()
    ensures { (pending : Option Pending) (entries found : List Entry) (gate : ℕ)
        → Keeps pending entries → IfSome pending (λ told. StandsAt found gate told.content)
        → found ≡ entries }
{
    record_form::laws::read_back();
}

/// A stop at a counted call of an append, the K-th of its four: the append fails, and the disk in
/// memory keeps, once it is restarted, the entries from before, with the batch exactly where K is 3
/// or 4 and the pick is new. A stop past the fourth call lets the append be.
pub fn a_stop_leaves_whole_batches()
    ensures steered { (disk : DiskState) (orders : Orders) (stop : Stop) → disk.stopped ≡ None
        → orders.stop ≡ Some stop → orders.failing.failing ≡ [] → 0 < stop.calls
        → IsToStop (steered disk orders) stop }
    ensures fails { (disk after : DiskState) (gate : ℕ) (batch : List Entry) (stop : Stop)
        → IsToStop disk stop → 0 < stop.calls → stop.calls ≤ 4
        → AllMade IsMadeCall disk (appending gate batch) after → ⊥ }
    ensures stopped { (disk after : DiskState) (gate : ℕ) (batch : List Entry) (stop : Stop)
        → StopsIn disk gate batch stop after → after.stopped ≡ Some stop.pick }
    ensures left { (disk after : DiskState) (gate : ℕ) (entries batch : List Entry) (stop : Stop)
        → IsAtRest (Some (pending_of disk)) gate → Keeps (Some (pending_of disk)) entries
        → IsBatch batch → IsArchive (entries ++ batch) → StopsIn disk gate batch stop after
        → KeepsOnRestart after stop (entries_left entries batch stop) }
    ensures file { (disk after : DiskState) (gate : ℕ) (entries batch : List Entry) (stop : Stop)
        → IsAtRest (Some (pending_of disk)) gate → Keeps (Some (pending_of disk)) entries
        → IsBatch batch → IsArchive (entries ++ batch) → StopsIn disk gate batch stop after
        → HasBatch (leaves_batch stop.calls stop.pick) entries batch gate
        (content_of (restarted after stop.pick)) }
    ensures later { (disk after : DiskState) (gate : ℕ) (batch : List Entry) (stop : Stop)
        → IsToStop disk stop → 4 < stop.calls
        → FailedAtOne IsMadeCall IsFailedCall disk (appending gate batch) after
        → IsFalse after.memory_refused → ⊥ }
{
    disk_model::laws::a_stop_comes_at_its_call();
    disk_model::laws::a_run_is_as_ordered();
    disk_model::laws::a_stop_leaves_an_image();
    record_form::laws::read_back();
}

/// A counted call of an append that fails, the K-th of its four: the append fails, the disk in
/// memory runs on, and its file holds the entries from before, with the batch exactly where K is 4.
pub fn a_fault_leaves_whole_batches()
    ensures steered { (disk : DiskState) (orders : Orders) (k : ℕ) → disk.stopped ≡ None
        → orders.stop ≡ None → orders.failing ≡ record { failing = k ∷ []; made = 0 }
        → IsToFail (steered disk orders) k }
    ensures fails { (disk after : DiskState) (gate : ℕ) (batch : List Entry) (k : ℕ)
        → IsToFail disk k → 0 < k → k ≤ 4
        → AllMade IsMadeCall disk (appending gate batch) after → ⊥ }
    ensures runs { (disk after : DiskState) (gate : ℕ) (batch : List Entry) (k : ℕ)
        → FailsIn disk gate batch k after → after.stopped ≡ None }
    ensures file { (disk after : DiskState) (gate : ℕ) (entries batch : List Entry) (k : ℕ)
        → IsAtRest (Some (pending_of disk)) gate → Keeps (Some (pending_of disk)) entries
        → IsBatch batch → IsArchive (entries ++ batch) → FailsIn disk gate batch k after
        → HasBatch (holds_batch k) entries batch gate (content_of after) }
{
    disk_model::laws::a_fault_comes_at_its_call();
    disk_model::laws::a_run_is_as_ordered();
    disk_model::laws::a_stop_leaves_an_image();
    record_form::laws::read_back();
}
