// Entries put behind others, with their index.
ghost use Rattle.std.specs.Prelude.{◌≡◌, ◌≤◌, ◌++◌, ◌∷◌, [], take, length, OnOk, OnErr, IfErr, IfOk};
ghost use Rattle.std.specs.Prelude.{IsFalse};
ghost use Rattle.archive_terms.specs.Archive.{is_archive, IsArchive};
ghost use Rattle.archive_index.specs.IndexState.{Indexes};
ghost use Rattle.record_form.specs.Entry.{entry_of, entries_of};

use crate::publish_fault::PublishFault;
use archive_index::{Index, Shelf};
use archive_terms::laws::archive_grows;
use octet_core::Memory;
use record_form::Entry;
use std::alloc::Global;

// Puts an entry behind the others. After want of memory these are as before.
fn push(index: &mut Index, archive: &mut Shelf<Entry>, entry: &Entry) -> Result<(), Memory>
    requires { Indexes index.old (entries_of archive.old) }
    ensures held { OnOk result (archive.new ≡ archive.old ++ entry.now ∷ []) }
    ensures index { OnOk result (Indexes index.new
        (entries_of archive.old ++ entry_of entry.now ∷ [])) }
    ensures err { OnErr result (archive.new ≡ archive.old) }
    ensures kept { OnErr result (Indexes index.new (entries_of archive.old)) }
{
    let count = archive.length();
    let copy = entry.clone()?;
    if archive.push(copy).is_err() {
        return Err(Memory);
    }
    if index.add(entry).is_err() {
        archive.cut(count);
        return Err(Memory);
    }
    Ok(())
}

// The index of entries.
pub(crate) fn index_of(alloc: Global, entries: &[Entry]) -> Result<Index, Memory>
    ensures { IfOk result (λ index. Indexes index (entries_of entries.now)) }
{
    let mut index = Index::new(alloc)?;
    for entry in entries {
        index.add(entry)?;
    }
    Ok(index)
}

// Puts entries behind the others, with which they are an archive. With a refusal it says how many
// of them stand there.
fn put_all(
    index: &mut Index,
    archive: &mut Shelf<Entry>,
    entries: &[Entry],
) -> Result<(), (PublishFault, usize)>
    requires archive { IsArchive (entries_of archive.old) }
    requires indexed { Indexes index.old (entries_of archive.old) }
    ensures all { OnOk result (archive.new ≡ archive.old ++ entries.now) }
    ensures archive { OnOk result (IsArchive (entries_of archive.new)) }
    ensures foreign { IfErr result (λ e. e.0 ≡ PublishFault.Foreign
        → IsFalse (is_archive (entries_of archive.old ++ entries_of entries.now))) }
    ensures few { IfErr result (λ e. e.1 ≤ length entries.now) }
    ensures put { IfErr result (λ e. archive.new ≡ archive.old ++ take e.1 entries.now) }
    ensures indexed { Indexes index.new (entries_of archive.new) }
{
    archive_grows();
    for (count, entry) in entries.iter().enumerate() {
        if !index.may_follow(entry) {
            return Err((PublishFault::Foreign, count));
        }
        if push(index, archive, entry).is_err() {
            return Err((PublishFault::Memory, count));
        }
    }
    Ok(())
}

// Puts entries behind the others, with which they are an archive. A refusal changes nothing.
pub(crate) fn extend(
    index: &mut Index,
    archive: &mut Shelf<Entry>,
    entries: &[Entry],
) -> Result<(), PublishFault>
    requires archive { IsArchive (entries_of archive.old) }
    requires indexed { Indexes index.old (entries_of archive.old) }
    ensures all { OnOk result (archive.new ≡ archive.old ++ entries.now) }
    ensures archive { OnOk result (IsArchive (entries_of archive.new)) }
    ensures foreign { result ≡ Err PublishFault.Foreign
        → IsFalse (is_archive (entries_of archive.old ++ entries_of entries.now)) }
    ensures err { OnErr result (archive.new ≡ archive.old) }
    ensures indexed { Indexes index.new (entries_of archive.new) }
{
    let mark = index.mark();
    let before = archive.length();
    match put_all(index, archive, entries) {
        Ok(()) => Ok(()),
        Err((fault, count)) => {
            index.go_back(&mark, &entries[..count]);
            archive.cut(before);
            Err(fault)
        }
    }
}
