// How far a look has come.
ghost use Rattle.std.specs.Prelude.{◌≡◌, ◌+◌, ◌<◌, ◌^◌};
ghost use Rattle.record_form.specs.Entry.{entry_of};

use record_form::Entry;

// What is still wanted of a look.
#[derive(Clone, Copy, Debug)]
pub(crate) struct Cursor {
    // The place from which on.
    pub(crate) place: u64,
    // The place of the last frame that was handed over, is held or was given.
    pub(crate) since: Option<u64>,
    // How many items, and how many octets of frames.
    pub(crate) room: u32,
    pub(crate) octets: usize,
}

impl Cursor {
    ghost use Rattle.archive_index.specs.Look.{is_full, behind};

    // Whether nothing more is wanted.
    pub(crate) fn is_full(&self) -> bool
        ensures { result ≡ is_full self.now }
    {
        self.room == 0 || self.octets == 0
    }

    // What is wanted behind the entry at a place, which was given.
    pub(crate) fn behind(&self, place: u64, entry: &Entry) -> Cursor
        requires room { 0 < self.now.room }
        requires fits { place + 1 < 2 ^ 64 }
        ensures { result ≡ behind self.now place (entry_of entry.now) }
    {
        let mut cursor = *self;
        cursor.place = place + 1;
        cursor.room -= 1;
        if let Entry::Frame { octets, .. } = entry {
            cursor.since = Some(place);
            cursor.octets = self.octets.saturating_sub(octets.len());
        }
        cursor
    }
}
