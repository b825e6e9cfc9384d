// A disk whose calls are counted.

ghost use Rattle.std.specs.Prelude.{◌≡◌};

use disk_model::Disk;
use octet_core::Failed;
use station_board::Board;
use std::marker::Model;

/// A disk whose board, if it has one, counts its syncs with its size, and its faults. Contracts see it
/// as the disk.
#[derive(Drop)]
pub struct CountedDisk<D: Disk> {
    disk: D,
    board: Option<Board>,
}

impl<D: Disk> Model for CountedDisk<D> {
    ghost Value = { D };

    ghost view = { λ counted. counted.disk };
}

impl<D: Disk> CountedDisk<D> {
    /// This disk, whose calls this board counts, if one does.
    pub fn new(disk: D, board: Option<Board>) -> CountedDisk<D>
        ensures { result ≡ disk }
    {
        CountedDisk { disk, board }
    }
}

// Counts a call that isn't a sync.
fn count(board: &Option<Board>, answer: &Result<(), Failed>) {
    if let (Some(board), Err(_)) = (board, answer) {
        board.archive_failed();
    }
}

// Counts a sync, with the size of the disk.
fn count_sync(board: &Option<Board>, answer: &Result<(), Failed>, size: u64) {
    let Some(board) = board else {
        return;
    };
    match answer {
        Ok(()) => board.archive_synced(size),
        Err(_) => board.sync_failed(),
    }
}

impl<D: Disk> Disk for CountedDisk<D> {
    ghost pending = { D.pending };

    ghost extent = { D.extent };

    ghost moment = { D.moment };

    ghost images_since = { D.images_since };

    ghost faults = { D.faults };

    ghost makes = { D.makes };

    ghost fails = { D.fails };

    ghost fails_to_read = { D.fails_to_read };

    fn size(&self) -> u64 {
        self.disk.size()
    }

    fn read_at(&mut self, place: u64, into: &mut [u8]) -> Result<(), Failed> {
        let answer = self.disk.read_at(place, into);
        count(&self.board, &answer);
        answer
    }

    fn write_at(&mut self, place: u64, octets: &[u8]) -> Result<(), Failed> {
        let answer = self.disk.write_at(place, octets);
        count(&self.board, &answer);
        answer
    }

    fn cut(&mut self, size: u64) -> Result<(), Failed> {
        let answer = self.disk.cut(size);
        count(&self.board, &answer);
        answer
    }

    fn sync(&mut self) -> Result<(), Failed> {
        let answer = self.disk.sync();
        count_sync(&self.board, &answer, self.disk.size());
        answer
    }

    ghost read_is_image = { D.read_is_image };

    ghost size_is_read = { D.size_is_read };

    ghost counts_now = { D.counts_now };

    ghost only_now = { D.only_now };
}
