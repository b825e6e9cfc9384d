// What status reports count.
ghost use Rattle.std.specs.Prelude.{◌≡◌, ◌==◌, count_by};
ghost use Rattle.sle_numbers.specs.FrameQuality.{number_of};
ghost use Rattle.frame_select.specs.Item.{item_of, items_of};
ghost use Rattle.return_service.specs.Counts.{is_frame, is_error_free, counted, with_frames_of};

use frame_select::Item;
use sle_numbers::FrameQuality;

/// The frames that were handed over since the BIND. A count stands still at its type's end.
#[derive(Clone, Copy, Debug, PartialEq, Eq)]
pub struct Counts {
    /// Those of quality 0.
    pub error_free: u32,
    /// All of them.
    pub delivered: u32,
}

/// Nothing was handed over.
pub const NO_FRAMES: Counts = Counts {
    error_free: 0,
    delivered: 0,
};

/// The counts behind these items too, which were handed over.
pub fn with_frames_of(counts: Counts, items: &[Item]) -> Counts
    ensures { result ≡ with_frames_of (items_of items.now) counts }
{
    Counts {
        error_free: counted(counts.error_free, error_free_frames(items)),
        delivered: counted(counts.delivered, frames(items)),
    }
}

fn counted(count: u32, more: usize) -> u32
    ensures { result ≡ counted count more }
{
    count.saturating_add(u32::try_from(more).unwrap_or(u32::MAX))
}

fn frames(items: &[Item]) -> usize
    ensures { result ≡ count_by (λ item. is_frame (item_of item).0) items.now }
{
    items.iter().filter(|item| is_frame(item)).count()
}

fn error_free_frames(items: &[Item]) -> usize
    ensures { result ≡ count_by (λ item. is_error_free (item_of item).0) items.now }
{
    items.iter().filter(|item| is_error_free(item)).count()
}

fn is_frame(item: &Item) -> bool
    ensures { result ≡ is_frame (item_of item.now).0 }
{
    matches!(item, Item::Frame { .. })
}

fn is_error_free(item: &Item) -> bool
    ensures { result ≡ is_error_free (item_of item.now).0 }
{
    match item {
        Item::Frame { quality, .. } => is_good(*quality),
        _ => false,
    }
}

fn is_good(quality: FrameQuality) -> bool
    ensures { result ≡ (number_of quality == 0) }
{
    match quality {
        FrameQuality::Good => true,
        FrameQuality::Erred | FrameQuality::Undetermined => false,
    }
}
