// Whether items go into one message.
ghost use Rattle.std.specs.Prelude.{◌≡◌, ◌≤◌, length, IsTrue};
ghost use Rattle.std.specs.List.{list_all, sum_by};
ghost use Rattle.archive_terms.specs.Delivery.{frame_octets};
ghost use Rattle.frame_select.specs.Item.{item_of, items_of};
ghost use Rattle.buffer_message.specs.Fitting.{is_in_range, is_continuity, fits_message};

use crate::limits::MOST_ITEMS;
use archive_terms::{FULL_BUFFER, GREATEST_LOST, LONGEST_FRAME};
use frame_select::Item;

/// Whether items go into one message: each in its ranges, at most 1,000 of them, and of their
/// frames fewer octets than fill a buffer and the longest frame has.
pub(crate) fn fits(items: &[Item]) -> bool
    ensures { result ≡ fits_message (items_of items.now) }
{
    items.len() <= MOST_ITEMS
        && are_in_range(items)
        && octets_of_frames(items) < FULL_BUFFER + LONGEST_FRAME
}

fn are_in_range(items: &[Item]) -> bool
    ensures { result ≡ list_all (λ item. is_in_range (item_of item)) items.now }
{
    items.iter().all(|item| is_in_range(item))
}

fn octets_of_frames(items: &[Item]) -> usize
    requires few { length items.now ≤ MOST_ITEMS }
    requires in_range { IsTrue (list_all (λ item. is_in_range (item_of item)) items.now) }
    ensures { result ≡ sum_by (λ item. frame_octets (item_of item).0) items.now }
{
    let mut octets = 0;
    for item in items {
        octets += frame_octets(item);
    }
    octets
}

fn frame_octets(item: &Item) -> usize
    ensures { result ≡ frame_octets (item_of item.now).0 }
{
    match item {
        Item::Frame { octets, .. } => octets.len(),
        _ => 0,
    }
}

fn is_in_range(item: &Item) -> bool
    ensures { result ≡ is_in_range (item_of item.now) }
{
    match item {
        Item::Frame {
            antenna,
            continuity,
            octets,
            ..
        } => {
            1 <= antenna.len()
                && antenna.len() <= 16
                && is_continuity(*continuity)
                && 1 <= octets.len()
                && octets.len() <= LONGEST_FRAME
        }
        _ => true,
    }
}

fn is_continuity(continuity: i32) -> bool
    ensures { result ≡ is_continuity continuity }
{
    -1 <= continuity && continuity <= GREATEST_LOST as i32
}
