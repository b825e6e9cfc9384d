// What an item is to a transfer buffer.
ghost use Rattle.std.specs.Prelude.{◌≡◌, ◌≤◌, [], ◌∷◌, IsTrue, not, length};
ghost use Rattle.std.specs.List.{list_any, list_all, count_by};
ghost use Rattle.archive_terms.specs.Delivery.{is_archived, is_backlog, is_end_of_data};
ghost use Rattle.archive_terms.specs.Delivery.{is_notice_item, is_notification, frame_octets};
ghost use Rattle.archive_terms.specs.Delivery.{entries_of};
ghost use Rattle.archive_terms.specs.Continuity.{last_frame};
ghost use Rattle.archive_terms.specs.Glimpse.{place_behind};
ghost use Rattle.frame_select.specs.Item.{item_of};
ghost use Rattle.return_core.specs.Item.{is_of_archive, are_of_archive};

use archive_terms::LONGEST_FRAME;
use frame_select::{Item, Items};

/// How many octets of frames it has.
pub fn frame_octets(item: &Item) -> usize
    ensures { result ≡ frame_octets (item_of item.now).0 }
{
    match item {
        Item::Frame { octets, .. } => octets.len(),
        _ => 0,
    }
}

/// Whether it is a notification, which isn't to wait.
pub fn is_notification(item: &Item) -> bool
    ensures { result ≡ is_notification (item_of item.now).0 }
{
    !matches!(item, Item::Frame { .. })
}

/// Whether nothing goes into a buffer behind it.
pub fn is_closing(item: &Item) -> bool
    ensures { result ≡ is_notice_item (item_of item.now).0 }
{
    matches!(item, Item::Loss { .. } | Item::Production { .. })
}

/// Whether it is a picked entry.
pub fn is_archived(item: &Item) -> bool
    ensures { result ≡ is_archived (item_of item.now).0 }
{
    !matches!(item, Item::Backlog | Item::EndOfData)
}

/// Whether it tells a discard.
pub fn is_backlog(item: &Item) -> bool
    ensures { result ≡ is_backlog (item_of item.now).0 }
{
    matches!(item, Item::Backlog)
}

/// Whether it is end of data.
pub fn is_end_of_data(item: &Item) -> bool
    ensures { result ≡ is_end_of_data (item_of item.now).0 }
{
    matches!(item, Item::EndOfData)
}

/// The place behind it, or the one before, where it has none.
pub fn place_behind(place: u64, item: &Item) -> u64
    requires { IsTrue (is_of_archive (item_of item.now).0) }
    ensures { result ≡ place_behind place (entries_of ((item_of item.now).0 ∷ [])) }
{
    match item {
        Item::Frame { place, .. } | Item::Loss { place, .. } | Item::Production { place, .. } => {
            *place + 1
        }
        Item::Backlog | Item::EndOfData => place,
    }
}

/// The place of the last frame, this item included.
pub fn last_frame(before: Option<u64>, item: &Item) -> Option<u64>
    ensures { result ≡ last_frame before ((item_of item.now).0 ∷ []) }
{
    match item {
        Item::Frame { place, .. } => Some(*place),
        _ => before,
    }
}

/// Whether some item is a picked entry.
pub fn any_archived(items: &[Item]) -> bool
    ensures { result ≡ list_any (λ item. is_archived (item_of item).0) items.now }
{
    items.iter().any(|item| is_archived(item))
}

/// Whether some item tells a discard.
pub fn any_backlog(items: &[Item]) -> bool
    ensures { result ≡ list_any (λ item. is_backlog (item_of item).0) items.now }
{
    items.iter().any(|item| is_backlog(item))
}

/// How many items there are, a backlog not counted.
pub fn items_told(items: &[Item]) -> usize
    ensures count { result ≡ count_by (λ item. not (is_backlog (item_of item).0)) items.now }
    ensures within { result ≤ length items.now }
{
    items.iter().filter(|item| !is_backlog(item)).count()
}

/// Whether some item is end of data.
pub fn any_end_of_data(items: &[Item]) -> bool
    ensures { result ≡ list_any (λ item. is_end_of_data (item_of item).0) items.now }
{
    items.iter().any(|item| is_end_of_data(item))
}

/// Whether items are such as a look at an archive gives: places below the last number of 64 bits,
/// and frames of at most 65,536 octets. It is the test of what `Delivery::step` requires.
pub fn are_of_archive(items: &Items) -> bool
    ensures { result ≡ are_of_archive items.now }
{
    all_of_archive(items.as_slice())
}

fn all_of_archive(items: &[Item]) -> bool
    ensures { result ≡ list_all (λ item. is_of_archive (item_of item).0) items.now }
{
    items.iter().all(|item| is_of_archive(item))
}

fn is_of_archive(item: &Item) -> bool
    ensures { result ≡ is_of_archive (item_of item.now).0 }
{
    match item {
        Item::Frame { place, octets, .. } => *place < u64::MAX && octets.len() <= LONGEST_FRAME,
        Item::Loss { place, .. } | Item::Production { place, .. } => *place < u64::MAX,
        Item::Backlog | Item::EndOfData => true,
    }
}
