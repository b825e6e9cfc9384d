// Lists by channel.
ghost use Rattle.std.specs.Prelude.{◌≡◌, ◌-◌, ◌==◌, ◌&&◌, [], OnOk, OnErr, if◌then◌else◌, length, take};
ghost use Rattle.archive_terms.specs.Selection.{is_of_channel};
ghost use Rattle.frame_select.specs.Selection.{id_of};
ghost use Rattle.archive_index.specs.Keys.{list_of, is_key, id_of_key};
ghost use Rattle.archive_index.specs.IndexState.{more_if};

use crate::shelf::Shelf;
use octet_core::Memory;
use sle_common::{Channel, Gvcid};
use std::alloc::Global;
use std::cmp::Ordering;
use std::collections::BTreeMap;

/// A virtual channel, or a master channel as a whole.
#[derive(Clone, Copy, Debug, PartialEq, Eq)]
pub struct Key {
    pub(crate) spacecraft: u16,
    pub(crate) version: u8,
    pub(crate) channel: Option<u8>,
}

impl Key {
    // The key of a channel.
    pub(crate) fn of(id: &Gvcid) -> Key
        ensures { id_of_key result ≡ id_of id.now }
    {
        Key {
            spacecraft: id.spacecraft,
            version: id.version,
            channel: match id.channel {
                Channel::Master => None,
                Channel::Virtual(number) => Some(number),
            },
        }
    }
}

impl Ord for Key {
    ghost use Rattle.std.proofs.Common.{rules};
    ghost use Rattle.std.specs.Cmp.Rules.{comparing};
    ghost use Rattle.archive_index.specs.Keys.{key_cmp};

    ghost cmp = { key_cmp };

    ghost total = { Prim.search (comparing, rules) };

    ghost matches_partial_cmp = { Prim.search (comparing, rules) };

    ghost matches_eq = { Prim.search (comparing, rules) };

    fn cmp(&self, other: &Key) -> Ordering {
        self.spacecraft.cmp(&other.spacecraft).then(
            self.version
                .cmp(&other.version)
                .then(self.channel.cmp(&other.channel)),
        )
    }
}

impl PartialOrd for Key {
    ghost use Rattle.std.proofs.Common.{rules};
    ghost use Rattle.std.specs.Cmp.{partial_order_from_own_ties, partial_order_from_total};
    ghost use Rattle.std.specs.Cmp.Rules.{comparing};
    ghost use Rattle.std.specs.Ordering.{as_partial_cmp};
    ghost use Rattle.archive_index.specs.Keys.{key_cmp};

    ghost partial_cmp = { as_partial_cmp key_cmp };

    ghost laws = { partial_order_from_own_ties
        (partial_order_from_total {R = key_cmp} (Prim.search (comparing, rules)))
        (Prim.search (comparing, rules)) };

    fn partial_cmp(&self, other: &Key) -> Option<Ordering> {
        Some(self.cmp(other))
    }
}

// Puts a number after the list of a channel.
fn push_at(
    alloc: Global,
    lists: &mut BTreeMap<Key, Shelf<u64>>,
    key: Key,
    number: u64,
) -> Result<(), Memory>
    ensures ok { OnOk result ((k : Key) → list_of lists.new k
        ≡ more_if (is_key key k) (list_of lists.old k) number) }
    ensures err { OnErr result ((k : Key) → list_of lists.new k ≡ list_of lists.old k) }
{
    if let Some(shelf) = lists.get_mut(&key) {
        return match shelf.push(number) {
            Ok(()) => Ok(()),
            Err(_) => Err(Memory),
        };
    }
    let mut shelf = Shelf::new(alloc)?;
    if shelf.push(number).is_err() {
        return Err(Memory);
    }
    lists.insert(key, shelf)?;
    Ok(())
}

// Takes the last number off the list of a channel.
fn drop_at(lists: &mut BTreeMap<Key, Shelf<u64>>, key: Key)
    ensures { (k : Key) → list_of lists.new k
        ≡ (if is_key key k then take (length (list_of lists.old k) - 1) (list_of lists.old k)
        else list_of lists.old k) }
{
    if let Some(shelf) = lists.get_mut(&key) {
        shelf.cut(shelf.length().saturating_sub(1));
    }
}

// Puts a frame's number after the lists of its virtual channel and of its master channel.
pub(crate) fn push_channels(
    alloc: Global,
    lists: &mut BTreeMap<Key, Shelf<u64>>,
    id: &Gvcid,
    number: u64,
) -> Result<(), Memory>
    ensures ok { OnOk result ((k : Key) → list_of lists.new k
        ≡ more_if (is_of_channel (id_of_key k) (id_of id.now)) (list_of lists.old k) number) }
    ensures err { OnErr result ((k : Key) → list_of lists.new k ≡ list_of lists.old k) }
{
    let whole = Key {
        channel: None,
        ..Key::of(id)
    };
    push_at(alloc, lists, whole, number)?;
    match id.channel {
        Channel::Master => Ok(()),
        Channel::Virtual(_) => match push_at(alloc, lists, Key::of(id), number) {
            Ok(()) => Ok(()),
            Err(Memory) => {
                drop_at(lists, whole);
                Err(Memory)
            }
        },
    }
}

// Takes the last numbers off the lists of a virtual channel and of its master channel.
pub(crate) fn drop_channels(lists: &mut BTreeMap<Key, Shelf<u64>>, id: &Gvcid)
    ensures { (k : Key) → list_of lists.new k
        ≡ (if is_of_channel (id_of_key k) (id_of id.now)
        then take (length (list_of lists.old k) - 1) (list_of lists.old k)
        else list_of lists.old k) }
{
    let whole = Key {
        channel: None,
        ..Key::of(id)
    };
    drop_at(lists, whole);
    if let Channel::Virtual(_) = id.channel {
        drop_at(lists, Key::of(id));
    }
}
