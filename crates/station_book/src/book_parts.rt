// What a book holds.

use crate::service_kind::ServiceKind;
use archive_index::{Index, Shelf};
use cltu_queue::Queue;
use record_form::Entry;
use std::alloc::Global;

/// The fields of a book, each named. Only `entries` and `index` hold anything of an entry.
pub struct BookParts<'a> {
    pub alloc: Global,
    /// The services of the site's instances, by number.
    pub services: &'a Vec<ServiceKind>,
    /// How many octets of CLTUs may wait, and how many one CLTU may have.
    pub room: u32,
    pub longest: u32,
    /// How many workers there are beside the antenna's.
    pub workers: u32,
    /// How many of the entries are opening ones.
    pub opening: usize,
    pub entries: &'a Shelf<Entry>,
    pub index: &'a Index,
    pub queue: &'a Queue,
    /// For each instance, the door that has it.
    pub doors: &'a Vec<Option<u32>>,
    pub gone: &'a [bool; 32],
    pub moment: u128,
}
