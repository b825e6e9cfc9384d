// What a book holds: each of its fields has one of these types, and only the shelf of the entries
// and the index hold anything of an entry.
use super::book_desk::book_of;
use archive_index::{Index, Shelf};
use cltu_queue::Queue;
use record_form::Entry;
use station_book::{BookParts, ServiceKind};
use std::alloc::Global;
use std::test::Fail;

// Of a book's origin: its instances' services, the queue's room and longest CLTU, the workers and
// the number of opening entries.
fn origin(services: &Vec<ServiceKind>, numbers: [u32; 3], opening: usize) -> (usize, usize) {
    let [room, longest, workers] = numbers;
    (
        services.len(),
        (room as usize + longest as usize + workers as usize).wrapping_add(opening),
    )
}

fn entries(entries: &Shelf<Entry>, index: &Index) -> u64 {
    let _index = index;
    entries.length()
}

// Of what is no entry: the queue, the instances' doors, the workers that are gone, the moment.
fn others(
    queue: &Queue,
    doors: &Vec<Option<u32>>,
    gone: &[bool; 32],
    moment: u128,
) -> (usize, u128) {
    let _free = queue.view().free;
    (doors.len() + gone.len(), moment)
}

#[test]
fn a_book_holds_no_entry_beside_its_shelf_and_index(rt: HostRuntime) -> Result<(), Fail> {
    let book = book_of(rt.alloc(), 1)?;
    let BookParts {
        alloc,
        services,
        room,
        longest,
        workers,
        opening,
        entries: shelf,
        index,
        queue,
        doors,
        gone,
        moment,
    } = book.parts();
    let _alloc: Global = alloc;
    assert_eq!(rt; origin(services, [room, longest, workers], opening), (3, 6));
    assert_eq!(rt; entries(shelf, index), 0);
    assert_eq!(rt; others(queue, doors, gone, moment), (35, 0));
    Ok(())
}
