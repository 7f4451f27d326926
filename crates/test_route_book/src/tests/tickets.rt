//! Books of the library's pointers, over a heap stack and over an array.
ghost use Rattle.std.specs.Prelude.{◌≡◌, ◌≤◌, []};

use std::process::Abort;
use std::test::Fail;
use ticket_book::{Entry, Kind, TicketBook, TicketSlot};
use triple_arena_ord::OrdSlots;
use triple_arena_ptr::{P0, P1, Probes, PtrCore};
use triple_arena_stack::{NonZeroInxArray, NonZeroInxVec};

// Three tickets go into an empty book. Each is found, and one that is not there is not.
fn three<P: PtrCore, S: OrdSlots<P, Entry<P>>>(
    rt: &impl Abort,
    mut book: TicketBook<P, S>,
) -> Result<(), Fail>
    requires empty { book.entries ≡ [] }
    requires room { 3 ≤ book.capacity }
{
    book.add(2, Kind::Place, P::invalid());
    book.add(3, Kind::Stop, P::invalid());
    book.add(18446744073709551615, Kind::Mark, P::invalid());
    let mut probes = Probes::new();
    for (ticket, kind) in [
        (2, Kind::Place),
        (3, Kind::Stop),
        (18446744073709551615, Kind::Mark),
    ] {
        let entry = book.find_counted(ticket, &mut probes).ok_or("an entry")?;
        assert_eq!(rt; (entry.ticket(), entry.kind()), (ticket, kind));
    }
    // The middle one is the root: one comparison, and two for each of the others.
    assert_eq!(rt; probes.count(), 5);
    assert!(rt; book.find_counted(4, &mut probes).is_none());
    Ok(())
}

#[test]
fn tickets_are_found_on_the_heap(rt: HostRuntime) -> Result<(), Fail> {
    let book = TicketBook::<P0, NonZeroInxVec<TicketSlot<P0>, _>>::with_room(rt.alloc(), 3)?;
    three(&rt, book)
}

#[test]
fn tickets_are_found_in_an_array(rt: HostRuntime) -> Result<(), Fail> {
    let book = TicketBook::<P1, NonZeroInxArray<TicketSlot<P1>, 3>>::with_room((), 3)?;
    three(&rt, book)
}
