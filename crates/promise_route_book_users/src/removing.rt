//! A place is removed to which stops have references.
ghost use Rattle.std.specs.Prelude.{◌≡◌, Ok, Err, IfOk, false, length};
ghost use Rattle.std.specs.List.{range_with_len};
ghost use Rattle.ticket_book.specs.declared.entry.Kind.TheVariants.{Place as OfPlace};
ghost use Rattle.triple_arena_ord.specs.Ordered.{order_in};
ghost use Rattle.route_lines.specs.Calls.{after_removed, removed};
ghost use Rattle.route_lines.specs.State.{Place, holder, place};
ghost use Rattle.route_lines.specs.declared.refusal.Refusal.TheVariants.{Gone};
ghost use Rattle.route_book.specs.Removals.{removal_wraps};
ghost use Rattle.promise_route_book_users.specs.References.{AreDead, AreGone};

use route_book::laws::{removed_places_leave_no_reference, removed_tickets_are_gone};
use route_book::{BookBacking, Counts, PtrCore, Refusal, RouteBook};

/// Removes a place. Its ticket is gone, and no reference to it finds anything. If the counter of
/// the places goes on, each stays where it is, and none is looked at.
pub fn close<P: PtrCore, B: BookBacking<P>>(
    book: &mut RouteBook<P, B>,
    ticket: u64,
    counts: &mut Counts,
) -> Result<(), Refusal>
    ensures result { result ≡ removed book.old.state ticket }
    ensures state { book.new.state ≡ after_removed book.old.state ticket }
    ensures gone { IfOk result (λ _. holder book.new.state ticket ≡ Err Gone) }
    ensures dead { (p : Place) → holder book.old.state ticket ≡ Ok (place p)
        → AreDead ticket book.old book.new }
    ensures stay { (p : Place) → holder book.old.state ticket ≡ Ok (place p)
        → removal_wraps P.Gen.last book.old OfPlace ≡ false
        → (book.new.stops ≡ book.old.stops) × (counts.new.looks ≡ counts.old.looks) }
{
    removed_places_leave_no_reference();
    removed_tickets_are_gone();
    let _ = book.stops_arena();
    let closed = book.remove_counted(ticket, counts);
    let _ = book.stops_arena();
    closed
}

/// Removes a place, and then packs: each reference to the place is `Gone`. A refused removal packs
/// nothing.
pub fn close_and_pack<P: PtrCore, B: BookBacking<P>>(
    book: &mut RouteBook<P, B>,
    ticket: u64,
) -> Result<(), Refusal>
    ensures result { result ≡ removed book.old.state ticket }
    ensures state { book.new.state ≡ after_removed book.old.state ticket }
    ensures gone { (p : Place) → holder book.old.state ticket ≡ Ok (place p)
        → AreGone ticket book.old book.new }
    ensures order { IfOk result (λ _. order_in book.new.places
        ≡ range_with_len 1 (length book.new.state.places)) }
{
    removed_places_leave_no_reference();
    let mut counts = Counts::new();
    let _ = book.stops_arena();
    book.remove_counted(ticket, &mut counts)?;
    book.pack_counted(&mut counts);
    let _ = book.stops_arena();
    Ok(())
}
