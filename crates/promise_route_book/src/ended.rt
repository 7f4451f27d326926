//! Removals: a ticket that ended is gone, and never another's.
ghost use Rattle.std.specs.Prelude.{◌≡◌, Ok, Err, IfOk};
ghost use Rattle.route_lines.specs.Calls.{after_removed, removed};
ghost use Rattle.route_lines.specs.State.{holder};
ghost use Rattle.route_lines.specs.declared.refusal.Refusal.TheVariants.{Gone};

use route_book::laws::removed_tickets_are_gone;
use route_book::{BookBacking, Counts, PtrCore, Refusal, RouteBook, Shown, Watched};
use std::io::Write;

/// Ends an item: its ticket is gone.
pub fn remove<P: PtrCore, B: BookBacking<P>>(
    book: &mut RouteBook<P, B>,
    ticket: u64,
) -> Result<(), Refusal>
    ensures result { result ≡ removed book.old.state ticket }
    ensures state { book.new.state ≡ after_removed book.old.state ticket }
    ensures gone { IfOk result (λ _. holder book.new.state ticket ≡ Err Gone) }
{
    removed_tickets_are_gone();
    // The state is as it must be.
    let _ = book.places_arena();
    let ended = book.remove(ticket);
    ended
}

/// Ends an item, answers a line, whatever it is, and asks for the ticket: it is gone then too.
pub fn remove_and_show<P: PtrCore, B: BookBacking<P>, W: Write>(
    book: &mut RouteBook<P, B>,
    ticket: u64,
    line: &[u8],
    writer: &mut Watched<W>,
) -> Result<Shown, Refusal>
    ensures gone { removed book.old.state ticket ≡ Ok tt → result ≡ Err Gone }
{
    removed_tickets_are_gone();
    // The state is as it must be.
    let _ = book.places_arena();
    let _ = book.remove(ticket);
    let _ = book.places_arena();
    let _ = book.answer(line, writer, &mut Counts::new());
    book.show(ticket)
}
