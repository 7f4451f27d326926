//! Packs: tickets find what they found.
ghost use Rattle.std.specs.Prelude.{◌≡◌};
ghost use Rattle.route_lines.specs.Calls.{shown};
ghost use Rattle.route_lines.specs.Searches.{ComparesWithin};
ghost use Rattle.route_book.specs.Removals.{IsPacked};

use route_book::{BookBacking, Counts, PtrCore, Refusal, RouteBook, Shown};

/// Packs the store: the state stays, and each stored reference is looked at once.
pub fn pack_counted<P: PtrCore, B: BookBacking<P>>(book: &mut RouteBook<P, B>, counts: &mut Counts)
    ensures state { book.new.state ≡ book.old.state }
    ensures packed { IsPacked P.Gen.last counts.old.looks counts.new.looks book.old book.new }
    ensures counts { ComparesWithin counts.old counts.new 0 0 0 }
{
    book.pack_counted(counts);
}

/// A pack, and then what a ticket names: a stop its place, by that one's ticket, and a mark its
/// place and its stop, as they were before.
pub fn pack_and_show<P: PtrCore, B: BookBacking<P>>(
    book: &mut RouteBook<P, B>,
    ticket: u64,
) -> Result<Shown, Refusal>
    ensures result { result ≡ shown book.old.state ticket }
    ensures state { book.new.state ≡ book.old.state }
{
    book.pack();
    book.show(ticket)
}
