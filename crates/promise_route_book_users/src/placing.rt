//! Places that come in the order of their keys.
ghost use Rattle.std.specs.Prelude.{◌≡◌, ◌+◌, ◌≤◌, IfErr};
ghost use Rattle.route_lines.specs.Calls.{after_place_near, placed_near};
ghost use Rattle.route_book.specs.Book.{KeepsItems};
ghost use Rattle.promise_route_book_users.specs.Placing.{IsLastUpTo};

use route_book::{BookBacking, Counts, PtrCore, Refusal, RouteBook, Word};

/// Puts a place in by a hint. If the hint is the last place, and its key is not above the new one,
/// at most 7 comparisons with keys are made, however many places there are. Each item keeps its
/// pointer; a refusal changes nothing.
pub fn place_last<P: PtrCore, B: BookBacking<P>>(
    book: &mut RouteBook<P, B>,
    key: u64,
    word: Word,
    last: u64,
    counts: &mut Counts,
) -> Result<u64, Refusal>
    ensures result { result ≡ placed_near book.old.state last }
    ensures state { book.new.state ≡ after_place_near book.old.state key word last }
    ensures kept { KeepsItems book.old book.new }
    ensures refused { IfErr result (λ _. book.new ≡ book.old) }
    ensures compares { IsLastUpTo book.old.state last key → counts.new.key ≤ counts.old.key + 7 }
{
    let _ = book.places_arena();
    book.place_near_counted(key, word, last, counts)
}
