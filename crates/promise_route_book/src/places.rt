//! A place by a hint.
ghost use Rattle.std.specs.Prelude.{◌≡◌};
ghost use Rattle.route_lines.specs.Calls.{after_place_near, placed_near};
ghost use Rattle.route_lines.specs.Searches.{CountsWithin, most_for, most_near};
ghost use Rattle.route_book.specs.Book.{Changes};

use route_book::{BookBacking, Counts, PtrCore, Refusal, RouteBook, Word};

/// Puts a place in by a hint: no more than 7 comparisons with keys are made if the hint is near.
pub fn place_near_counted<P: PtrCore, B: BookBacking<P>>(
    book: &mut RouteBook<P, B>,
    key: u64,
    word: Word,
    near: u64,
    counts: &mut Counts,
) -> Result<u64, Refusal>
    ensures changes { Changes (placed_near book.old.state near)
        (after_place_near book.old.state key word near) result book.old book.new }
    ensures others { (book.new.stops ≡ book.old.stops) × (book.new.marks ≡ book.old.marks) }
    ensures counts { CountsWithin counts.old counts.new
        (most_near book.old.state key near) (most_for book.old.state near) 0 }
{
    book.place_near_counted(key, word, near, counts)
}
