//! A dispatcher, who puts in a place and a route of two stops at it.
ghost use Rattle.std.specs.Prelude.{◌≡◌, ◌≢◌, ◌⊎◌, ℕ, ◌∷◌, [], Some, Ok, IfErr, IfOk, true};
ghost use Rattle.route_lines.specs.Calls.{walked};
ghost use Rattle.route_lines.specs.Routes.{next_stop};
ghost use Rattle.route_lines.specs.State.{is_full_of_places, is_full_of_stops, place_of};
ghost use Rattle.route_lines.specs.declared.refusal.Refusal.TheVariants.{Full};

use route_book::laws::{
    extensions_add_one_stop, extensions_lead_through, new_tickets_come_next, starts_lead_nowhere,
};
use route_book::{BookBacking, PtrCore, Refusal, RouteBook, Word};

/// The tickets of a place, and of the two stops of a route at it.
#[derive(Clone, Copy, Debug, PartialEq, Eq)]
pub struct Dispatched {
    pub place: u64,
    pub first: u64,
    pub second: u64,
}

/// A place with this key and word, and a new route of two stops there.
///
/// `Full` if the store has no room for one of the three, and for no other reason. What was put in
/// before it stays.
pub fn dispatch<P: PtrCore, B: BookBacking<P>>(
    book: &mut RouteBook<P, B>,
    key: u64,
    word: Word,
) -> Result<Dispatched, Refusal>
    ensures place { IfOk result (λ d. place_of book.new.state.places d.place
        ≡ Some (record { ticket = d.place; key = key; word = word })) }
    ensures walk { IfOk result (λ d. walked book.new.state d.first
        ≡ Ok (record { ticket = d.first; place = Some d.place }
        ∷ record { ticket = d.second; place = Some d.place } ∷ [])) }
    ensures others { IfOk result (λ d. (v : ℕ) → v ≢ d.first → v ≢ d.second
        → next_stop book.new.state.routes v ≡ next_stop book.old.state.routes v) }
    ensures refused { IfErr result (λ e. (e ≡ Full)
        × ((is_full_of_places book.new.state ≡ true) ⊎ (is_full_of_stops book.new.state ≡ true))) }
{
    new_tickets_come_next();
    starts_lead_nowhere();
    extensions_lead_through();
    extensions_add_one_stop();
    // The state is as it must be.
    let _ = book.places_arena();
    let place = book.place(key, word)?;
    let _ = book.places_arena();
    let first = book.start(place)?;
    let _ = book.places_arena();
    let second = book.extend(first, place)?;
    Ok(Dispatched {
        place,
        first,
        second,
    })
}
