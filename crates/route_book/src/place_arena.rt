//! The places in their arena: one more where its key belongs, another word for one, and the places
//! beside one.
ghost use Rattle.std.specs.Prelude.{◌≡◌, ◌+◌, ◌<◌, ◌≤◌, ℕ, Some, None, IsSome, find, nat_le};
ghost use Rattle.std.specs.Prelude.{reverse};
ghost use Rattle.std.specs.Option.{option_map};
ghost use Rattle.rank_tree.specs.Comparisons.{most_comparisons};
ghost use Rattle.triple_arena.specs.Content.{arena_capacity};
ghost use Rattle.triple_arena.specs.Entries.{value_if};
ghost use Rattle.triple_arena_ord.specs.Inserted.{IsAdded, IsReplaced};
ghost use Rattle.triple_arena_ord.specs.Ordered.{entry_in, size_in};
ghost use Rattle.route_lines.specs.Calls.{put as put_in};
ghost use Rattle.route_lines.specs.Cuts.{first_item, last_item};
ghost use Rattle.route_lines.specs.Sound.{PlacesRise};
ghost use Rattle.route_lines.specs.State.{Place as View, with_key};
ghost use Rattle.route_book.specs.Book.{IfBetween, in_order};
ghost use Rattle.route_book.specs.Keys.{IsFoundFor, key_of, noted_by, noted_past, way_past, way_to};

use crate::items::Place;
use proof_marks::{recall, unreached};
use route_lines::Word;
use std::cmp::Ordering;
use triple_arena::ArenaTrait;
use triple_arena_ord::laws::{entries_stand_in_the_list, writes_keep_the_list};
use triple_arena_ord::{OrdSlots, SimpleOrdArena};
use triple_arena_ptr::{Probes, PtrCore};

// A place more, whose ticket is above all others, beside the one that a search for its key found.
// No key is compared.
pub(crate) fn put_place<P: PtrCore, S: OrdSlots<P, Place>>(
    arena: &mut SimpleOrdArena<P, Place, S>,
    found: Option<(P, Ordering)>,
    place: Place,
) -> P
    requires rise { PlacesRise (in_order arena.old) }
    requires newest { (i g : ℕ) (p : View) → entry_in arena.old i ≡ Some (g, p)
        → p.ticket < place.ticket }
    requires found { IsFoundFor P.index P.generation (key_of place) arena.old found }
    requires room { size_in arena.old < arena_capacity arena.old.chains }
    ensures order { in_order arena.new ≡ put_in place (in_order arena.old) }
    ensures added { IsAdded (P.index result) (P.generation result) place arena.old arena.new }
    ensures counter { arena.new.chains.counter ≡ arena.old.chains.counter }
    ensures same_room { arena.new.chains.room ≡ arena.old.chains.room }
{
    // The list is as it must be.
    recall!(arena.len());
    match found {
        Some(end) => { arena.insert_inx_manual_within_capacity(Some((end.0.inx(), end.1)), place) }
        None => arena.insert_inx_manual_within_capacity(None, place),
    }
}

// Another word for a place, and the one that it had.
pub(crate) fn reword<P: PtrCore, S: OrdSlots<P, Place>>(
    arena: &mut SimpleOrdArena<P, Place, S>,
    at: P,
    word: Word,
) -> Word
    requires live { IsSome (value_if (P.generation at) (entry_in arena.old (P.index at))) }
    ensures was { (p : View) → value_if (P.generation at) (entry_in arena.old (P.index at)) ≡ Some p
        → result ≡ p.word }
    ensures replaced { (p : View)
        → value_if (P.generation at) (entry_in arena.old (P.index at)) ≡ Some p
        → IsReplaced (P.index at) (P.generation at)
        (record p { word = word }) p arena.old arena.new }
{
    writes_keep_the_list::<P, Place>();
    // The list is as it must be.
    recall!(arena.len());
    match arena.get_mut(at) {
        Some(place) => place.replace_word(word),
        None => unreached!(),
    }
}

// The ticket of the place before another one along the list.
pub(crate) fn ticket_before<P: PtrCore, S: OrdSlots<P, Place>>(
    places: &SimpleOrdArena<P, Place, S>,
    at: P,
) -> Option<u64>
    requires live { IsSome (value_if (P.generation at) (entry_in places.now (P.index at))) }
    requires rise { PlacesRise (in_order places.now) }
    ensures { IfBetween (P.index at) (P.generation at) places.now (λ front back.
        result ≡ option_map (λ (q : View). q.ticket) (last_item front)) }
{
    entries_stand_in_the_list::<P, Place>();
    let Some(entry) = places.get_inx_link_no_gen(at.inx()) else {
        unreached!()
    };
    match entry.1.prev() {
        Some(i) => Some(places.get_inx_unwrap(i).ticket()),
        None => None,
    }
}

// The same of the place after it.
pub(crate) fn ticket_after<P: PtrCore, S: OrdSlots<P, Place>>(
    places: &SimpleOrdArena<P, Place, S>,
    at: P,
) -> Option<u64>
    requires live { IsSome (value_if (P.generation at) (entry_in places.now (P.index at))) }
    requires rise { PlacesRise (in_order places.now) }
    ensures { IfBetween (P.index at) (P.generation at) places.now (λ front back.
        result ≡ option_map (λ (q : View). q.ticket) (first_item back)) }
{
    entries_stand_in_the_list::<P, Place>();
    let Some(entry) = places.get_inx_link_no_gen(at.inx()) else {
        unreached!()
    };
    match entry.1.next() {
        Some(i) => Some(places.get_inx_unwrap(i).ticket()),
        None => None,
    }
}

// The ticket of the last place whose key is not above this one. Each question leads past a place
// whose key is not above it, and the last one of these is noted.
pub(crate) fn floor_ticket<P: PtrCore, S: OrdSlots<P, Place>>(
    places: &SimpleOrdArena<P, Place, S>,
    key: u64,
    probes: &mut Probes,
) -> Option<u64>
    requires rise { PlacesRise (in_order places.now) }
    ensures ticket { result ≡ option_map (λ (p : View). p.ticket)
        (find (λ (p : View). nat_le p.key key) (reverse (in_order places.now))) }
    ensures bound { probes.new ≤ probes.old + most_comparisons (size_in places.now) }
    ensures rises { probes.old ≤ probes.new }
{
    let mut noted = None;
    places.find_similar_by_counted(
        &mut |_p: P, place: &Place| -> Ordering
            ensures way { result ≡ way_past key place.now }
            ensures noted { noted.exit ≡ noted_past key noted.entry place.now }
        {
            if place.key_number() > key {
                return Ordering::Less;
            }
            noted = Some(place.ticket());
            Ordering::Greater
        },
        probes,
    );
    noted
}

// The smallest ticket of the places that have this key. Each question leads to the places before
// one whose key is not below it, and the last one with an equal key is noted: no place is compared
// again.
pub(crate) fn first_ticket<P: PtrCore, S: OrdSlots<P, Place>>(
    places: &SimpleOrdArena<P, Place, S>,
    key: u64,
    probes: &mut Probes,
) -> Option<u64>
    requires rise { PlacesRise (in_order places.now) }
    ensures ticket { result ≡ option_map (λ (p : View). p.ticket)
        (with_key key (in_order places.now)) }
    ensures bound { probes.new ≤ probes.old + most_comparisons (size_in places.now) }
    ensures rises { probes.old ≤ probes.new }
{
    let mut noted = None;
    places.find_similar_by_counted(
        &mut |_p: P, place: &Place| -> Ordering
            ensures way { result ≡ way_to key place.now }
            ensures noted { noted.exit ≡ noted_by key noted.entry place.now }
        {
            if place.key_number() < key {
                return Ordering::Greater;
            }
            if place.key_number() == key {
                noted = Some(place.ticket());
            }
            Ordering::Less
        },
        probes,
    );
    noted
}
