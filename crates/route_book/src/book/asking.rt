//! Calls that change nothing.
ghost use Rattle.std.specs.Prelude.{◌≡◌, Some, None};
ghost use Rattle.std.specs.Option.{option_map};
ghost use Rattle.rank_tree.specs.Comparisons.{most_comparisons};
ghost use Rattle.triple_arena_chain.specs.Links.{values_in};
ghost use Rattle.triple_arena_ord.specs.Ordered.{entry_in};
ghost use Rattle.route_lines.specs.Calls.{shown, found, floor_of, place_after, place_before};
ghost use Rattle.route_lines.specs.Searches.{CountsWithin, most_for, place_count};
ghost use Rattle.route_lines.specs.State.{Place as PlaceView};
ghost use Rattle.route_book.specs.Holds.{found_by};
ghost use Rattle.route_book.specs.Item.{StopView, reference_of};

use crate::backing::BookBacking;
use crate::book::RouteBook;
use crate::items::{Place, Ref, Stop};
use crate::place_arena::{first_ticket, floor_ticket, ticket_after, ticket_before};
use crate::places::Places;
use proof_marks::{recall, unreached};
use route_lines::{Counts, Refusal, Shown};
use ticket_book::Kind;
use triple_arena::ArenaTrait;
use triple_arena_chain::{ChainArena, ChainSlots};
use triple_arena_ord::laws::entries_stand_in_the_list;
use triple_arena_ord::{OrdSlots, SimpleOrdArena};
use triple_arena_ptr::PtrCore;

impl<P: PtrCore, B: BookBacking<P>> RouteBook<P, B> {
    /// What stands under a ticket.
    ///
    /// `Unknown` if the ticket was never given, `Gone` if its item has ended.
    pub fn show(&self, ticket: u64) -> Result<Shown, Refusal>
        ensures { result ≡ shown self.now.state ticket }
    {
        self.show_counted(ticket, &mut Counts::new())
    }

    /// What stands under a ticket. The comparisons of the search for it are counted in
    /// `counts.first`.
    ///
    /// `Unknown` if the ticket was never given, `Gone` if its item has ended.
    pub fn show_counted(&self, ticket: u64, counts: &mut Counts) -> Result<Shown, Refusal>
        ensures result { result ≡ shown self.now.state ticket }
        ensures counts { CountsWithin counts.old counts.new 0 (most_for self.now.state ticket) 0 }
    {
        let found = self.find_item(ticket, &mut counts.first)?;
        match found.0 {
            Kind::Place => match self.places.get(found.1) {
                Some(place) => Ok(Shown::Place {
                    key: place.key_number(),
                    word: place.word().copied(),
                }),
                None => unreached!(),
            },
            Kind::Stop => match self.stops.get(found.1) {
                Some(stop) => Ok(Shown::Stop {
                    place: place_ticket(&self.places, stop.place()),
                }),
                None => unreached!(),
            },
            Kind::Mark => match self.marks.get(found.1) {
                Some(mark) => Ok(Shown::Mark {
                    place: place_ticket(&self.places, mark.place()),
                    stop: stop_ticket(&self.stops, mark.stop()),
                }),
                None => unreached!(),
            },
        }
    }

    /// The smallest ticket of the places with this key, or `None` if no place has it.
    pub fn find(&self, key: u64) -> Option<u64>
        ensures { result ≡ found self.now.state key }
    {
        self.find_counted(key, &mut Counts::new())
    }

    /// The smallest ticket of the places with this key, or `None` if no place has it. The
    /// comparisons of the search are counted in `counts.key`.
    pub fn find_counted(&self, key: u64, counts: &mut Counts) -> Option<u64>
        ensures result { result ≡ found self.now.state key }
        ensures counts { CountsWithin counts.old counts.new
            (most_comparisons (place_count self.now.state)) 0 0 }
    {
        first_ticket(&self.places, key, &mut counts.key)
    }

    /// The ticket of the last place whose key is not above this one, or `None` if there is none.
    pub fn floor(&self, key: u64) -> Option<u64>
        ensures { result ≡ floor_of self.now.state key }
    {
        self.floor_counted(key, &mut Counts::new())
    }

    /// The ticket of the last place whose key is not above this one, or `None` if there is none.
    /// The comparisons of the search are counted in `counts.key`.
    pub fn floor_counted(&self, key: u64, counts: &mut Counts) -> Option<u64>
        ensures result { result ≡ floor_of self.now.state key }
        ensures counts { CountsWithin counts.old counts.new
            (most_comparisons (place_count self.now.state)) 0 0 }
    {
        floor_ticket(&self.places, key, &mut counts.key)
    }

    /// The ticket of the place after this one in the order of the keys, if there is one.
    ///
    /// `Unknown` if the ticket was never given, `Gone` if its item has ended, `Kind` if it is no
    /// place.
    pub fn after(&self, ticket: u64) -> Result<Option<u64>, Refusal>
        ensures { result ≡ place_after self.now.state ticket }
    {
        self.after_counted(ticket, &mut Counts::new())
    }

    /// The ticket of the place after this one in the order of the keys, if there is one. The
    /// comparisons of the search for this place are counted in `counts.first`.
    ///
    /// `Unknown` if the ticket was never given, `Gone` if its item has ended, `Kind` if it is no
    /// place.
    pub fn after_counted(&self, ticket: u64, counts: &mut Counts) -> Result<Option<u64>, Refusal>
        ensures result { result ≡ place_after self.now.state ticket }
        ensures counts { CountsWithin counts.old counts.new 0 (most_for self.now.state ticket) 0 }
    {
        entries_stand_in_the_list::<P, Place>();
        // The list is as it must be.
        recall!(self.places.len());
        let at = self.find_place(ticket, &mut counts.first)?;
        Ok(ticket_after(&self.places, at))
    }

    /// The ticket of the place before this one in the order of the keys, if there is one.
    ///
    /// `Unknown` if the ticket was never given, `Gone` if its item has ended, `Kind` if it is no
    /// place.
    pub fn before(&self, ticket: u64) -> Result<Option<u64>, Refusal>
        ensures { result ≡ place_before self.now.state ticket }
    {
        self.before_counted(ticket, &mut Counts::new())
    }

    /// The ticket of the place before this one in the order of the keys, if there is one. The
    /// comparisons of the search for this place are counted in `counts.first`.
    ///
    /// `Unknown` if the ticket was never given, `Gone` if its item has ended, `Kind` if it is no
    /// place.
    pub fn before_counted(&self, ticket: u64, counts: &mut Counts) -> Result<Option<u64>, Refusal>
        ensures result { result ≡ place_before self.now.state ticket }
        ensures counts { CountsWithin counts.old counts.new 0 (most_for self.now.state ticket) 0 }
    {
        entries_stand_in_the_list::<P, Place>();
        // The list is as it must be.
        recall!(self.places.len());
        let at = self.find_place(ticket, &mut counts.first)?;
        Ok(ticket_before(&self.places, at))
    }

    /// The places in the order of their keys, and under one key of their tickets.
    pub fn places(&self) -> Places<'_, P, B::Places>
        ensures { result ≡ self.now.state.places }
    {
        Places {
            entries: self.places.iter_ordered(),
        }
    }
}

// The ticket of the place that a reference finds.
pub(crate) fn place_ticket<P: PtrCore, S: OrdSlots<P, Place>>(
    places: &SimpleOrdArena<P, Place, S>,
    to: Ref<P>,
) -> Option<u64>
    ensures { result ≡ option_map (λ (p : PlaceView). p.ticket) (found_by (entry_in places.now)
        (reference_of P.index P.generation to)) }
{
    match to {
        Ref::To(p) => match places.get(p) {
            Some(place) => Some(place.ticket()),
            None => None,
        },
        Ref::Gone => None,
    }
}

// The ticket of the stop that a reference finds.
fn stop_ticket<P: PtrCore, S: ChainSlots<P, Stop<P>>>(
    stops: &ChainArena<P, Stop<P>, S>,
    to: Ref<P>,
) -> Option<u64>
    ensures { result ≡ option_map (λ (t : StopView). t.ticket) (found_by (values_in stops.now)
        (reference_of P.index P.generation to)) }
{
    match to {
        Ref::To(p) => match stops.get(p) {
            Some(stop) => Some(stop.ticket()),
            None => None,
        },
        Ref::Gone => None,
    }
}
