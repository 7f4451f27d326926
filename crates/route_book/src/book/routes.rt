//! Routes: a stop behind another, and stops that are joined, parted and exchanged.
ghost use Rattle.std.specs.Prelude.{◌≡◌};
ghost use Rattle.route_lines.specs.Calls.{after_cut, after_extend, after_join, after_swap};
ghost use Rattle.route_lines.specs.Calls.{extended, joined, parted, stop_holder, swapped};
ghost use Rattle.route_lines.specs.Searches.{CountsWithin, most_behind, most_for};
ghost use Rattle.route_book.specs.Book.{Changes};

use crate::backing::BookBacking;
use crate::book::RouteBook;
use crate::items::{Ref, Stop};
use proof_marks::{recall, unreached};
use route_lines::laws::{
    changes_keep_states_sound, cuts_part_one_stop, extensions_add_one_stop,
    extensions_lead_through, joins_lead_on, stops_follow_their_previous_ones,
    stops_stay_as_routes_change, swaps_exchange_next_stops,
};
use route_lines::{Change, Counts, Refusal};
use ticket_book::Kind;
use triple_arena::ArenaTrait;
use triple_arena_chain::{ChainArenaTrait, LinkInsertKind};
use triple_arena_ptr::PtrCore;

impl<P: PtrCore, B: BookBacking<P>> RouteBook<P, B> {
    /// A new stop at a place, directly behind another stop on its route.
    ///
    /// The stop's ticket is refused before the place's: `Unknown` if it was never given, `Gone` if
    /// its item has ended, `Kind` if it is of another kind. Then `Full` if as many stops live as
    /// the room holds, or every ticket was given. A refused call changes nothing.
    pub fn extend(&mut self, stop: u64, place: u64) -> Result<u64, Refusal>
        ensures changes { Changes (extended self.old.state stop place)
            (after_extend self.old.state stop place) result self.old self.new }
        ensures others { (self.new.places ≡ self.old.places) × (self.new.marks ≡ self.old.marks) }
    {
        self.extend_counted(stop, place, &mut Counts::new())
    }

    /// A new stop at a place, directly behind another stop on its route. The comparisons of the
    /// searches for the stop and the place are counted in `counts.first` and `counts.second`.
    ///
    /// The stop's ticket is refused before the place's: `Unknown` if it was never given, `Gone` if
    /// its item has ended, `Kind` if it is of another kind. Then `Full` if as many stops live as
    /// the room holds, or every ticket was given. A refused call changes nothing.
    pub fn extend_counted(
        &mut self,
        stop: u64,
        place: u64,
        counts: &mut Counts,
    ) -> Result<u64, Refusal>
        ensures changes { Changes (extended self.old.state stop place)
            (after_extend self.old.state stop place) result self.old self.new }
        ensures others { (self.new.places ≡ self.old.places) × (self.new.marks ≡ self.old.marks) }
        ensures counts { CountsWithin counts.old counts.new
            0 (most_for self.old.state stop)
            (most_behind (stop_holder self.old.state stop) (most_for self.old.state place)) }
    {
        changes_keep_states_sound();
        extensions_lead_through();
        extensions_add_one_stop();
        let behind = self.find_stop(stop, &mut counts.first)?;
        let at = self.find_place(place, &mut counts.second)?;
        if self.is_full_of_stops() {
            return Err(Refusal::Full);
        }
        let ticket = self.last + 1;
        let new = Stop::new(ticket, Ref::To(at));
        match self
            .stops
            .insert_within_capacity(LinkInsertKind::NextTo(behind), new)
        {
            Ok(to) => {
                self.last = ticket;
                self.tickets.add(ticket, Kind::Stop, to);
                self.held = self.held.changed(&Change::Extend(stop, place));
                Ok(ticket)
            }
            Err(_) => unreached!(),
        }
    }

    /// Lets the second stop follow the first: the route that ends with the first goes on with the
    /// one that begins with the second. If they are one route, it becomes a ring.
    ///
    /// Each ticket is refused in turn: `Unknown` if it was never given, `Gone` if its item has
    /// ended, `Kind` if it is no stop. Then `No` if a stop follows the first, or the second follows
    /// one. A refused call changes nothing.
    pub fn join(&mut self, stop: u64, next: u64) -> Result<(), Refusal>
        ensures changes { Changes (joined self.old.state stop next)
            (after_join self.old.state stop next) result self.old self.new }
        ensures others { (self.new.places ≡ self.old.places) × (self.new.marks ≡ self.old.marks) }
    {
        self.join_counted(stop, next, &mut Counts::new())
    }

    /// Lets the second stop follow the first: the route that ends with the first goes on with the
    /// one that begins with the second. If they are one route, it becomes a ring. The comparisons
    /// of the searches for the two stops are counted in `counts.first` and `counts.second`.
    ///
    /// Each ticket is refused in turn: `Unknown` if it was never given, `Gone` if its item has
    /// ended, `Kind` if it is no stop. Then `No` if a stop follows the first, or the second follows
    /// one. A refused call changes nothing.
    pub fn join_counted(&mut self, stop: u64, next: u64, counts: &mut Counts) -> Result<(), Refusal>
        ensures changes { Changes (joined self.old.state stop next)
            (after_join self.old.state stop next) result self.old self.new }
        ensures others { (self.new.places ≡ self.old.places) × (self.new.marks ≡ self.old.marks) }
        ensures counts { CountsWithin counts.old counts.new
            0 (most_for self.old.state stop)
            (most_behind (stop_holder self.old.state stop) (most_for self.old.state next)) }
    {
        changes_keep_states_sound();
        stops_follow_their_previous_ones();
        joins_lead_on();
        stops_stay_as_routes_change();
        // The links are as they must be.
        recall!(self.stops.len());
        let from = self.find_stop(stop, &mut counts.first)?;
        let to = self.find_stop(next, &mut counts.second)?;
        match self.stops.connect(from, to) {
            Some(()) => {
                self.held = self.held.changed(&Change::Join(stop, next));
                Ok(())
            }
            None => Err(Refusal::No),
        }
    }

    /// Parts a stop from the one that follows it: a route is split behind it, and a ring becomes a
    /// route that ends with it.
    ///
    /// `Unknown` if the ticket was never given, `Gone` if its item has ended, `Kind` if it is no
    /// stop, and then `No` if no stop follows it. A refused call changes nothing.
    pub fn cut(&mut self, stop: u64) -> Result<(), Refusal>
        ensures changes { Changes (parted self.old.state stop)
            (after_cut self.old.state stop) result self.old self.new }
        ensures others { (self.new.places ≡ self.old.places) × (self.new.marks ≡ self.old.marks) }
    {
        self.cut_counted(stop, &mut Counts::new())
    }

    /// Parts a stop from the one that follows it: a route is split behind it, and a ring becomes a
    /// route that ends with it. The comparisons of the search for the stop are counted in
    /// `counts.first`.
    ///
    /// `Unknown` if the ticket was never given, `Gone` if its item has ended, `Kind` if it is no
    /// stop, and then `No` if no stop follows it. A refused call changes nothing.
    pub fn cut_counted(&mut self, stop: u64, counts: &mut Counts) -> Result<(), Refusal>
        ensures changes { Changes (parted self.old.state stop)
            (after_cut self.old.state stop) result self.old self.new }
        ensures others { (self.new.places ≡ self.old.places) × (self.new.marks ≡ self.old.marks) }
        ensures counts { CountsWithin counts.old counts.new 0 (most_for self.old.state stop) 0 }
    {
        changes_keep_states_sound();
        cuts_part_one_stop();
        stops_stay_as_routes_change();
        // The links are as they must be.
        recall!(self.stops.len());
        let from = self.find_stop(stop, &mut counts.first)?;
        match self.stops.break_next(from) {
            Some(()) => {
                self.held = self.held.changed(&Change::Cut(stop));
                Ok(())
            }
            None => Err(Refusal::No),
        }
    }

    /// Exchanges the stops that follow two stops. Two stops of one ring make two rings of it, and
    /// two of two rings one. For a stop and itself nothing changes.
    ///
    /// Each ticket is refused in turn: `Unknown` if it was never given, `Gone` if its item has
    /// ended, `Kind` if it is no stop. Then `No` if no stop follows one of them. A refused call
    /// changes nothing.
    pub fn swap(&mut self, stop: u64, other: u64) -> Result<(), Refusal>
        ensures changes { Changes (swapped self.old.state stop other)
            (after_swap self.old.state stop other) result self.old self.new }
        ensures others { (self.new.places ≡ self.old.places) × (self.new.marks ≡ self.old.marks) }
    {
        self.swap_counted(stop, other, &mut Counts::new())
    }

    /// Exchanges the stops that follow two stops. Two stops of one ring make two rings of it, and
    /// two of two rings one. For a stop and itself nothing changes. The comparisons of the searches
    /// for the two stops are counted in `counts.first` and `counts.second`.
    ///
    /// Each ticket is refused in turn: `Unknown` if it was never given, `Gone` if its item has
    /// ended, `Kind` if it is no stop. Then `No` if no stop follows one of them. A refused call
    /// changes nothing.
    pub fn swap_counted(
        &mut self,
        stop: u64,
        other: u64,
        counts: &mut Counts,
    ) -> Result<(), Refusal>
        ensures changes { Changes (swapped self.old.state stop other)
            (after_swap self.old.state stop other) result self.old self.new }
        ensures others { (self.new.places ≡ self.old.places) × (self.new.marks ≡ self.old.marks) }
        ensures counts { CountsWithin counts.old counts.new
            0 (most_for self.old.state stop)
            (most_behind (stop_holder self.old.state stop) (most_for self.old.state other)) }
    {
        changes_keep_states_sound();
        swaps_exchange_next_stops();
        stops_stay_as_routes_change();
        // The links are as they must be.
        recall!(self.stops.len());
        let from = self.find_stop(stop, &mut counts.first)?;
        let by = self.find_stop(other, &mut counts.second)?;
        match self.stops.exchange_next(from, by) {
            Some(()) => {
                self.held = self.held.changed(&Change::Swap(stop, other));
                Ok(())
            }
            None => Err(Refusal::No),
        }
    }
}
