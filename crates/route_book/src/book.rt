//! The store, and what its calls share.
ghost use Rattle.std.specs.Prelude.{◌≡◌, ℕ, ◌+◌, ◌≤◌, Some, Ok, Err, IfOk, IfErr, length};
ghost use Rattle.triple_arena.specs.Content.{entry_at, live_count};
ghost use Rattle.triple_arena_chain.specs.Links.{ends_in, values_in};
ghost use Rattle.route_lines.specs.Calls.{place_holder, stop_holder};
ghost use Rattle.route_lines.specs.Routes.{next_stop};
ghost use Rattle.route_lines.specs.Searches.{most_for};
ghost use Rattle.route_lines.specs.Sound.{IsSound};
ghost use Rattle.route_lines.specs.State.{holder, is_full_of_places, mark_of, stop_list, stop_of};
ghost use Rattle.route_book.specs.Book.{FindsPlace, FindsStop, found_of, in_order};
ghost use Rattle.route_book.specs.Follows.{AreRoutes, LeadAs};
ghost use Rattle.route_book.specs.Holds.{IsItem, state_mark, state_stop};
ghost use Rattle.route_book.specs.Item.{MarkView, StopView};
ghost use Rattle.route_book.specs.Walked.{stop_in};

mod asking;
mod making;
mod marks;
mod moving;
mod packing;
mod placing;
mod removing;
mod routes;
mod stops;
mod walking;

use crate::backing::BookBacking;
use crate::items::{Mark, Place, Stop};
use crate::parts::Mirrors;
use proof_marks::recall;
use route_lines::laws::{routes_lead_along, stops_follow_their_previous_ones};
use route_lines::{Held, Refusal};
use std::marker::Model;
use ticket_book::{Kind, TicketBook};
use triple_arena::{Arena, ArenaTrait};
use triple_arena_chain::ChainArena;
use triple_arena_ord::SimpleOrdArena;
use triple_arena_ptr::{Probes, PtrCore};
pub use walking::Walk;

/// A store of places, routes of stops, and marks, over pointers of the type `P`, in the stacks that
/// `B` names. Its room is taken once, when it is made. No call on a made store takes memory but
/// [`into_room`](RouteBook::into_room), which makes another one.
///
/// Tickets are the numbers from 1 on, given in order, each once.
#[derive(Drop)]
pub struct RouteBook<P: PtrCore, B: BookBacking<P>> {
    place_room: usize,
    stop_room: usize,
    mark_room: usize,
    last: u64,
    places: SimpleOrdArena<P, Place, B::Places>,
    stops: ChainArena<P, Stop<P>, B::Stops>,
    marks: Arena<P, Mark<P>, B::Marks>,
    // The living tickets.
    tickets: TicketBook<P, B::Book>,
    // For each arena, room for a pointer at each index.
    mirrors: Mirrors<P, B::Mirror>,
    held: Held,
}

impl<P: PtrCore, B: BookBacking<P>> Model for RouteBook<P, B> {
    ghost use Rattle.std.specs.Prelude.{◌≡◌, ◌+◌, ◌≤◌, false};
    ghost use Rattle.triple_arena.specs.Content.{arena_capacity};
    ghost use Rattle.triple_arena.specs.DirectContent.{arena_capacity as mirror_capacity};
    ghost use Rattle.route_book.specs.Book.{Book, IsBook};
    ghost use Rattle.route_lines.specs.Sound.{IsSound};
    ghost use Rattle.route_book.specs.Rooms.{counts_short};

    ghost Value = { Book };

    ghost view = { λ b. record
        { state = b.held.state; places = b.places; stops = b.stops; marks = b.marks } };

    ghost invariant = { λ b. record {
      book : IsBook
          (record { places = b.place_room; stops = b.stop_room; marks = b.mark_room }) b.last
          b.held.state b.places b.stops b.marks b.tickets.entries;
      sound : IsSound b.held.state;
      counts : counts_short P.Gen.last ≡ false;
      room : b.place_room + b.stop_room + b.mark_room ≤ b.tickets.capacity;
      place_mirror : arena_capacity b.places.chains ≡ mirror_capacity b.mirrors.places;
      stop_mirror : arena_capacity b.stops ≡ mirror_capacity b.mirrors.stops;
      mark_mirror : arena_capacity b.marks ≡ mirror_capacity b.mirrors.marks;
    } };
}

impl<P: PtrCore, B: BookBacking<P>> RouteBook<P, B> {
    // The kind of the living item that has a ticket, and the pointer to it.
    pub(crate) fn find_item(&self, ticket: u64, probes: &mut Probes) -> Result<(Kind, P), Refusal>
        ensures refused { IfErr result (λ e. holder self.now.state ticket ≡ Err e) }
        ensures found { IfOk result (λ e. IsItem self.now.state (found_of self.now) ticket
            e.0 (P.index e.1) (P.generation e.1)) }
        ensures bound { probes.new ≤ probes.old + most_for self.now.state ticket }
        ensures rises { probes.old ≤ probes.new }
    {
        if ticket == 0 || ticket > self.last {
            return Err(Refusal::Unknown);
        }
        match self.tickets.find_counted(ticket, probes) {
            Some(entry) => Ok((entry.kind(), entry.at())),
            None => Err(Refusal::Gone),
        }
    }

    // The pointer to the living place that has a ticket.
    pub(crate) fn find_place(&self, ticket: u64, probes: &mut Probes) -> Result<P, Refusal>
        ensures refused { IfErr result (λ e. place_holder self.now.state ticket ≡ Err e) }
        ensures found { IfOk result
            (λ p. FindsPlace self.now ticket (P.index p) (P.generation p)) }
        ensures bound { probes.new ≤ probes.old + most_for self.now.state ticket }
        ensures rises { probes.old ≤ probes.new }
    {
        let found = self.find_item(ticket, probes)?;
        match found.0 {
            Kind::Place => Ok(found.1),
            Kind::Stop => Err(Refusal::Kind),
            Kind::Mark => Err(Refusal::Kind),
        }
    }

    // The pointer to the living stop that has a ticket.
    pub(crate) fn find_stop(&self, ticket: u64, probes: &mut Probes) -> Result<P, Refusal>
        ensures refused { IfErr result (λ e. stop_holder self.now.state ticket ≡ Err e) }
        ensures found { IfOk result (λ p. FindsStop self.now ticket (P.index p) (P.generation p)) }
        ensures bound { probes.new ≤ probes.old + most_for self.now.state ticket }
        ensures rises { probes.old ≤ probes.new }
    {
        let found = self.find_item(ticket, probes)?;
        match found.0 {
            Kind::Stop => Ok(found.1),
            Kind::Place => Err(Refusal::Kind),
            Kind::Mark => Err(Refusal::Kind),
        }
    }

    // Whether no further place can be had.
    pub(crate) fn is_full_of_places(&self) -> bool
        ensures { result ≡ is_full_of_places self.now.state }
    {
        self.places.len() >= self.place_room || self.last == u64::MAX
    }

    /// The arena of the places. Along its list they are the places of the state.
    pub fn places_arena(&self) -> &SimpleOrdArena<P, Place, B::Places>
        ensures content { result.now ≡ self.now.places }
        ensures sound { IsSound self.now.state }
        ensures order { self.now.state.places ≡ in_order result.now }
    {
        &self.places
    }

    /// The arena of the stops. Its chains, read by ticket, are the routes of the state, and a
    /// reference finds the place that the state names.
    pub fn stops_arena(&self) -> &ChainArena<P, Stop<P>, B::Stops>
        ensures content { result.now ≡ self.now.stops }
        ensures sound { IsSound self.now.state }
        ensures routes { AreRoutes (stop_in (found_of self.now))
            (ends_in result.now) self.now.state.routes }
        ensures next { LeadAs (λ (t : StopView). t.ticket) (values_in result.now)
            (ends_in result.now) (next_stop self.now.state.routes) }
        ensures items { (i g : ℕ) (t : StopView) → values_in result.now i ≡ Some (g, t)
            → stop_of self.now.state.routes t.ticket ≡ Some (state_stop (found_of self.now) t) }
        ensures count { live_count result.now ≡ length (stop_list self.now.state.routes) }
    {
        routes_lead_along();
        stops_follow_their_previous_ones();
        // The links are as they must be.
        recall!(self.stops.len());
        &self.stops
    }

    /// The arena of the marks, no two of one ticket. Its references find the place and the stop
    /// that the state names.
    pub fn marks_arena(&self) -> &Arena<P, Mark<P>, B::Marks>
        ensures content { result.now ≡ self.now.marks }
        ensures sound { IsSound self.now.state }
        ensures items { (i g : ℕ) (m : MarkView) → entry_at result.now i ≡ Some (g, m)
            → mark_of self.now.state.marks m.ticket ≡ Some (state_mark (found_of self.now) m) }
        ensures apart { (i j g h : ℕ) (m n : MarkView) → entry_at result.now i ≡ Some (g, m)
            → entry_at result.now j ≡ Some (h, n) → m.ticket ≡ n.ticket → i ≡ j }
        ensures count { live_count result.now ≡ length self.now.state.marks }
    {
        &self.marks
    }
}
