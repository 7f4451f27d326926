//! A walk along a route.
ghost use Rattle.std.specs.Prelude.{◌≡◌};
ghost use Rattle.std.specs.Iterator.{YieldsFirstBy, item_count};
ghost use Rattle.route_lines.specs.Calls.{walked};
ghost use Rattle.route_lines.specs.Searches.{CountsWithin, most_for};

use crate::backing::BookBacking;
use crate::book::RouteBook;
use crate::book::asking::place_ticket;
use crate::items::{Place, Stop};
use proof_marks::{recall, unreached};
use route_lines::laws::{
    lists_are_walked_both_ways, rings_are_walked_once, stops_follow_their_previous_ones,
};
use route_lines::{Counts, Refusal};
use std::marker::Model;
use triple_arena::ArenaTrait;
use triple_arena_chain::ChainSlots;
use triple_arena_chain::chain_iterators::IterChain;
use triple_arena_ord::{OrdSlots, SimpleOrdArena};
use triple_arena_ptr::{PtrCore, PtrInxCore};

/// The stops of a route from one of them on, seen as the list of those that are left: to the end
/// and then backwards from the stop before the first, or once round a ring.
#[derive(Drop)]
pub struct Walk<'a, P: PtrCore, S: OrdSlots<P, Place>, C: ChainSlots<P, Stop<P>>>
where
    P: 'a,
    P::Inx: 'a,
    <P::Inx as PtrInxCore>::Word: 'a,
    P::Gen: 'a,
{
    stops: IterChain<'a, P, Stop<P>, C>,
    places: &'a SimpleOrdArena<P, Place, S>,
}

impl<'a, P: PtrCore, S: OrdSlots<P, Place>, C: ChainSlots<P, Stop<P>>> Model for Walk<'a, P, S, C>
where
    P: 'a,
    P::Inx: 'a,
    <P::Inx as PtrInxCore>::Word: 'a,
    P::Gen: 'a,
{
    ghost use Rattle.std.specs.Prelude.{List, map};
    ghost use Rattle.triple_arena_ord.specs.Ordered.{entry_in};
    ghost use Rattle.route_lines.specs.State.{Stop as View};
    ghost use Rattle.route_book.specs.Walked.{stop_seen};

    ghost Value = { List View };

    ghost view = { λ w. map (λ e. stop_seen (entry_in w.places.now) e.1.1.t) w.stops };
}

impl<'a, P: PtrCore, S: OrdSlots<P, Place>, C: ChainSlots<P, Stop<P>>> Iterator
    for Walk<'a, P, S, C>
where
    P: 'a,
    P::Inx: 'a,
    <P::Inx as PtrInxCore>::Word: 'a,
    P::Gen: 'a,
{
    ghost use Rattle.route_lines.specs.Calls.{listed_stop};

    /// A stop's ticket, and its place's, or nothing if that place is gone.
    type Item = (u64, Option<u64>);

    ghost next_gives = { YieldsFirstBy listed_stop (λ left. left) };

    ghost remaining = { item_count (λ left. left) };

    fn next(&mut self) -> Option<(u64, Option<u64>)> {
        let (_, link) = self.stops.next()?;
        Some((link.t.ticket(), place_ticket(self.places, link.t.place())))
    }
}

impl<P: PtrCore, B: BookBacking<P>> RouteBook<P, B> {
    /// The stops of a stop's route, from it on: to the end of the route and then backwards from the
    /// stop before it, or once round a ring.
    ///
    /// `Unknown` if the ticket was never given, `Gone` if its item has ended, `Kind` if it is no
    /// stop.
    pub fn walk(&self, stop: u64) -> Result<Walk<'_, P, B::Places, B::Stops>, Refusal>
        ensures { result ≡ walked self.now.state stop }
    {
        self.walk_counted(stop, &mut Counts::new())
    }

    /// The stops of a stop's route, from it on: to the end of the route and then backwards from the
    /// stop before it, or once round a ring. The comparisons of the search for the stop are counted
    /// in `counts.first`.
    ///
    /// `Unknown` if the ticket was never given, `Gone` if its item has ended, `Kind` if it is no
    /// stop.
    pub fn walk_counted(
        &self,
        stop: u64,
        counts: &mut Counts,
    ) -> Result<Walk<'_, P, B::Places, B::Stops>, Refusal>
        ensures result { result ≡ walked self.now.state stop }
        ensures counts { CountsWithin counts.old counts.new 0 (most_for self.now.state stop) 0 }
    {
        stops_follow_their_previous_ones();
        lists_are_walked_both_ways();
        rings_are_walked_once();
        // The links are as they must be.
        recall!(self.stops.len());
        let at = self.find_stop(stop, &mut counts.first)?;
        match self.stops.iter_chain(at) {
            Some(stops) => Ok(Walk {
                stops,
                places: &self.places,
            }),
            None => unreached!(),
        }
    }
}
