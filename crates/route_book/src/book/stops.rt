//! Stops and their routes.
ghost use Rattle.std.specs.Prelude.{◌≡◌};
ghost use Rattle.triple_arena_chain.specs.Links.{IsChained};
ghost use Rattle.route_lines.specs.Calls.{started, after_start};
ghost use Rattle.route_lines.specs.Searches.{CountsWithin, most_for};
ghost use Rattle.route_lines.specs.State.{is_full_of_stops};
ghost use Rattle.route_book.specs.Book.{Changes};

use crate::backing::BookBacking;
use crate::book::RouteBook;
use crate::items::{Ref, Stop};
use proof_marks::unreached;
use route_lines::laws::{changes_keep_states_sound, starts_lead_nowhere};
use route_lines::{Change, Counts, Refusal};
use ticket_book::Kind;
use triple_arena::ArenaTrait;
use triple_arena_chain::{ChainArenaTrait, LinkInsertKind};
use triple_arena_ptr::PtrCore;

impl<P: PtrCore, B: BookBacking<P>> RouteBook<P, B> {
    // Whether no further stop can be had.
    pub(crate) fn is_full_of_stops(&self) -> bool
        ensures is { result ≡ is_full_of_stops self.now.state }
        ensures chained { IsChained self.now.stops }
    {
        self.stops.len() >= self.stop_room || self.last == u64::MAX
    }

    /// A new stop at a place, alone on a linear route.
    ///
    /// `Unknown` if the ticket was never given, `Gone` if its item has ended, `Kind` if it is no
    /// place, and then `Full` if as many stops live as the room holds, or every ticket was given;
    /// then nothing changes.
    pub fn start(&mut self, place: u64) -> Result<u64, Refusal>
        ensures changes { Changes (started self.old.state place)
            (after_start self.old.state place) result self.old self.new }
        ensures others { (self.new.places ≡ self.old.places) × (self.new.marks ≡ self.old.marks) }
    {
        self.start_counted(place, &mut Counts::new())
    }

    /// A new stop at a place, alone on a linear route. The comparisons of the search for the place
    /// are counted in `counts.first`.
    ///
    /// `Unknown` if the ticket was never given, `Gone` if its item has ended, `Kind` if it is no
    /// place. Then `Full` if as many stops live as the room holds, or every ticket was given. A
    /// refused call changes nothing.
    pub fn start_counted(&mut self, place: u64, counts: &mut Counts) -> Result<u64, Refusal>
        ensures changes { Changes (started self.old.state place)
            (after_start self.old.state place) result self.old self.new }
        ensures others { (self.new.places ≡ self.old.places) × (self.new.marks ≡ self.old.marks) }
        ensures counts { CountsWithin counts.old counts.new 0 (most_for self.old.state place) 0 }
    {
        changes_keep_states_sound();
        starts_lead_nowhere();
        let at = self.find_place(place, &mut counts.first)?;
        if self.is_full_of_stops() {
            return Err(Refusal::Full);
        }
        let ticket = self.last + 1;
        let stop = Stop::new(ticket, Ref::To(at));
        match self
            .stops
            .insert_within_capacity(LinkInsertKind::Disconnected, stop)
        {
            Ok(new) => {
                self.last = ticket;
                self.tickets.add(ticket, Kind::Stop, new);
                self.held = self.held.changed(&Change::Start(place));
                Ok(ticket)
            }
            Err(_) => unreached!(),
        }
    }
}
