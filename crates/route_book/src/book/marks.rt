//! Marks.
ghost use Rattle.std.specs.Prelude.{◌≡◌, IfOk};
ghost use Rattle.triple_arena.specs.Content.{inserted};
ghost use Rattle.route_lines.specs.Calls.{marked, after_mark, place_holder};
ghost use Rattle.route_lines.specs.Searches.{CountsWithin, most_behind, most_for};
ghost use Rattle.route_lines.specs.State.{is_full_of_marks};
ghost use Rattle.route_book.specs.Book.{Changes};
ghost use Rattle.route_book.specs.Item.{MarkView};

use crate::backing::BookBacking;
use crate::book::RouteBook;
use crate::items::{Mark, Ref};
use proof_marks::unreached;
use route_lines::laws::changes_keep_states_sound;
use route_lines::{Change, Counts, Refusal};
use ticket_book::Kind;
use triple_arena::{ArenaInsertTrait, ArenaTrait};
use triple_arena_ptr::PtrCore;

impl<P: PtrCore, B: BookBacking<P>> RouteBook<P, B> {
    // Whether no further mark can be had.
    fn is_full_of_marks(&self) -> bool
        ensures { result ≡ is_full_of_marks self.now.state }
    {
        self.marks.len() >= self.mark_room || self.last == u64::MAX
    }

    /// A new mark of a place and of a stop.
    ///
    /// Each ticket is refused in turn: `Unknown` if it was never given, `Gone` if its item has
    /// ended, `Kind` if it is of the wrong kind. Then `Full` if as many marks live as the room
    /// holds, or every ticket was given; then nothing changes.
    pub fn mark(&mut self, place: u64, stop: u64) -> Result<u64, Refusal>
        ensures changes { Changes (marked self.old.state place stop)
            (after_mark self.old.state place stop) result self.old self.new }
        ensures others { (self.new.places ≡ self.old.places) × (self.new.stops ≡ self.old.stops) }
        ensures arena { IfOk result
            (λ _. (m : MarkView) × (self.new.marks ≡ inserted self.old.marks m)) }
    {
        self.mark_counted(place, stop, &mut Counts::new())
    }

    /// A new mark of a place and of a stop. The comparisons of the searches for the place and the
    /// stop are counted in `counts.first` and `counts.second`.
    ///
    /// Each ticket is refused in turn: `Unknown` if it was never given, `Gone` if its item has
    /// ended, `Kind` if it is of the wrong kind. Then `Full` if as many marks live as the room
    /// holds, or every ticket was given. A refused call changes nothing.
    pub fn mark_counted(
        &mut self,
        place: u64,
        stop: u64,
        counts: &mut Counts,
    ) -> Result<u64, Refusal>
        ensures changes { Changes (marked self.old.state place stop)
            (after_mark self.old.state place stop) result self.old self.new }
        ensures others { (self.new.places ≡ self.old.places) × (self.new.stops ≡ self.old.stops) }
        ensures arena { IfOk result
            (λ _. (m : MarkView) × (self.new.marks ≡ inserted self.old.marks m)) }
        ensures counts { CountsWithin counts.old counts.new
            0 (most_for self.old.state place)
            (most_behind (place_holder self.old.state place) (most_for self.old.state stop)) }
    {
        changes_keep_states_sound();
        let at = self.find_place(place, &mut counts.first)?;
        let by = self.find_stop(stop, &mut counts.second)?;
        if self.is_full_of_marks() {
            return Err(Refusal::Full);
        }
        let ticket = self.last + 1;
        let mark = Mark::new(ticket, Ref::To(at), Ref::To(by));
        match self.marks.insert_within_capacity(mark) {
            Ok(new) => {
                self.last = ticket;
                self.tickets.add(ticket, Kind::Mark, new);
                self.held = self.held.changed(&Change::Mark(place, stop));
                Ok(ticket)
            }
            Err(_) => unreached!(),
        }
    }
}
