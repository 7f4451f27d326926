//! A place more, or another word for one.
ghost use Rattle.std.specs.Prelude.{◌≡◌, ◌+◌, Ok, false};
ghost use Rattle.rank_tree.specs.Comparisons.{most_comparisons};
ghost use Rattle.route_lines.specs.Calls.{placed, after_place, placed_near, after_place_near};
ghost use Rattle.route_lines.specs.Calls.{worded, after_word};
ghost use Rattle.route_lines.specs.Searches.{CountsWithin, most_behind, most_for, most_near};
ghost use Rattle.route_lines.specs.Searches.{place_count};
ghost use Rattle.route_lines.specs.State.{is_full_of_places};
ghost use Rattle.route_book.specs.Book.{Changes, FindsPlace};
ghost use Rattle.route_book.specs.Keys.{IsFoundFor};

use crate::backing::BookBacking;
use crate::book::RouteBook;
use crate::items::{Place, PlaceKey};
use crate::place_arena::{put_place, reword};
use proof_marks::recall;
use route_lines::laws::changes_keep_states_sound;
use route_lines::{Change, Counts, Refusal, Word};
use std::cmp::Ordering;
use ticket_book::Kind;
use triple_arena::ArenaTrait;
use triple_arena_ptr::PtrCore;

impl<P: PtrCore, B: BookBacking<P>> RouteBook<P, B> {
    /// A new place with this key and word, behind all places that have the key; its ticket.
    ///
    /// `Full` if as many places live as the room holds, or every ticket was given; then nothing
    /// changes.
    pub fn place(&mut self, key: u64, word: Word) -> Result<u64, Refusal>
        ensures changes { Changes (placed self.old.state)
            (after_place self.old.state key word) result self.old self.new }
        ensures others { (self.new.stops ≡ self.old.stops) × (self.new.marks ≡ self.old.marks) }
    {
        self.place_counted(key, word, &mut Counts::new())
    }

    /// A new place with this key and word, behind all places that have the key; its ticket. The
    /// comparisons of the search for the key are counted in `counts.key`.
    ///
    /// `Full` if as many places live as the room holds, or every ticket was given; then nothing
    /// changes.
    pub fn place_counted(
        &mut self,
        key: u64,
        word: Word,
        counts: &mut Counts,
    ) -> Result<u64, Refusal>
        ensures changes { Changes (placed self.old.state)
            (after_place self.old.state key word) result self.old self.new }
        ensures others { (self.new.stops ≡ self.old.stops) × (self.new.marks ≡ self.old.marks) }
        ensures counts { CountsWithin counts.old counts.new
            (most_behind (placed self.old.state)
            (most_comparisons (place_count self.old.state))) 0 0 }
    {
        if self.is_full_of_places() {
            return Err(Refusal::Full);
        }
        let wanted = PlaceKey {
            key,
            ticket: self.last + 1,
        };
        let found = self
            .places
            .find_similar_key_counted(&wanted, &mut counts.key);
        Ok(self.add_place(found, key, word))
    }

    /// A new place with this key and word, behind all places that have the key; its ticket. The
    /// search for the key begins at the place with the ticket `near`.
    ///
    /// `Unknown` if `near` was never given, `Gone` if its item has ended, `Kind` if it is no place.
    /// Then `Full` if as many places live as the room holds, or every ticket was given. A refused
    /// call changes nothing.
    pub fn place_near(&mut self, key: u64, word: Word, near: u64) -> Result<u64, Refusal>
        ensures changes { Changes (placed_near self.old.state near)
            (after_place_near self.old.state key word near) result self.old self.new }
        ensures others { (self.new.stops ≡ self.old.stops) × (self.new.marks ≡ self.old.marks) }
    {
        self.place_near_counted(key, word, near, &mut Counts::new())
    }

    /// A new place with this key and word, behind all places that have the key; its ticket. The
    /// search for the key begins at the place with the ticket `near`.
    ///
    /// `Unknown` if `near` was never given, `Gone` if its item has ended, `Kind` if it is no place.
    /// Then `Full` if as many places live as the room holds, or every ticket was given. A refused
    /// call changes nothing.
    ///
    /// The comparisons of the searches for the key and for `near` are counted in `counts.key` and
    /// `counts.first`. At most 7 comparisons with keys are made along the list, and no more if each
    /// place beside the gap for the new one is less than 7 steps from that of `near`. None is made
    /// with keys if the place is refused.
    pub fn place_near_counted(
        &mut self,
        key: u64,
        word: Word,
        near: u64,
        counts: &mut Counts,
    ) -> Result<u64, Refusal>
        ensures changes { Changes (placed_near self.old.state near)
            (after_place_near self.old.state key word near) result self.old self.new }
        ensures others { (self.new.stops ≡ self.old.stops) × (self.new.marks ≡ self.old.marks) }
        ensures counts { CountsWithin counts.old counts.new
            (most_near self.old.state key near) (most_for self.old.state near) 0 }
    {
        // The list is as it must be.
        recall!(self.places.len());
        let at = self.find_place(near, &mut counts.first)?;
        if self.is_full_of_places() {
            return Err(Refusal::Full);
        }
        let wanted = PlaceKey {
            key,
            ticket: self.last + 1,
        };
        let found = self
            .places
            .find_similar_key_linear_counted(at.inx(), 7, &wanted, &mut counts.key);
        Ok(self.add_place(found, key, word))
    }

    /// Gives the place with a ticket another word, and returns the one that it had.
    ///
    /// `Unknown` if the ticket was never given, `Gone` if its item has ended, `Kind` if it is no
    /// place; then nothing changes.
    pub fn set_word(&mut self, ticket: u64, word: Word) -> Result<Word, Refusal>
        ensures changes { Changes (worded self.old.state ticket)
            (after_word self.old.state ticket word) result self.old self.new }
        ensures others { (self.new.stops ≡ self.old.stops) × (self.new.marks ≡ self.old.marks) }
    {
        self.set_word_counted(ticket, word, &mut Counts::new())
    }

    /// Gives the place with a ticket another word, and returns the one that it had. The comparisons
    /// of the search for the ticket are counted in `counts.first`.
    ///
    /// `Unknown` if the ticket was never given, `Gone` if its item has ended, `Kind` if it is no
    /// place; then nothing changes.
    pub fn set_word_counted(
        &mut self,
        ticket: u64,
        word: Word,
        counts: &mut Counts,
    ) -> Result<Word, Refusal>
        ensures changes { Changes (worded self.old.state ticket)
            (after_word self.old.state ticket word) result self.old self.new }
        ensures others { (self.new.stops ≡ self.old.stops) × (self.new.marks ≡ self.old.marks) }
        ensures counts { CountsWithin counts.old counts.new 0 (most_for self.old.state ticket) 0 }
    {
        let at = self.find_place(ticket, &mut counts.first)?;
        Ok(self.replace_word(at, ticket, word))
    }

    // Another word for the place that has the ticket, which stands under this pointer.
    fn replace_word(&mut self, at: P, ticket: u64, word: Word) -> Word
        requires found { FindsPlace self.old ticket (P.index at) (P.generation at) }
        ensures changes { Changes (worded self.old.state ticket)
            (after_word self.old.state ticket word) (Ok result) self.old self.new }
        ensures others { (self.new.stops ≡ self.old.stops) × (self.new.marks ≡ self.old.marks) }
    {
        changes_keep_states_sound();
        // The word is as it must be.
        recall!(word.as_bytes());
        self.held = self.held.changed(&Change::Word(ticket, &word));
        reword(&mut self.places, at, word)
    }

    // A place under the next ticket, beside the one that the search for its key and ticket found;
    // that ticket.
    fn add_place(&mut self, found: Option<(P, Ordering)>, key: u64, word: Word) -> u64
        requires similar { IsFoundFor P.index P.generation
            (record { key = key; ticket = self.old.state.last + 1 }) self.old.places found }
        requires free { is_full_of_places self.old.state ≡ false }
        ensures changes { Changes (placed self.old.state)
            (after_place self.old.state key word) (Ok result) self.old self.new }
        ensures others { (self.new.stops ≡ self.old.stops) × (self.new.marks ≡ self.old.marks) }
    {
        changes_keep_states_sound();
        // The word is as it must be.
        recall!(word.as_bytes());
        self.held = self.held.changed(&Change::Place(key, &word));
        let ticket = self.last + 1;
        let at = put_place(&mut self.places, found, Place::new(ticket, key, word));
        self.last = ticket;
        self.tickets.add(ticket, Kind::Place, at);
        ticket
    }
}
