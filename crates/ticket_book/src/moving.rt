//! Entries whose items went to arenas over other pointers, and have the index there that they had.
ghost use Rattle.std.specs.Prelude.{◌≡◌, ◌≤◌, ⊤, map, length};
ghost use Rattle.triple_arena_ptr.specs.Generation.{second_generation};
ghost use Rattle.triple_arena_ptr.specs.Index.{max_index_of};
ghost use Rattle.ticket_book.specs.Moving.{entry_over};

use crate::book::TicketBook;
use crate::entry::Entry;
use proof_marks::{recall, unreached};
use std::marker::PhantomData;
use triple_arena::ArenaTrait;
use triple_arena_ord::OrdSlots;
use triple_arena_ord::laws::{
    canonical_transfers_list_by_index, the_list_has_as_many_entries_as_are_live,
};
use triple_arena_ptr::{PtrCore, PtrGenCore, at_index_of};

impl<P: PtrCore> Entry<P> {
    // The entry of the same ticket over other pointers. A closure that calls this has to name its
    // result's type by what it captures, so the type is passed.
    fn over<Q: PtrCore>(self, _over: PhantomData<Entry<Q>>) -> Entry<Q>
        ensures { result
            ≡ entry_over (max_index_of Q.Inx.greatest) (second_generation Q.Gen.last) self }
    {
        Entry::new(self.ticket(), self.kind(), at_index_of(self.at()))
    }
}

impl<P: PtrCore, S: OrdSlots<P, Entry<P>>> TicketBook<P, S> {
    /// Takes over the tickets of another book, in place of its own. The pointer of each has the
    /// index that it had, or the greatest one if the type has no such index, and the second
    /// generation. No memory is taken.
    pub fn take_over<Q: PtrCore, R: OrdSlots<Q, Entry<Q>>>(&mut self, source: TicketBook<Q, R>)
        requires fits { length source.entries ≤ self.old.capacity }
        requires no_more { ⊤ }
        ensures entries { self.new.entries
            ≡ map (entry_over (max_index_of P.Inx.greatest) (second_generation P.Gen.last))
            source.entries }
        ensures capacity { self.new.capacity ≡ self.old.capacity }
        ensures elsewhere { self.new.first_elsewhere ≡ 0 }
    {
        canonical_transfers_list_by_index::<P, Entry<P>>();
        the_list_has_as_many_entries_as_are_live::<Q, Entry<Q>>();
        let mut arena = source.arena;
        // The list is as it must be.
        recall!(arena.len());
        let to = PhantomData::<Entry<P>>;
        let taken = self.arena.transfer_canonical_reallocating(
            P::Gen::two(),
            &mut arena,
            |_, entry, _| entry.allow().over(to),
        );
        match taken {
            // Each is searched for from now on, since the entries have the first indexes.
            Ok(()) => self.first_elsewhere = 0,
            Err(_) => unreached!(),
        }
    }
}
