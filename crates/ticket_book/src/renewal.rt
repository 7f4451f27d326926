//! Entries whose items got other pointers.
ghost use Rattle.std.specs.Prelude.{◌≡◌};
ghost use Rattle.ticket_book.specs.Mirrors.{AreCast, numbers, renewed_by, renewed_pointer};
ghost use Rattle.triple_arena_ord.specs.Ordered.{entry_in, order_in};

use crate::entry::{Entry, Kind};
use proof_marks::recall;
use triple_arena::{Advancer, ArenaTrait};
use triple_arena_ord::laws::writes_keep_the_list;
use triple_arena_ord::{OrdSlots, SimpleOrdArena};
use triple_arena_ptr::PtrCore;

// The pointer as a mirror has it, or the same one.
fn renewed<P: PtrCore, M: ArenaTrait<P, P>>(mirror: &M, p: P) -> P
    ensures { (P.index result, P.generation result)
        ≡ renewed_pointer (numbers P.index P.generation (M.entry_at mirror.now)) (P.index p)
        (P.generation p) }
{
    match mirror.get(p) {
        Some(q) => *q,
        None => p,
    }
}

impl<P: PtrCore> Entry<P> {
    // The pointer becomes what the mirror of its kind has under it.
    fn renew<M: ArenaTrait<P, P>, N: ArenaTrait<P, P>, O: ArenaTrait<P, P>>(
        &mut self,
        places: &M,
        stops: &N,
        marks: &O,
    )
        ensures { self.new ≡ renewed_by P.index P.generation (M.entry_at places.now)
            (N.entry_at stops.now) (O.entry_at marks.now) self.old }
    {
        match self.kind {
            Kind::Place => self.at = renewed(places, self.at),
            Kind::Stop => self.at = renewed(stops, self.at),
            Kind::Mark => self.at = renewed(marks, self.at),
        }
    }
}

// Renews each entry of an arena, whose list stays.
pub(crate) fn renew_entries<
    P: PtrCore,
    S: OrdSlots<P, Entry<P>>,
    M: ArenaTrait<P, P>,
    N: ArenaTrait<P, P>,
    O: ArenaTrait<P, P>,
>(arena: &mut SimpleOrdArena<P, Entry<P>, S>, places: &M, stops: &N, marks: &O)
    ensures entries { AreCast (renewed_by P.index P.generation (M.entry_at places.now)
        (N.entry_at stops.now) (O.entry_at marks.now)) (entry_in arena.old) (entry_in arena.new) }
    ensures order { order_in arena.new ≡ order_in arena.old }
    ensures room { arena.new.chains.room ≡ arena.old.chains.room }
{
    writes_keep_the_list::<P, Entry<P>>();
    // The list is as it must be.
    recall!(arena.len());
    let mut walk = arena.advancer();
    while let Some(p) = walk.advance(arena) {
        if let Some(entry) = arena.get_mut(p) {
            entry.renew(places, stops, marks);
        }
    }
}
