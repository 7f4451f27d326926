//! The arena `x`, whose values are pointers, and the arena `n` of names for them.
use script_ord_calls::{Renames, play_renaming};
use test_kit::{Call, Transcript, pointer};
use triple_arena::{
    Arena, ArenaInsertTrait, ArenaSlot, ArenaSlots, ArenaTrait, NonZeroInxGenericStack, Ptr,
    PtrCore, Recast, Recaster,
};
use triple_arena_chain::LinkNoGen;
use triple_arena_ord::{OrdPair, OrdSlots, SimpleOrdArena, SimpleOrdArenaNode};

/// A pointer under a key.
pub type Named<P> = OrdPair<u64, P>;

/// A slot of the arena `x`.
pub type NamedSlot<P> = ArenaSlot<P, LinkNoGen<P, SimpleOrdArenaNode<P, Named<P>>>>;

// An arena of them.
#[derive(Drop)]
struct Names<P: PtrCore, S: OrdSlots<P, Named<P>>> {
    arena: SimpleOrdArena<P, Named<P>, S>,
}

/// Makes the calls of a section at two new arenas. The bounds are written out, as in `main.rt`.
pub fn over<
    P: Ptr + Recast<P>,
    S: NonZeroInxGenericStack<Item = NamedSlot<P>> + Drop,
    N: NonZeroInxGenericStack<Item = ArenaSlot<P, P>> + Drop,
>(first: S::Alloc, second: N::Alloc, transcript: &mut Transcript, lines: &str) {
    let mut x = Names {
        arena: SimpleOrdArena::<P, Named<P>, S>::new(first),
    };
    let mut n = Arena::<P, P, N>::new(second);
    play_renaming(&mut x, &mut n, transcript, lines);
}

impl<P: Ptr + Recast<P>, S: OrdSlots<P, Named<P>>, N: ArenaSlots<P, P>> Renames<Arena<P, P, N>>
    for Names<P, S> {
    fn hold(&mut self, transcript: &mut Transcript, call: &Call<'_>) {
        match call.verb {
            "insert" => {
                let new = OrdPair::new(call.first, pointer(call.second, call.third));
                transcript.answer(call.line, &self.arena.insert(new));
            }
            "remove_inx" => transcript.answer(call.line, &self.arena.remove_inx(call.index())),
            _ => transcript.answer(call.line, &self.arena),
        }
    }

    fn name(names: &mut Arena<P, P, N>, transcript: &mut Transcript, call: &Call<'_>) {
        match call.verb {
            "insert" => transcript.answer(call.line, &names.insert(call.pointer())),
            "remove" => transcript.answer(call.line, &names.remove(call.pointer())),
            _ => transcript.answer(call.line, names),
        }
    }

    fn rename(&mut self, names: &Arena<P, P, N>, transcript: &mut Transcript, line: &str) {
        transcript.answer(line, &recast(&mut self.arena, names));
    }
}

fn recast<P: PtrCore, A: Recast<P>, R: Recaster<Item = P>>(
    arena: &mut A,
    names: &R,
) -> Result<(), P> {
    arena.recast(names)
}
