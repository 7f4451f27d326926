//! What the ordered arenas give to others, and take.
use crate::items::{Item, Links, Pairs, Slot, Values};
use script_ord_calls::{Copies, Gives, Limits};
use std::alloc::AllocError;
use test_kit::{Call, ShownPtr, Transcript, generation};
use triple_arena::{ArenaSlots, ArenaTrait, NonZeroInxLimitedStack, PtrCore, SetMaxCapacity};
use triple_arena_chain::{ChainSlots, LinkCloneSource};
use triple_arena_ord::{OrdPair, OrdSlots};

impl<P: ShownPtr, H: Copy, S: OrdSlots<P, Item, Alloc = H>> Copies<H> for Pairs<P, S> {
    fn clones(&mut self, source: &Self, alloc: H, transcript: &mut Transcript, call: &Call<'_>) {
        if call.verb == "clone_from" {
            transcript.answer(call.line, &self.arena.clone_from(&source.arena));
        } else {
            match source.arena.clone(alloc) {
                Ok(made) => {
                    self.arena = made;
                    transcript.line(call.line);
                }
                Err(refused) => transcript.answer(call.line, &refused),
            }
        }
    }

    fn transfers(&mut self, source: &mut Self, transcript: &mut Transcript, call: &Call<'_>) {
        let line = call.line;
        let to = generation(call.first);
        let answer = self
            .arena
            .transfer_canonical_reallocating(to, &mut source.arena, |from, item, to| {
                transcript.answer(line, &(from, &item, to));
                let item = item.allow();
                OrdPair::new(*item.k(), item.v().wrapping_add(1))
            });
        transcript.answer(line, &answer);
    }

    fn compresses(&mut self, transcript: &mut Transcript, call: &Call<'_>) {
        let line = call.line;
        let answer = self.arena.compress_with(call.first == 1, |from, item, to| {
            transcript.answer(line, &(from, item, to));
            OrdPair::new(*item.k(), item.v().wrapping_add(1))
        });
        transcript.answer(line, &answer);
    }
}

impl<P: ShownPtr, S: OrdSlots<P, Item>, C: ChainSlots<P, u64>> Gives<Links<P, C>> for Pairs<P, S> {
    fn gives(&self, target: &mut Links<P, C>, transcript: &mut Transcript, call: &Call<'_>) {
        let line = call.line;
        let mut left = call.first;
        let answer = self
            .arena
            .clone_to_chain_arena(&mut target.chains, |p, item| {
                transcript.answer(line, &(p, item));
                left = left.wrapping_sub(1);
                if left == 0 {
                    Err(AllocError)
                } else {
                    Ok(item.v().wrapping_add(1))
                }
            });
        transcript.answer(line, &answer);
    }
}

// The map also tells the neighbors in the list.
impl<P: ShownPtr, S: OrdSlots<P, Item>, V: ArenaSlots<P, u64>> Gives<Values<P, V>> for Pairs<P, S> {
    fn gives(&self, target: &mut Values<P, V>, transcript: &mut Transcript, call: &Call<'_>) {
        let line = call.line;
        let mut left = call.first;
        let answer = self.arena.clone_to_arena(&mut target.arena, |p, link| {
            transcript.answer(line, &(p, link.prev_next(), link.t.t));
            left = left.wrapping_sub(1);
            if left == 0 {
                Err(AllocError)
            } else {
                Ok(link.t.t.v().wrapping_add(1))
            }
        });
        transcript.answer(line, &answer);
    }
}

impl<P: PtrCore, S: NonZeroInxLimitedStack<Item = Slot<P>> + Drop> Limits for Pairs<P, S> {
    fn limit(&mut self, transcript: &mut Transcript, call: &Call<'_>) {
        transcript.answer(call.line, &self.arena.set_max_capacity(call.first as usize));
    }
}
