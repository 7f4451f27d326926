//! Walks along the list, by advancers and by iterators, and iterators by index.
use crate::items::{Item, Pairs};
use script_ord_calls::{GoesAlong, answer_each, remove_along, walk};
use test_kit::{Call, ShownPtr, Transcript};
use triple_arena::{Advancer, ArenaTrait};
use triple_arena_ord::{OrdPair, OrdSlots, SimpleOrdArena};

impl<P: ShownPtr, S: OrdSlots<P, Item>> GoesAlong for Pairs<P, S> {
    fn walk_ptrs(&self, transcript: &mut Transcript, line: &str) {
        answer_each(self.arena.ptrs(), transcript, line);
    }

    fn walk_vals(&self, transcript: &mut Transcript, line: &str) {
        answer_each(self.arena.vals(), transcript, line);
    }

    fn walk_iter(&self, transcript: &mut Transcript, line: &str) {
        answer_each(self.arena.iter(), transcript, line);
    }

    fn walk_iter_ordered(&self, transcript: &mut Transcript, line: &str) {
        answer_each(self.arena.iter_ordered(), transcript, line);
    }

    fn walk_into_iter(&self, transcript: &mut Transcript, line: &str) {
        answer_each((&self.arena).into_iter(), transcript, line);
    }

    fn walk_ordered(&self, transcript: &mut Transcript, call: &Call<'_>) {
        match self.arena.advancer_ordered(call.pointer(), call.third == 1) {
            Some(advancer) => walk(&self.arena, transcript, call.line, advancer),
            None => transcript.answer(call.line, &"no walk"),
        }
    }

    fn walk_and_remove(&mut self, transcript: &mut Transcript, call: &Call<'_>) {
        match self.arena.advancer_ordered(call.pointer(), call.third == 1) {
            Some(advancer) => remove_along(&mut self.arena, transcript, call.line, advancer),
            None => transcript.answer(call.line, &"no walk"),
        }
    }

    fn walk_over_a_change(&mut self, transcript: &mut Transcript, call: &Call<'_>) {
        match self.arena.advancer_ordered(call.pointer(), call.third == 1) {
            Some(mut advancer) => {
                transcript.answer(call.line, &advancer.advance(&self.arena));
                transcript.answer(
                    call.line,
                    &self.arena.remove_inx(test_kit::index(call.fourth)),
                );
                transcript.answer(call.line, &self.arena.insert(OrdPair::new(call.fifth, 0)));
                walk(&self.arena, transcript, call.line, advancer);
            }
            None => transcript.answer(call.line, &"no walk"),
        }
    }

    fn drain_along(&mut self, transcript: &mut Transcript, call: &Call<'_>) {
        drain(&mut self.arena, transcript, call);
    }
}

fn drain<P: ShownPtr, S: OrdSlots<P, Item>>(
    arena: &mut SimpleOrdArena<P, Item, S>,
    transcript: &mut Transcript,
    call: &Call<'_>,
) {
    let mut drain = arena.drain_ordered();
    for _ in 0..call.first {
        transcript.answer(call.line, &drain.next());
    }
    transcript.answer(call.line, &drain.size_hint());
}
