//! The calls at one arena.
use crate::items::{Item, Links, Pairs, Values};
use script_ord_calls::{Copied, Player, answer_each, call_any, call_copied};
use test_kit::{Call, ShownPtr, Transcript};
use triple_arena::{ArenaSlots, ArenaTrait, Ptr};
use triple_arena_chain::{ChainArena, ChainSlots};
use triple_arena_ord::{OrdPair, OrdSlots, SimpleOrdArena};

// The text of an arena asks more of its pointers than the calls do.
impl<P: Ptr, S: OrdSlots<P, Item>> Player for Pairs<P, S> {
    fn play(&mut self, transcript: &mut Transcript, call: &Call<'_>) {
        if call.verb == "show" {
            transcript.answer(call.line, &self.arena);
        } else {
            let at_pointer = OrdPair::new(call.third, call.fourth);
            let at_index = OrdPair::new(call.second, call.third);
            if !call_any(&mut self.arena, transcript, call, at_pointer, at_index) {
                call_copied(self, transcript, call);
            }
        }
    }
}

impl<P: ShownPtr, S: OrdSlots<P, Item>> Copied for Pairs<P, S> {
    fn tell_generation(&self, transcript: &mut Transcript, line: &str) {
        transcript.answer(line, &self.arena.generation());
    }

    fn step_generation(&mut self, transcript: &mut Transcript, line: &str) {
        transcript.answer(line, &self.arena.inc_generation());
    }

    fn tell_first(&self, transcript: &mut Transcript, line: &str) {
        transcript.answer(line, &self.arena.first());
    }

    fn tell_last(&self, transcript: &mut Transcript, line: &str) {
        transcript.answer(line, &self.arena.last());
    }

    fn tell_place(&self, transcript: &mut Transcript, call: &Call<'_>) {
        transcript.answer(call.line, &self.arena.find_key(&call.first));
    }

    fn put(&mut self, transcript: &mut Transcript, call: &Call<'_>) {
        let new = OrdPair::new(call.first, call.second);
        transcript.answer(call.line, &self.arena.insert(new));
    }

    fn walk_along(&self, transcript: &mut Transcript, line: &str) {
        answer_each(self.arena.iter_ordered(), transcript, line);
    }

    fn drain_along(&mut self, transcript: &mut Transcript, call: &Call<'_>) {
        drain(&mut self.arena, transcript, call);
    }
}

impl<P: ShownPtr, C: ChainSlots<P, u64>> Player for Links<P, C> {
    fn play(&mut self, transcript: &mut Transcript, call: &Call<'_>) {
        links(&self.chains, transcript, call.line);
    }
}

fn links<P: ShownPtr, C: ChainSlots<P, u64>>(
    chains: &ChainArena<P, u64, C>,
    transcript: &mut Transcript,
    line: &str,
) {
    answer_each(chains.iter_link_no_gen(), transcript, line);
    transcript.answer(line, &chains.generation());
}

impl<P: Ptr, V: ArenaSlots<P, u64>> Player for Values<P, V> {
    fn play(&mut self, transcript: &mut Transcript, call: &Call<'_>) {
        match call.verb {
            "capacity" => transcript.answer(call.line, &self.arena.capacity()),
            "generation" => transcript.answer(call.line, &self.arena.generation()),
            _ => transcript.answer(call.line, &self.arena),
        }
    }
}

fn drain<P: ShownPtr, S: OrdSlots<P, Item>>(
    arena: &mut SimpleOrdArena<P, Item, S>,
    transcript: &mut Transcript,
    call: &Call<'_>,
) {
    let mut drain = arena.drain_ordered();
    for _ in 0..call.first {
        transcript.answer(call.line, &drain.next());
    }
    transcript.answer(call.line, &drain.size_hint());
}
