//! The calls that change the counter or an item, and removals at the ends.
use crate::items::{Item, Pairs};
use script_ord_calls::Writes;
use test_kit::{Call, ShownPtr, Transcript, generation};
use triple_arena::ArenaTrait;
use triple_arena_ord::{OrdPair, OrdSlots};

impl<P: ShownPtr, S: OrdSlots<P, Item>> Writes for Pairs<P, S> {
    fn write_generation(&mut self, transcript: &mut Transcript, call: &Call<'_>) {
        self.arena.set_generation(generation(call.first));
        transcript.line(call.line);
    }

    fn step_generation(&mut self, transcript: &mut Transcript, line: &str) {
        transcript.answer(line, &self.arena.inc_generation());
    }

    fn put(&mut self, transcript: &mut Transcript, call: &Call<'_>) {
        let new = OrdPair::new(call.first, call.second);
        transcript.answer(call.line, &self.arena.insert(new));
    }

    fn get_or_put(&mut self, transcript: &mut Transcript, call: &Call<'_>) {
        let new = OrdPair::new(call.first, call.second);
        transcript.answer(call.line, &self.arena.get_or_insert(new));
    }

    fn get_or_put_within_capacity(&mut self, transcript: &mut Transcript, call: &Call<'_>) {
        let new = OrdPair::new(call.first, call.second);
        transcript.answer(call.line, &self.arena.get_or_insert_within_capacity(new));
    }

    fn write_item(&mut self, transcript: &mut Transcript, call: &Call<'_>) {
        let p = call.pointer();
        let is_live = self.arena.contains(p);
        if is_live {
            self.arena[p] = OrdPair::new(call.third, call.fourth);
        }
        transcript.answer(call.line, &is_live);
    }

    fn write_value(&mut self, transcript: &mut Transcript, call: &Call<'_>) {
        match self.arena.get_mut(call.pointer()) {
            Some(own) => {
                let was = *own.v();
                *own.v_mut() = call.third;
                transcript.answer(call.line, &Some(was));
            }
            None => transcript.answer(call.line, &None::<u64>),
        }
    }

    fn pop_first(&mut self, transcript: &mut Transcript, line: &str) {
        transcript.answer(line, &self.arena.pop_first());
    }

    fn pop_last(&mut self, transcript: &mut Transcript, line: &str) {
        transcript.answer(line, &self.arena.pop_last());
    }
}
