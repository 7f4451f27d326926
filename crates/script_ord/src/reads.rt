//! The calls that read an arena.
use crate::items::{Item, Pairs};
use script_ord_calls::TellsOfList;
use test_kit::{Call, ShownPtr, Transcript};
use triple_arena::ArenaTrait;
use triple_arena_ord::OrdSlots;

impl<P: ShownPtr, S: OrdSlots<P, Item>> TellsOfList for Pairs<P, S> {
    fn tell_generation(&self, transcript: &mut Transcript, line: &str) {
        transcript.answer(line, &self.arena.generation());
    }

    fn tell_first(&self, transcript: &mut Transcript, line: &str) {
        transcript.answer(line, &self.arena.first());
    }

    fn tell_last(&self, transcript: &mut Transcript, line: &str) {
        transcript.answer(line, &self.arena.last());
    }

    fn tell_place(&self, transcript: &mut Transcript, call: &Call<'_>) {
        transcript.answer(call.line, &self.arena.find_key(&call.first));
    }

    fn tell_lower_bound(&self, transcript: &mut Transcript, call: &Call<'_>) {
        transcript.answer(call.line, &self.arena.lower_bound(&call.first));
    }

    fn tell_upper_bound(&self, transcript: &mut Transcript, call: &Call<'_>) {
        transcript.answer(call.line, &self.arena.upper_bound(&call.first));
    }

    fn tell_item(&self, transcript: &mut Transcript, call: &Call<'_>) {
        let p = call.pointer();
        if self.arena.contains(p) {
            transcript.answer(call.line, &self.arena[p]);
        } else {
            transcript.answer(call.line, &"not live");
        }
    }

    fn tell_link(&self, transcript: &mut Transcript, call: &Call<'_>) {
        match self.arena.get_inx_link_no_gen(call.index()) {
            Some((generation, link)) => {
                transcript.answer(call.line, &(generation, link.prev_next(), link.t))
            }
            None => transcript.answer(call.line, &"not live"),
        }
    }
}
