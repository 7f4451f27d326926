//! What an arena tells of itself.
use crate::items::{CountingKey, Item, Pairs};
use script_ord_calls::TellsOfTree;
use test_kit::{Call, ShownPtr, Transcript};
use triple_arena_ord::{OrdSlots, SimpleOrdArena};

impl<P: ShownPtr, K: CountingKey, S: OrdSlots<P, Item<K>>> TellsOfTree for Pairs<P, K, S> {
    fn tell_generation(&self, transcript: &mut Transcript, line: &str) {
        transcript.answer(line, &self.arena.generation());
    }

    fn tell_invariants(&self, transcript: &mut Transcript, line: &str) {
        transcript.answer(
            line,
            &SimpleOrdArena::<P, Item<K>, S>::_check_invariants(&self.arena),
        );
    }

    fn lay_out(&mut self, transcript: &mut Transcript, call: &Call<'_>) {
        transcript.answer(call.line, &self.arena.compress_canonical(call.first == 1));
    }
}
