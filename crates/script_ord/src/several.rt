//! Comparisons of two arenas by their lists.
use crate::items::{Item, Pairs};
use script_ord_calls::Compare;
use test_kit::{Call, ShownPtr, Transcript};
use triple_arena_ord::OrdSlots;

impl<P: ShownPtr, Q: ShownPtr, S: OrdSlots<P, Item>, R: OrdSlots<Q, Item>> Compare<Pairs<Q, R>>
    for Pairs<P, S> {
    fn compare(&self, other: &Pairs<Q, R>, transcript: &mut Transcript, call: &Call<'_>) {
        let line = call.line;
        match call.verb {
            "canonical_eq" => transcript.answer(line, &self.arena.canonical_eq(&other.arena)),
            "canonical_partial_cmp" => transcript.answer(
                line,
                &self.arena.canonical_partial_cmp(&other.arena),
            ),
            "canonical_cmp" => transcript.answer(line, &self.arena.canonical_cmp(&other.arena)),
            _ => transcript.answer(line, &"no such call"),
        }
    }
}
