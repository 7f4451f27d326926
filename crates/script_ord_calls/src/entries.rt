//! Insertions by an entry, of each kind, in each form.
use crate::nodes::ShowsNodes;
use crate::places::limit_from;
use crate::work::Limit;
use test_kit::{Call, Transcript, index};
use triple_arena::PtrCore;

/// What makes such a call, and tells of it.
pub trait PutsByEntry<K> {
    /// Takes an entry of the form and the kind that the line names, with so many comparisons. It
    /// puts the item of the first two numbers in by it, or lets it go if the fifth is 1. It says
    /// whether there is a kind of that name.
    fn enters_by(
        &mut self,
        transcript: &mut Transcript,
        call: &Call<'_>,
        limit: Limit,
        zero: K,
    ) -> bool;
}

/// Makes such a call, and says whether there is one of that name.
pub fn enters<P: PtrCore, K: Copy, A: PutsByEntry<K> + ShowsNodes<P>>(
    arena: &mut A,
    transcript: &mut Transcript,
    call: &Call<'_>,
    zero: K,
) -> bool {
    match call.verb.split_once(':') {
        Some((_, name)) => {
            let start = index(call.third);
            let limit = limit_of(arena, name, start, call.fourth, arena.ascends());
            arena.enters_by(transcript, call, limit, zero)
        }
        None => false,
    }
}

/// How many comparisons an entry of a kind may make.
pub fn limit_of<P: PtrCore, A: ShowsNodes<P>>(
    arena: &A,
    name: &str,
    start: P::Inx,
    num: u64,
    ascends: bool,
) -> Limit {
    match name {
        "insert" | "normal" | "nonhereditary" => Limit::from_root(arena.size()),
        "linear" | "nonhereditary_linear" => limit_from(arena, start, num, ascends),
        _ => Limit::none(),
    }
}
