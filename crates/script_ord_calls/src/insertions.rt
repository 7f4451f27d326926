//! The calls that put an item in where its key belongs, or at an entry.
use crate::nodes::ShowsNodes;
use crate::work::{Counting, Limit, Since};
use std::cmp::Ordering;
use std::fmt::Debug;
use test_kit::{Call, Transcript};
use triple_arena::PtrCore;

/// A place that is known: that of the only entry, or beside the entry of the third number.
pub enum KnownPlace {
    Alone,
    Before,
    After,
}

/// What puts an item of a key and a value in and tells of it: where the key belongs, with so many
/// comparisons, or at an entry.
pub trait PutsIn<K> {
    fn puts(&mut self, transcript: &mut Transcript, line: &str, item: &(K, u64), limit: Limit);

    fn puts_reallocating(
        &mut self,
        transcript: &mut Transcript,
        line: &str,
        item: &(K, u64),
        limit: Limit,
    );

    fn puts_within_capacity(
        &mut self,
        transcript: &mut Transcript,
        line: &str,
        item: &(K, u64),
        limit: Limit,
    );

    /// If no entry has the key; else that entry stays, and the item comes back.
    fn gets_or_puts(
        &mut self,
        transcript: &mut Transcript,
        line: &str,
        item: &(K, u64),
        limit: Limit,
    );

    /// At the index of the third number, if it is live. No key is compared.
    fn puts_at(
        &mut self,
        transcript: &mut Transcript,
        call: &Call<'_>,
        item: &(K, u64),
        direction: Ordering,
    );

    /// At a place that is known, if it is there and there is room. No key is compared.
    fn puts_at_within_capacity(
        &mut self,
        transcript: &mut Transcript,
        call: &Call<'_>,
        item: &(K, u64),
        place: KnownPlace,
    );
}

/// Tells the answer of an insertion, and of its comparisons.
pub fn tell<A: Debug, K: Counting>(
    transcript: &mut Transcript,
    line: &str,
    answer: &A,
    limit: Limit,
    since: &Since<K>,
) {
    let comparisons = since.count();
    transcript.answer(line, &(answer, limit.held(comparisons, comparisons)));
}

/// Makes such a call, and says whether there is one of that name.
pub fn inserts<P: PtrCore, K: Counting, A: PutsIn<K> + ShowsNodes<P>>(
    arena: &mut A,
    transcript: &mut Transcript,
    call: &Call<'_>,
    zero: K,
) -> bool {
    let new = (zero.with(call.first), call.second);
    let limit = Limit::from_root(arena.size());
    match call.verb {
        "insert" => arena.puts(transcript, call.line, &new, limit),
        "insert_reallocating" => arena.puts_reallocating(transcript, call.line, &new, limit),
        "insert_within_capacity" => arena.puts_within_capacity(transcript, call.line, &new, limit),
        "get_or_insert_counted" => arena.gets_or_puts(transcript, call.line, &new, limit),
        "insert_inx_manual:less" => arena.puts_at(transcript, call, &new, Ordering::Less),
        "insert_inx_manual:equal" => arena.puts_at(transcript, call, &new, Ordering::Equal),
        "insert_inx_manual:greater" => arena.puts_at(transcript, call, &new, Ordering::Greater),
        "insert_inx_manual_within_capacity:none" => {
            arena.puts_at_within_capacity(transcript, call, &new, KnownPlace::Alone)
        }
        "insert_inx_manual_within_capacity:less" => {
            arena.puts_at_within_capacity(transcript, call, &new, KnownPlace::Before)
        }
        "insert_inx_manual_within_capacity:greater" => {
            arena.puts_at_within_capacity(transcript, call, &new, KnownPlace::After)
        }
        _ => return false,
    }
    true
}
