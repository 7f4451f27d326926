//! The calls of every arena, those of a list and those of a tree.
use crate::changing::{Writes, changes};
use crate::copied::{Copied, calls_copied};
use crate::entries::{PutsByEntry, enters};
use crate::finds::Finds;
use crate::growing::{Takes, grows};
use crate::insertions::{PutsIn, inserts};
use crate::lists::{TellsOfList, reads_list};
use crate::nodes::ShowsNodes;
use crate::places::searches;
use crate::tree::{TellsOfTree, reads_tree};
use crate::walks::{GoesAlong, goes_over};
use crate::work::Counting;
use std::fmt::Debug;
use test_kit::{Call, ShownPtr, Transcript};
use triple_arena::ArenaTrait;

/// Makes a call that every arena has, and says whether there is one of that name. The items are
/// those that the line stores at a pointer, and at an index.
pub fn call_any<P: ShownPtr, T: Copy + Debug, A: ArenaTrait<P, T>>(
    arena: &mut A,
    transcript: &mut Transcript,
    call: &Call<'_>,
    at_pointer: T,
    at_index: T,
) -> bool {
    script_calls::read(arena, transcript, call)
        || script_calls::change(arena, transcript, call, at_pointer, at_index)
}

/// Makes another call, which reads or changes a list.
pub fn call_list<A: TellsOfList + GoesAlong + Writes>(
    arena: &mut A,
    transcript: &mut Transcript,
    call: &Call<'_>,
) {
    if !(reads_list(arena, transcript, call)
        || goes_over(arena, transcript, call)
        || changes(arena, transcript, call))
    {
        transcript.answer(call.line, &"no such call");
    }
}

/// Makes another call, at an arena that is copied.
pub fn call_copied<A: Copied>(arena: &mut A, transcript: &mut Transcript, call: &Call<'_>) {
    if !calls_copied(arena, transcript, call) {
        transcript.answer(call.line, &"no such call");
    }
}

/// Makes another call, which tells of the tree, searches in it or puts something in.
pub fn call_tree<
    P: ShownPtr,
    K: Counting,
    A: PutsByEntry<K> + Finds<P, K> + PutsIn<K> + ShowsNodes<P> + TellsOfTree + Takes<P, K>,
>(arena: &mut A, transcript: &mut Transcript, call: &Call<'_>, zero: K) {
    if !(reads_tree(arena, transcript, call)
        || searches(arena, transcript, call, zero)
        || inserts(arena, transcript, call, zero)
        || grows(arena, transcript, call, zero)
        || enters(arena, transcript, call, zero))
    {
        transcript.answer(call.line, &"no such call");
    }
}
