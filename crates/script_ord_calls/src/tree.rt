//! The calls that tell of the tree and of its nodes, and the one that lays them out anew.
use crate::agreement::check;
use crate::nodes::ShowsNodes;
use crate::work::most;
use test_kit::{Call, ShownPtr, Transcript};

/// What tells of itself and of its tree.
pub trait TellsOfTree {
    fn tell_generation(&self, transcript: &mut Transcript, line: &str);

    fn tell_invariants(&self, transcript: &mut Transcript, line: &str);

    /// Lays the entries out anew, in the order of the list.
    fn lay_out(&mut self, transcript: &mut Transcript, call: &Call<'_>);
}

/// Makes such a call, and says whether there is one of that name.
pub fn reads_tree<P: ShownPtr, A: ShowsNodes<P> + TellsOfTree>(
    arena: &mut A,
    transcript: &mut Transcript,
    call: &Call<'_>,
) -> bool {
    let line = call.line;
    match call.verb {
        "generation" => arena.tell_generation(transcript, line),
        "check" => transcript.answer(line, &check(arena)),
        "_check_invariants" => arena.tell_invariants(transcript, line),
        "get_inx_node" => tell_node(arena, transcript, call),
        "rank" => tell_rank(arena, transcript, call),
        "compress_canonical" => arena.lay_out(transcript, call),
        "most_comparisons" => transcript.answer(line, &most(call.first)),
        _ => return false,
    }
    true
}

// The generation, the neighbors, the item, the parent and the children at an index.
fn tell_node<P: ShownPtr, A: ShowsNodes<P>>(
    arena: &A,
    transcript: &mut Transcript,
    call: &Call<'_>,
) {
    match arena.ptr(call.index()) {
        Some(p) => tell_entry(arena, transcript, call.line, p),
        None => transcript.answer(call.line, &"not live"),
    }
}

fn tell_entry<P: ShownPtr, A: ShowsNodes<P>>(
    arena: &A,
    transcript: &mut Transcript,
    line: &str,
    p: P,
) {
    match arena.node(p.inx()) {
        Some(node) => {
            let ends = (node.prev, node.next);
            transcript.answer(line, &(p.generation(), ends, (node.key, node.value)));
            transcript.answer(line, &(node.parent, node.left, node.right));
        }
        None => transcript.answer(line, &"not live"),
    }
}

// The rank at an index.
fn tell_rank<P: ShownPtr, A: ShowsNodes<P>>(
    arena: &A,
    transcript: &mut Transcript,
    call: &Call<'_>,
) {
    match arena.node(call.index()) {
        Some(node) => transcript.answer(call.line, &node.rank),
        None => transcript.answer(call.line, &"not live"),
    }
}
