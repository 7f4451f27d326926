//! Whether the tree of an arena agrees with its list, seen from outside: by the nodes that are
//! borrowed from the arena.
use crate::nodes::{Node, ShowsNodes};
use crate::work::most;
use triple_arena::{PtrCore, PtrInxCore};

// More than the longest list of a script.
const LONGEST: u64 = 2048;

// More than the longest path in its tree.
const HIGHEST: u64 = 64;

// What a walk along the list has seen: where it is, the entry before, how many entries and roots,
// and what is wrong.
#[derive(Clone, Copy)]
struct Seen<I: PtrInxCore> {
    at: Option<I>,
    before: Option<I>,
    count: u64,
    roots: u64,
    fault: &'static str,
}

/// Says that tree and list agree, or what is wrong: an index that is not live, neighbors that
/// disagree, a child that does not know its parent, a rank against the rules, or an entry whose
/// next one is not its successor in the tree.
pub fn check<P: PtrCore, A: ShowsNodes<P>>(arena: &A) -> &'static str {
    let mut seen = Seen {
        at: arena.start(),
        before: None,
        count: 0,
        roots: 0,
        fault: "",
    };
    for _ in 0..LONGEST {
        seen = see(arena, &seen);
    }
    if seen.fault != "" {
        seen.fault
    } else if seen.count != arena.size() || seen.before != arena.end() {
        "the list is not whole"
    } else if seen.roots != seen.count.min(1) {
        "there is not one root"
    } else {
        "tree and list agree"
    }
}

// Looks at one entry more, if there is one and nothing is wrong.
fn see<P: PtrCore, A: ShowsNodes<P>>(arena: &A, seen: &Seen<P::Inx>) -> Seen<P::Inx> {
    match seen.at {
        Some(i) => Seen {
            at: next_of(arena, i),
            before: Some(i),
            count: seen.count.saturating_add(1),
            roots: seen.roots.saturating_add(is_root(arena, i) as u64),
            fault: first_fault(seen.fault, fault_at(arena, i, seen.before)),
        },
        None => Seen {
            at: None,
            before: seen.before,
            count: seen.count,
            roots: seen.roots,
            fault: seen.fault,
        },
    }
}

fn first_fault(first: &'static str, second: &'static str) -> &'static str {
    if first == "" { second } else { first }
}

fn next_of<P: PtrCore, A: ShowsNodes<P>>(arena: &A, i: P::Inx) -> Option<P::Inx> {
    match arena.node(i) {
        Some(node) => node.next,
        None => None,
    }
}

fn parent_of<P: PtrCore, A: ShowsNodes<P>>(arena: &A, i: P::Inx) -> Option<P::Inx> {
    match arena.node(i) {
        Some(node) => node.parent,
        None => None,
    }
}

fn left_of<P: PtrCore, A: ShowsNodes<P>>(arena: &A, i: P::Inx) -> Option<P::Inx> {
    match arena.node(i) {
        Some(node) => node.left,
        None => None,
    }
}

fn is_root<P: PtrCore, A: ShowsNodes<P>>(arena: &A, i: P::Inx) -> bool {
    parent_of(arena, i).is_none()
}

// What is wrong with an entry, if anything is.
fn fault_at<P: PtrCore, A: ShowsNodes<P>>(
    arena: &A,
    i: P::Inx,
    before: Option<P::Inx>,
) -> &'static str {
    match arena.node(i) {
        Some(node) => fault_of(arena, i, &node, before),
        None => "an index of the list is not live",
    }
}

fn fault_of<P: PtrCore, A: ShowsNodes<P>>(
    arena: &A,
    i: P::Inx,
    node: &Node<P::Inx>,
    before: Option<P::Inx>,
) -> &'static str {
    if node.prev != before {
        "two neighbors disagree"
    } else if !knows(arena, i, node.left) || !knows(arena, i, node.right) {
        "a child does not know its parent"
    } else if !is_child(arena, i, node.parent) {
        "a parent does not know its child"
    } else if !is_ranked(arena, node) {
        "a rank is against the rules"
    } else if successor(arena, i, node) != node.next {
        "the next entry is not the successor in the tree"
    } else {
        ""
    }
}

// Whether a child, if there is one, has this parent.
fn knows<P: PtrCore, A: ShowsNodes<P>>(arena: &A, parent: P::Inx, child: Option<P::Inx>) -> bool {
    match child {
        Some(child) => parent_of(arena, child) == Some(parent),
        None => true,
    }
}

// Whether a parent, if there is one, has this child, on one side.
fn is_child<P: PtrCore, A: ShowsNodes<P>>(
    arena: &A,
    child: P::Inx,
    parent: Option<P::Inx>,
) -> bool {
    match parent {
        Some(parent) => match arena.node(parent) {
            Some(parent) => (parent.left == Some(child)) != (parent.right == Some(child)),
            None => false,
        },
        None => true,
    }
}

// The rank at an index, which is 0 if there is none.
fn rank<P: PtrCore, A: ShowsNodes<P>>(arena: &A, i: Option<P::Inx>) -> u8 {
    match i {
        Some(i) => match arena.node(i) {
            Some(node) => node.rank,
            None => 0,
        },
        None => 0,
    }
}

// Whether the rank is above that of each child by 1 or 2, is 1 without children, and, at the root,
// is no more than a search may compare.
fn is_ranked<P: PtrCore, A: ShowsNodes<P>>(arena: &A, node: &Node<P::Inx>) -> bool {
    let left = node.rank.wrapping_sub(rank(arena, node.left));
    let right = node.rank.wrapping_sub(rank(arena, node.right));
    let is_leaf = node.left.is_none() && node.right.is_none();
    let is_above = 0 < left && left <= 2 && 0 < right && right <= 2;
    let is_low = node.parent.is_some() || node.rank as u64 <= most(arena.size());
    is_above && is_low && (!is_leaf || node.rank == 1)
}

// The index of the entry after this one in the order of the tree.
fn successor<P: PtrCore, A: ShowsNodes<P>>(
    arena: &A,
    i: P::Inx,
    node: &Node<P::Inx>,
) -> Option<P::Inx> {
    match node.right {
        Some(right) => Some(leftmost(arena, right)),
        None => first_above(arena, i, node.parent),
    }
}

// The first entry below an index.
fn leftmost<P: PtrCore, A: ShowsNodes<P>>(arena: &A, below: P::Inx) -> P::Inx {
    let mut below = below;
    for _ in 0..HIGHEST {
        below = left_of(arena, below).unwrap_or(below);
    }
    below
}

// The nearest entry above an index whose left side has it.
fn first_above<P: PtrCore, A: ShowsNodes<P>>(
    arena: &A,
    i: P::Inx,
    parent: Option<P::Inx>,
) -> Option<P::Inx> {
    let mut way = (i, parent);
    for _ in 0..HIGHEST {
        way = step_up(arena, way);
    }
    way.1
}

// One step up from an index to its parent, unless it is the left child.
fn step_up<P: PtrCore, A: ShowsNodes<P>>(
    arena: &A,
    way: (P::Inx, Option<P::Inx>),
) -> (P::Inx, Option<P::Inx>) {
    match way.1 {
        Some(parent) => {
            if left_of(arena, parent) == Some(way.0) {
                way
            } else {
                (parent, parent_of(arena, parent))
            }
        }
        None => way,
    }
}
