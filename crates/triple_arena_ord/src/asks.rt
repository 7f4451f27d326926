//! A search that asks a closure. It knows an arena by its trait alone: the check of the closure's
//! call grows with what is known.
ghost use Rattle.std.specs.Prelude.{◌≡◌, ◌+◌, ◌≤◌};
ghost use Rattle.std.specs.Option.{option_map};
ghost use Rattle.rank_tree.specs.Tree.{walk, rank_of};
ghost use Rattle.rank_tree.specs.Whole.{tree_of, IsWhole};
ghost use Rattle.triple_arena_ord.specs.Asked.{IsAsked};
ghost use Rattle.triple_arena_ord.specs.Node.{nodes_among, items_among};

use crate::SimpleOrdArenaNode;
use proof_marks::unreached;
use std::cmp::Ordering;
use triple_arena::{ArenaTrait, PtrCore};
use triple_arena_ptr::{OptionalInx, Probes};

/// Asks `f` on the way down from the root, and says what it answered last, and where. It is left in
/// the state that its last answer left.
pub(crate) fn ask_down<P, T, A, F>(
    arena: &A,
    root: Option<P::Inx>,
    f: &mut F,
    probes: &mut Probes,
) -> Option<(P, Ordering)>
where
    P: PtrCore,
    T: Drop,
    A: ArenaTrait<P, SimpleOrdArenaNode<P, T>>,
    F: FnMut(P, &T) -> Ordering,
    requires whole { IsWhole (nodes_among (A.entry_at arena.now)) (option_map P.Inx.number root) }
    requires callable { F.IsAlwaysCallable f.old }
    ensures asked { (asked : IsAsked P.index P.generation F.step
        (items_among (A.entry_at arena.now))
        (walk (tree_of (nodes_among (A.entry_at arena.now)) (option_map P.Inx.number root)))
        f.old result probes.old probes.new) × (asked.last ≡ f.new) }
    ensures bound { probes.new ≤ probes.old
        + rank_of (tree_of (nodes_among (A.entry_at arena.now)) (option_map P.Inx.number root)) }
{
    let mut link = OptionalInx::of(root);
    let mut place = None;
    'down: while let Some(i) = link.get() {
        let (generation, node) = match arena.get_inx(i) {
            Some(entry) => entry,
            None => unreached!(),
        };
        let left = node.p_tree0;
        let right = node.p_tree1;
        probes.tick();
        let p = P::_from_raw(i, generation);
        let answer = f(p, &node.t);
        place = Some((p, answer));
        if left.is_none() && right.is_none() {
            return place;
        }
        link = match answer {
            Ordering::Less => left,
            Ordering::Equal => OptionalInx::none(),
            Ordering::Greater => right,
        };
    }
    place
}
