//! An entry leaves the tree, and then the list.
ghost use Rattle.std.specs.Prelude.{◌≡◌, ℕ, length, Some, None, IsSome};
ghost use Rattle.std.specs.Option.{option_map};
ghost use Rattle.triple_arena_ptr.specs.Generation.{next_generation, next_wraps};
ghost use Rattle.triple_arena.specs.Content.{removed};
ghost use Rattle.triple_arena.specs.Entries.{without};
ghost use Rattle.linked_lists.specs.LinkedLists.{next_at};
ghost use Rattle.triple_arena_chain.specs.Links.{ends_in};
ghost use Rattle.triple_arena_ord.specs.Node.{nodes_in, items_in, rest};
ghost use Rattle.triple_arena_ord.specs.Ordered.{IsOrdered, order_in, ordered_by};
ghost use Rattle.triple_arena_ord.specs.Removal.{Loses, IsUprooted};

use crate::{OrdSlots, SimpleOrdArenaNode};
use proof_marks::recall;
use rank_tree::{NodeStore, bring_out, replace};
use triple_arena::{ArenaTrait, PtrCore, PtrInxCore};
use triple_arena_chain::ChainArena;

// What takes the place of a node that has this right child: the next one, or none if it has no
// right child.
fn moved_up<I: PtrInxCore>(right: Option<I>, next: Option<I>) -> Option<I>
    ensures none { right ≡ None → result ≡ None }
    ensures some { IsSome right → result ≡ next }
{
    match right {
        Some(_) => next,
        None => None,
    }
}

// A node leaves the tree, and its link stays. If it has a right child, the next one, which has no
// left child, takes its place.
fn uproot<P: PtrCore, T: Drop, S: OrdSlots<P, T>>(
    chains: &mut ChainArena<P, SimpleOrdArenaNode<P, T>, S>,
    root: &mut Option<P::Inx>,
    gone: P::Inx,
    next: Option<P::Inx>,
)
    requires ordered { IsOrdered (ordered_by P.Inx.number chains.old root.old) }
    requires lives { IsSome (nodes_in chains.old (P.Inx.number gone)) }
    requires next { next_at (ends_in chains.old) (P.Inx.number gone)
        ≡ option_map P.Inx.number next }
    ensures uprooted { IsUprooted (ordered_by P.Inx.number chains.old root.old)
        (ordered_by P.Inx.number chains.new root.new) (P.Inx.number gone) }
    ensures keeps { rest chains.new ≡ rest chains.old }
{
    recall!(chains.len());
    let links = chains.read(gone);
    let moved = moved_up(links.right, next);
    // There is one call of it, so that it is inlined.
    let out = moved.unwrap_or(gone);
    bring_out(chains, root, out);
    match moved {
        Some(successor) => replace(chains, root, gone, successor),
        None => {}
    }
}

// The entry at an index, which has this one after it, leaves the tree and the list. Its generation
// and its item are given back, and whether the generations wrapped.
#[inline(always)]
pub(crate) fn take_entry<P: PtrCore, T: Drop, S: OrdSlots<P, T>>(
    chains: &mut ChainArena<P, SimpleOrdArenaNode<P, T>, S>,
    root: &mut Option<P::Inx>,
    gone: P::Inx,
    next: Option<P::Inx>,
) -> ((P::Gen, T), bool)
    requires ordered { IsOrdered (ordered_by P.Inx.number chains.old root.old) }
    requires lives { IsSome (nodes_in chains.old (P.Inx.number gone)) }
    requires next { next_at (ends_in chains.old) (P.Inx.number gone)
        ≡ option_map P.Inx.number next }
    ensures ordered { IsOrdered (ordered_by P.Inx.number chains.new root.new) }
    ensures order { Loses (order_in (ordered_by P.Inx.number chains.old root.old))
        (order_in (ordered_by P.Inx.number chains.new root.new)) (P.Inx.number gone) }
    ensures entries { (k : ℕ)
        → items_in chains.new k ≡ without (items_in chains.old) (P.Inx.number gone) k }
    ensures value { Some (P.Gen.number result.0.0, result.0.1)
        ≡ items_in chains.old (P.Inx.number gone) }
    ensures overflow { result.1 ≡ next_wraps P.Gen.last chains.old.counter }
    ensures counter { chains.new.counter ≡ next_generation P.Gen.last chains.old.counter }
    ensures free { chains.new.free ≡ (removed P.Gen.last chains.old (P.Inx.number gone)).free }
    ensures slots { length chains.new.slots
        ≡ length (removed P.Gen.last chains.old (P.Inx.number gone)).slots }
    ensures room { chains.new.room ≡ chains.old.room }
{
    uproot(chains, root, gone, next);
    let ((generation, link), wrapped) = chains.take_inx_link_unwrap(gone);
    ((generation, link.t.t), wrapped)
}
