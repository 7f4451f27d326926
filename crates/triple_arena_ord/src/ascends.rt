//! Whether the keys ascend along the list.
ghost use Rattle.std.specs.Prelude.{◌≡◌, ◌≤◌, ◌↔◌, ℕ, List, Some, None, IsSome, IsTrue, length, ⊤};
ghost use Rattle.std.specs.Option.{option_map};
ghost use Rattle.triple_arena.specs.Content.{entry_at};
ghost use Rattle.linked_lists.specs.LinkedLists.{IsLinear, first_or};
ghost use Rattle.triple_arena_chain.specs.Links.{ends_in};
ghost use Rattle.triple_arena_ord.specs.Node.{items_in};
ghost use Rattle.triple_arena_ord.specs.Ascending.{AscendsAlong};

use crate::links::Links;
use crate::{SimpleOrdArenaNode, SimpleOrdItem};
use proof_marks::unreached;
use std::cmp::Ordering;
use triple_arena::{PtrCore, PtrInxCore};
use triple_arena_chain::LinkNoGen;

// The link at an index that is live.
fn link_at<P, T, A>(arena: &A, i: P::Inx) -> &LinkNoGen<P, SimpleOrdArenaNode<P, T>>
where
    P: PtrCore,
    T: Drop,
    A: Links<P, T>,
    requires live { IsSome (entry_at (A.links arena.now) (P.Inx.number i)) }
    requires no_more { ⊤ }
    ensures { option_map (λ e. e.1) (entry_at (A.links arena.now) (P.Inx.number i))
        ≡ Some result.now }
{
    match arena.link_entry(i) {
        Some((_, link)) => link,
        None => unreached!(),
    }
}

/// Whether no key is greater than the next one, along a list with this first index and at most
/// `most` indexes.
pub(crate) fn ascends<P, T, A>(arena: &A, first: P::Inx, most: usize) -> bool
where
    P: PtrCore,
    T: SimpleOrdItem + Drop,
    A: Links<P, T>,
    requires { (w : List ℕ) × IsLinear (ends_in (A.links arena.now)) w
        × (first_or w None ≡ Some (P.Inx.number first)) × (length w ≤ most) }
    ensures { (w : List ℕ) → IsLinear (ends_in (A.links arena.now)) w
        → first_or w None ≡ Some (P.Inx.number first)
        → length w ≤ most → IsTrue result
        ↔ AscendsAlong T.Key.cmp T.key_of (items_in (A.links arena.now)) w }
{
    let mut link = link_at::<P, T, A>(arena, first);
    'along: for _done in 1..most {
        let Some(i) = link.next() else {
            return true;
        };
        let next = link_at::<P, T, A>(arena, i);
        match link.t.t.key().cmp(next.t.t.key()) {
            Ordering::Greater => return false,
            _ => link = next,
        }
    }
    true
}
