//! Searches along the list.
ghost use Rattle.std.specs.Prelude.{◌≡◌, ◌≢◌, ◌+◌, ◌≤◌, ℕ, List, None, IfSome, ⊤};
ghost use Rattle.std.specs.Option.{option_map};
ghost use Rattle.linked_lists.specs.LinkedLists.{IsLinear, On};
ghost use Rattle.triple_arena_chain.specs.Links.{ends_in, link_ends};
ghost use Rattle.triple_arena_ord.specs.Near.{IsStop, IsWalked, path_from, asked_in};
ghost use Rattle.triple_arena_ord.specs.Near.{IsPartedAtHand};
ghost use Rattle.triple_arena_ord.specs.Near.{onward as onward_of};

use crate::SimpleOrdItem;
use crate::links::Links;
use proof_marks::unreached;
use std::cmp::Ordering;
use triple_arena::{PtrCore, PtrInxCore};
use triple_arena_chain::IndexLink;
use triple_arena_ptr::{OptionalInx, Probes};

// Where a search along the list goes from a link that answered so, after it went `way`: nowhere, if
// it ends.
fn onward<I: PtrInxCore<Word = W>, W: Copy, N>(
    link: &IndexLink<OptionalInx<I, W>, N>,
    way: Ordering,
    answer: Ordering,
) -> Option<I>
    ensures { option_map I.number result ≡ onward_of way answer (link_ends link.now) }
{
    match answer {
        Ordering::Less => match way {
            Ordering::Greater => None,
            _ => link.prev(),
        },
        Ordering::Equal => None,
        Ordering::Greater => match way {
            Ordering::Less => None,
            _ => link.next(),
        },
    }
}

/// Goes along the list from an index that stands there, for at most `num` comparisons, up to an
/// equal key, to where the key belongs, or to an end of the list, and says what the key compared as
/// there.
pub(crate) fn walk_from<P, T, A>(
    arena: &A,
    start: P::Inx,
    num: usize,
    k: &T::Key,
    probes: &mut Probes,
) -> Option<(P::Inx, Ordering)>
where
    P: PtrCore,
    T: SimpleOrdItem + Drop,
    A: Links<P, T>,
    requires place { (w : List ℕ) × IsLinear (ends_in (A.links arena.now)) w
        × On w (P.Inx.number start) }
    requires no_more { ⊤ }
    ensures stops { (w : List ℕ) → IsLinear (ends_in (A.links arena.now)) w
        → On w (P.Inx.number start)
        → IfSome result (λ a. IsStop (asked_in T.Key.cmp T.key_of k.now (A.links arena.now)) w
        (P.Inx.number a.0) a.1) }
    ensures near { (w : List ℕ) → IsLinear (ends_in (A.links arena.now)) w
        → On w (P.Inx.number start)
        → IsPartedAtHand num (asked_in T.Key.cmp T.key_of k.now (A.links arena.now)) w
        (P.Inx.number start) → result ≢ None }
    ensures walked { (w : List ℕ) → IsLinear (ends_in (A.links arena.now)) w
        → (on : On w (P.Inx.number start))
        → IsWalked num (path_from (asked_in T.Key.cmp T.key_of k.now (A.links arena.now)) on)
        (option_map (λ a. P.Inx.number a.0) result) probes.old probes.new }
    ensures rises { probes.old ≤ probes.new }
    ensures ticks { probes.new ≤ probes.old + num }
{
    let mut i = start;
    let mut way = Ordering::Equal;
    'along: for _made in 0..num {
        let link = match arena.link_entry(i) {
            Some((_, link)) => link,
            None => unreached!(),
        };
        probes.tick();
        let answer = k.cmp(link.t.t.key());
        match onward(link, way, answer) {
            Some(next) => {
                i = next;
                way = answer;
            }
            None => return Some((i, answer)),
        }
    }
    None
}
