//! Interlinks, read and changed.
ghost use Rattle.std.specs.Prelude.{◌≡◌, ◌↔◌, ℕ, Some, IsSome, IsTrue, IfSome, IfNone};
ghost use Rattle.std.specs.Prelude.{OnSome};
ghost use Rattle.std.specs.Option.{option_map};
ghost use Rattle.triple_arena.specs.Content.{get};
ghost use Rattle.triple_arena.specs.Entries.{value_if};
ghost use Rattle.linked_lists.specs.LinkedLists.{next_in, next_at, prev_at};
ghost use Rattle.triple_arena_chain.specs.Links.{ends_in, ends_found, values_in};
ghost use Rattle.triple_arena_chain.specs.Links.{IsChained, Connects, BreaksNext, BreaksPrev};
ghost use Rattle.triple_arena_chain.specs.Links.{ExchangesNexts, HasNext, HasPrev, AreConnectable};
ghost use Rattle.triple_arena_chain.specs.Links.{HaveNexts};
ghost use Rattle.linked_lists.specs.Chains.{IsAppended, IsSplit, IsExchanged};
ghost use Rattle.triple_arena_chain.specs.Values.{IsLivePtr};

use triple_arena::PtrCore;
use triple_arena_chain::{ChainArenaTrait, Link};

/// The link of a pointer, with whole pointers to its neighbors.
pub fn get_link<P: PtrCore, T: Drop, C: ChainArenaTrait<P, T>>(
    chains: &C,
    p: P,
) -> Option<Link<P, &T>>
    ensures value { option_map (λ l. l.t.now) result
        ≡ value_if (P.generation p) (values_in (C.links chains.now) (P.index p)) }
    ensures interlinks { option_map
        (λ l. (option_map P.index l.prev, option_map P.index l.next)) result
        ≡ ends_found (C.links chains.now) (P.index p) (P.generation p) }
    ensures live { IfSome result (λ l. IsLivePtr P.index P.generation (C.links chains.now) l.prev
        × IsLivePtr P.index P.generation (C.links chains.now) l.next) }
{
    let link = chains.get_link(p);
    link
}

/// Whether `q` is the next of `p`.
pub fn are_neighbors<P: PtrCore, T: Drop, C: ChainArenaTrait<P, T>>(chains: &C, p: P, q: P) -> bool
    ensures { IsTrue result
        ↔ ((next_in (ends_found (C.links chains.now) (P.index p) (P.generation p))
        ≡ Some (P.index q))
        × IsSome (get (C.links chains.now) (P.index q) (P.generation q))) }
{
    let are = chains.are_neighbors(p, q);
    are
}

/// Makes `q` the next of `p`.
pub fn connect<P: PtrCore, T: Drop, C: ChainArenaTrait<P, T>>(
    chains: &mut C,
    p: P,
    q: P,
) -> Option<()>
    ensures variant { IsSome result ↔ AreConnectable P.index P.generation (C.links chains.old) p q }
    ensures relinked { OnSome result
        (Connects (P.index p) (P.index q) (C.links chains.old) (C.links chains.new)) }
    ensures lists { OnSome result (IsAppended (P.index p) (P.index q)
        (ends_in (C.links chains.old)) (ends_in (C.links chains.new))) }
    ensures formed { IsChained (C.links chains.new) }
    ensures none { IfNone result (chains.new ≡ chains.old) }
{
    let connected = chains.connect(p, q);
    connected
}

/// Parts `p` from its next.
pub fn break_next<P: PtrCore, T: Drop, C: ChainArenaTrait<P, T>>(chains: &mut C, p: P) -> Option<()>
    ensures variant { IsSome result ↔ HasNext P.index P.generation (C.links chains.old) p }
    ensures relinked { OnSome result
        (BreaksNext (P.index p) (C.links chains.old) (C.links chains.new)) }
    ensures lists { OnSome result ((q : ℕ)
        → next_at (ends_in (C.links chains.old)) (P.index p) ≡ Some q
        → IsSplit (P.index p) q (ends_in (C.links chains.old)) (ends_in (C.links chains.new))) }
    ensures formed { IsChained (C.links chains.new) }
    ensures none { IfNone result (chains.new ≡ chains.old) }
{
    let parted = chains.break_next(p);
    parted
}

/// Parts `p` from its previous link.
pub fn break_prev<P: PtrCore, T: Drop, C: ChainArenaTrait<P, T>>(chains: &mut C, p: P) -> Option<()>
    ensures variant { IsSome result ↔ HasPrev P.index P.generation (C.links chains.old) p }
    ensures relinked { OnSome result
        (BreaksPrev (P.index p) (C.links chains.old) (C.links chains.new)) }
    ensures lists { OnSome result ((q : ℕ)
        → prev_at (ends_in (C.links chains.old)) (P.index p) ≡ Some q
        → IsSplit q (P.index p) (ends_in (C.links chains.old)) (ends_in (C.links chains.new))) }
    ensures formed { IsChained (C.links chains.new) }
    ensures none { IfNone result (chains.new ≡ chains.old) }
{
    let opened = chains.break_prev(p);
    opened
}

/// Gives `p` the next of `q`, and `q` that of `p`.
pub fn exchange_next<P: PtrCore, T: Drop, C: ChainArenaTrait<P, T>>(
    chains: &mut C,
    p: P,
    q: P,
) -> Option<()>
    ensures variant { IsSome result ↔ HaveNexts P.index P.generation (C.links chains.old) p q }
    ensures relinked { OnSome result
        (ExchangesNexts (P.index p) (P.index q) (C.links chains.old) (C.links chains.new)) }
    ensures lists { OnSome result (IsExchanged (P.index p) (P.index q)
        (ends_in (C.links chains.old)) (ends_in (C.links chains.new))) }
    ensures formed { IsChained (C.links chains.new) }
    ensures none { IfNone result (chains.new ≡ chains.old) }
{
    let exchanged = chains.exchange_next(p, q);
    exchanged
}
