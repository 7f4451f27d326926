//! What every chain arena does with its links.
ghost use Rattle.std.specs.Prelude.{◌≡◌, ◌+◌, ◌<◌, ◌↔◌, ℕ, Bool, List, length, None, Some, Option};
ghost use Rattle.std.specs.Prelude.{IsSome, IsTrue, IfSome, IfNone, OnErr, OnSome};
ghost use Rattle.std.specs.Prelude.{option_copied};
ghost use Rattle.std.specs.Option.{option_map};
ghost use Rattle.triple_arena_ptr.specs.Generation.{next_wraps, second_generation};
ghost use Rattle.triple_arena_ptr.specs.InvalidationOption.{value_of, overflowed};
ghost use Rattle.triple_arena_ptr.specs.InvalidationResult.{answer_of};
ghost use Rattle.triple_arena_stack.specs.Room.{Room};
ghost use Rattle.triple_arena.specs.Content.{Content, get, entry_at, live_count};
ghost use Rattle.triple_arena.specs.Content.{some_counter, removed, empty, reallocated};
ghost use Rattle.triple_arena.specs.Content.{invalidated, cleared};
ghost use Rattle.triple_arena.specs.Entries.{value_if};
ghost use Rattle.triple_arena_chain.specs.LinkShape.{IndexLink};
ghost use Rattle.linked_lists.specs.LinkedLists.{next_in, next_at, prev_at};
ghost use Rattle.triple_arena_chain.specs.Insertion.{InsertsWithinCapacity, InsertsReallocating};
ghost use Rattle.triple_arena_chain.specs.Links.{ends_in, ends_found, values_in, with_value_in};
ghost use Rattle.triple_arena_chain.specs.Links.{link_removed, gap_among, bridged_over};
ghost use Rattle.triple_arena_chain.specs.Links.{IsChained, IsTakenOut, Connects, BreaksNext};
ghost use Rattle.triple_arena_chain.specs.Links.{BreaksPrev, ExchangesNexts, HasNext, HasPrev};
ghost use Rattle.triple_arena_chain.specs.Links.{AreConnectable, HaveNexts};
ghost use Rattle.linked_lists.specs.Chains.{IsAppended, IsSplit, IsExchanged};
ghost use Rattle.triple_arena_chain.specs.Renaming.{IsCompacted};
ghost use Rattle.triple_arena_chain.specs.Values.{IsLivePtr};
ghost use Rattle.triple_arena_chain.specs.Walks.{ChainWalk, walk_from, IsWalkAlong, ChainSteps};

use crate::{Link, LinkInsertKind, LinkNoGen};
use triple_arena::{Advancer, ArenaTrait, InvalidationResult, PtrCore};
use triple_arena_ptr::ChainInsertionError;

/// The arenas whose entries are links in chains: each link is in one list or ring, once. What is
/// said of a call is said of the links, and of the lists that they stand in.
///
/// `ArenaTrait` has the calls on the values of the links.
pub trait ChainArenaTrait<P: PtrCore, T: Drop>: ArenaTrait<P, T> {
    /// What goes along the links of a chain.
    type ChainAdvancer: Advancer<Self, Item = P> + Drop;

    // The links as the words on chains ask for them.
    ghost links: { Self → Content (IndexLink T) };

    // Where an advancer is, and how it goes on.
    ghost chain_walk: { Self.ChainAdvancer → ChainWalk };

    /// The link that `p` points to, if it is live.
    fn get_link_no_gen(&self, p: P) -> Option<&LinkNoGen<P, T>>
        ensures { option_copied result ≡ get (links self.now) (P.index p) (P.generation p) };

    /// The generation and the link at an index, if it is live.
    fn get_inx_link_no_gen(&self, i: P::Inx) -> Option<(P::Gen, &LinkNoGen<P, T>)>
        ensures { option_map (λ e. (P.Gen.number e.0, e.1.now)) result
            ≡ entry_at (links self.now) (P.Inx.number i) };

    /// The link that `p` points to, if it is live, with whole pointers to its neighbors.
    fn get_link(&self, p: P) -> Option<Link<P, &T>>
        ensures value { option_map (λ l. l.t.now) result
            ≡ value_if (P.generation p) (values_in (links self.now) (P.index p)) }
        ensures interlinks { option_map
            (λ l. (option_map P.index l.prev, option_map P.index l.next)) result
            ≡ ends_found (links self.now) (P.index p) (P.generation p) }
        ensures live { IfSome result (λ l. IsLivePtr P.index P.generation (links self.now) l.prev
            × IsLivePtr P.index P.generation (links self.now) l.next) };

    /// Whether `q` is the next of `p`, if both are valid.
    fn are_neighbors(&self, p: P, q: P) -> bool
        ensures { IsTrue result
            ↔ ((next_in (ends_found (links self.now) (P.index p) (P.generation p))
            ≡ Some (P.index q))
            × IsSome (get (links self.now) (P.index q) (P.generation q))) };

    /// Whether the link at `j` is the next of the one at `i`.
    fn are_neighbors_inx(&self, i: P::Inx, j: P::Inx) -> bool
        ensures { IsTrue result
            ↔ (next_at (ends_in (links self.now)) (P.Inx.number i) ≡ Some (P.Inx.number j)) };

    /// Whether the links are as the kind requires.
    fn meets(&self, kind: &LinkInsertKind<P>) -> bool
        ensures { IsTrue result
            ↔ IsSome (gap_among P.index P.generation P.Inx.number (links self.now) kind.now) };

    /// A walk along the chain of the link that `p` points to, from there on, or `None` if `p` is
    /// not valid. It gives the pointers, one a call, to the links from that one on to the end and
    /// then backwards from the link before it, or once round a ring. The links are free between the
    /// calls; [`ChainPtrAdvancer`](crate::chain_iterators::ChainPtrAdvancer) says what changes
    /// between them do.
    fn advancer_chain(&self, p: P) -> Option<Self::ChainAdvancer>
        ensures variant { IsSome result
            ↔ IsSome (get (links self.now) (P.index p) (P.generation p)) }
        ensures from { IfSome result (λ a. chain_walk a ≡ walk_from (P.index p)) }
        ensures along { IfSome result (λ a. IsWalkAlong (ends_in (links self.now))
            (length (links self.now).slots + 1) (chain_walk a) (P.index p)) };

    /// Stores `t` in a link where the kind says, if there is room. `insert_within_capacity` calls
    /// it, and says what each error means. The kind is borrowed, since an implementation cannot
    /// take it by value today.
    fn insert_lent_within_capacity(
        &mut self,
        kind: &LinkInsertKind<P>,
        t: T,
    ) -> Result<P, ChainInsertionError>
        ensures inserts { InsertsWithinCapacity P.index P.generation P.Inx.number kind.now t result
            (links self.old) (links self.new) }
        ensures err { OnErr result (self.new ≡ self.old) };

    /// Stores `t` in a link where the kind says, and grows if there is no room.
    /// `insert_reallocating` calls it, and says what each error means. The kind is borrowed, since
    /// an implementation cannot take it by value today.
    fn insert_lent_reallocating(
        &mut self,
        kind: &LinkInsertKind<P>,
        t: T,
    ) -> Result<P, ChainInsertionError>
        ensures inserts { InsertsReallocating P.index P.generation P.Inx.number kind.now t result
            (links self.old) (links self.new) Self.takes_memory }
        ensures err { OnErr result (self.new ≡ self.old) };

    /// Makes `q` the next of `p`, if `p` is valid without a next and `q` is valid without a
    /// previous link. Else it returns `None` and changes nothing. The end and the start of one
    /// linear chain make a ring, also if `p` is `q`.
    fn connect(&mut self, p: P, q: P) -> Option<()>
        ensures variant { IsSome result ↔ AreConnectable P.index P.generation (links self.old) p q }
        ensures relinked { OnSome result
            (Connects (P.index p) (P.index q) (links self.old) (links self.new)) }
        ensures lists { OnSome result (IsAppended (P.index p) (P.index q)
            (ends_in (links self.old)) (ends_in (links self.new))) }
        ensures formed { IsChained (links self.new) }
        ensures none { IfNone result (self.new ≡ self.old) };

    /// Parts `p` from its next. It returns `None`, and changes nothing, if `p` is invalid or has no
    /// next.
    fn break_next(&mut self, p: P) -> Option<()>
        ensures variant { IsSome result ↔ HasNext P.index P.generation (links self.old) p }
        ensures relinked { OnSome result
            (BreaksNext (P.index p) (links self.old) (links self.new)) }
        ensures lists { OnSome result ((q : ℕ)
            → next_at (ends_in (links self.old)) (P.index p) ≡ Some q
            → IsSplit (P.index p) q (ends_in (links self.old)) (ends_in (links self.new))) }
        ensures formed { IsChained (links self.new) }
        ensures none { IfNone result (self.new ≡ self.old) };

    /// Parts `p` from its previous link. It returns `None`, and changes nothing, if `p` is invalid
    /// or has none.
    fn break_prev(&mut self, p: P) -> Option<()>
        ensures variant { IsSome result ↔ HasPrev P.index P.generation (links self.old) p }
        ensures relinked { OnSome result
            (BreaksPrev (P.index p) (links self.old) (links self.new)) }
        ensures lists { OnSome result ((q : ℕ)
            → prev_at (ends_in (links self.old)) (P.index p) ≡ Some q
            → IsSplit q (P.index p) (ends_in (links self.old)) (ends_in (links self.new))) }
        ensures formed { IsChained (links self.new) }
        ensures none { IfNone result (self.new ≡ self.old) };

    /// Gives `p` the next of `q`, and `q` that of `p`. It returns `None`, and changes nothing, if
    /// one of them is invalid or has no next.
    ///
    /// Two links of one ring make two rings of it, and two links of two rings one. If `q` is the
    /// next of `p`, it becomes a ring of one. If `p` is `q`, nothing changes.
    fn exchange_next(&mut self, p: P, q: P) -> Option<()>
        ensures variant { IsSome result ↔ HaveNexts P.index P.generation (links self.old) p q }
        ensures relinked { OnSome result
            (ExchangesNexts (P.index p) (P.index q) (links self.old) (links self.new)) }
        ensures lists { OnSome result (IsExchanged (P.index p) (P.index q)
            (ends_in (links self.old)) (ends_in (links self.new))) }
        ensures formed { IsChained (links self.new) }
        ensures none { IfNone result (self.new ≡ self.old) };

    /// Removes the link that `p` points to, joins its neighbors, and steps the counter. The link is
    /// given back with the interlinks that it had. It returns `InvalidPtr`, and changes nothing, if
    /// `p` points to none.
    fn remove_link_no_gen(&mut self, p: P) -> InvalidationResult<LinkNoGen<P, T>>
        ensures value { option_map value_of (answer_of result)
            ≡ get (links self.old) (P.index p) (P.generation p) }
        ensures overflow { IfSome (answer_of result)
            (λ a. overflowed a ≡ next_wraps P.Gen.last (links self.old).counter) }
        ensures taken { OnSome (answer_of result) (IsTakenOut P.Gen.last
            (P.index p) (links self.old) (links self.new)) }
        ensures exact { IfSome (answer_of result) (λ a. links self.new ≡ removed P.Gen.last
            (bridged_over (links self.old) (value_of a)) (P.index p)) }
        ensures formed { IsChained (links self.new) }
        ensures invalid { IfNone (answer_of result) (self.new ≡ self.old) };

    /// Removes the link at an index, joins its neighbors, and steps the counter. The link is given
    /// back with the interlinks that it had. It returns `InvalidPtr`, and changes nothing, if the
    /// index is not live.
    fn remove_inx_link_no_gen(&mut self, i: P::Inx) -> InvalidationResult<(P::Gen, LinkNoGen<P, T>)>
        ensures value { option_map (λ a. (P.Gen.number (value_of a).0, (value_of a).1))
            (answer_of result) ≡ entry_at (links self.old) (P.Inx.number i) }
        ensures overflow { IfSome (answer_of result)
            (λ a. overflowed a ≡ next_wraps P.Gen.last (links self.old).counter) }
        ensures taken { OnSome (answer_of result) (IsTakenOut P.Gen.last
            (P.Inx.number i) (links self.old) (links self.new)) }
        ensures exact { IfSome (answer_of result) (λ a. links self.new ≡ removed P.Gen.last
            (bridged_over (links self.old) (value_of a).1) (P.Inx.number i)) }
        ensures formed { IsChained (links self.new) }
        ensures invalid { IfNone (answer_of result) (self.new ≡ self.old) };

    // The values of the links are the arena's, and so are the counter and the room.
    ghost links_entries: { (s : Self) (i : ℕ) → values_in (links s) i ≡ Self.entry_at s i };

    ghost links_live: { (s : Self) → live_count (links s) ≡ Self.live_count s };

    ghost links_counter: { (s : Self) → some_counter (links s) ≡ Self.counter s };

    ghost links_room: { (s : Self) → (links s).room ≡ Self.room s };

    ghost links_chained: { (s : Self) → Self.is_formed s → IsChained (links s) };

    // What a step of an advancer gives and leaves.
    ghost advances_along: { (before : Self.ChainAdvancer) (s : Self) (given : Option P)
        (after : Self.ChainAdvancer)
        → Self.ChainAdvancer.advance_gives before s given after
        → ChainSteps (ends_in (links s)) (values_in (links s)) (chain_walk before)
        (option_map (λ p. (P.index p, P.generation p)) given) (chain_walk after) };

    // The links that the calls of `ArenaTrait` leave.
    ghost links_empty: { (room : Room)
        → links (Self.empty room) ≡ empty (second_generation P.Gen.last) room };

    ghost links_reallocated: { (s : Self) (n : ℕ)
        → links (Self.reallocated s n) ≡ reallocated (links s) n };

    ghost links_with_value: { (s : Self) (i : ℕ) (t : T)
        → links (Self.with_value s i t) ≡ with_value_in (links s) i t };

    ghost links_removed: { (s : Self) (i : ℕ) (new : Self) → Self.is_removed s i new
        → links new ≡ link_removed P.Gen.last (links s) i };

    ghost links_invalidated: { (s : Self) (i : ℕ)
        → links (Self.invalidated s i) ≡ invalidated P.Gen.last (links s) i };

    ghost links_cleared: { (s : Self) → links (Self.cleared s) ≡ cleared P.Gen.last (links s) };

    ghost links_compressed: { (s : Self) (reset : Bool) (values : List T) (new : Self)
        → Self.is_compressed s reset values new
        → IsCompacted P.Gen.last reset values (links s) (links new) };

    /// Stores `t` in a link where the kind says, if there is room. It returns
    /// `FailedLinkRequirement` if the links are not as the kind requires, and else
    /// `NotWithinCapacity` if there is no room. The links stay as they are then, and `t` is
    /// dropped.
    #[inline(always)]
    final fn insert_within_capacity(
        &mut self,
        kind: LinkInsertKind<P>,
        t: T,
    ) -> Result<P, ChainInsertionError>
        ensures inserts { InsertsWithinCapacity P.index P.generation P.Inx.number kind t result
            (links self.old) (links self.new) }
        ensures err { OnErr result (self.new ≡ self.old) }
    {
        self.insert_lent_within_capacity(&kind, t)
    }

    /// Stores `t` in a link where the kind says. If there is no room, the arena grows: to room for
    /// 4 at first, then for the double, and never past its greatest capacity.
    ///
    /// It returns `FailedLinkRequirement` if the links are not as the kind requires, and else
    /// `BeyondMaxCapacity` if as many links are live as the greatest capacity, and `AllocError` if
    /// the memory was refused. The links and the room stay as they are then, and `t` is dropped.
    #[inline(always)]
    final fn insert_reallocating(
        &mut self,
        kind: LinkInsertKind<P>,
        t: T,
    ) -> Result<P, ChainInsertionError>
        ensures inserts { InsertsReallocating P.index P.generation P.Inx.number kind t result
            (links self.old) (links self.new) Self.takes_memory }
        ensures err { OnErr result (self.new ≡ self.old) }
    {
        self.insert_lent_reallocating(&kind, t)
    }

    /// Stores `t` in a link where the kind says. The links must be as the kind requires. If there
    /// is no room, the arena grows. It returns `BeyondMaxCapacity` if as many links are live as the
    /// greatest capacity, and `AllocError` if the memory was refused. The links and the room stay
    /// as they are then, and `t` is dropped.
    #[inline(always)]
    final fn insert(&mut self, kind: LinkInsertKind<P>, t: T) -> Result<P, ChainInsertionError>
        requires { IsSome (gap_among P.index P.generation P.Inx.number (links self.old) kind) }
        ensures inserts { InsertsReallocating P.index P.generation P.Inx.number kind t result
            (links self.old) (links self.new) Self.takes_memory }
        ensures err { OnErr result (self.new ≡ self.old) }
    {
        self.insert_reallocating(kind, t)
    }
}
