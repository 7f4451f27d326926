//! What follows from the calls of a chain arena.
ghost use Rattle.std.specs.Prelude.{◌≡◌, ◌↔◌, ℕ, Bool, List, [], ◌∷◌, ◌++◌, Option, Some, IsSome};
ghost use Rattle.triple_arena.specs.Content.{Content, invalidated, with_limit};
ghost use Rattle.triple_arena.specs.Recasting.{content_recasted};
ghost use Rattle.triple_arena_chain.specs.CanonicalLayout.{IsCanonical};
ghost use Rattle.triple_arena_chain.specs.CanonicalTransfer.{AreInOrder};
ghost use Rattle.triple_arena_chain.specs.declared.kind.InsertKind.TheVariants.{NextTo};
ghost use Rattle.triple_arena_chain.specs.declared.kind.InsertKind.TheVariants.{PrevTo};
ghost use Rattle.triple_arena_chain.specs.LinkRecasting.{link_items, link_recasted};
ghost use Rattle.triple_arena_chain.specs.LinkShape.{IndexLink};
ghost use Rattle.linked_lists.specs.LinkedLists.{Ends, next_at, IsLinear, IsRing, On, Apart};
ghost use Rattle.linked_lists.specs.Chains.{Chain, members, IsChainOf, AreChains};
ghost use Rattle.triple_arena_chain.specs.Runs.{IsRunFrom};
ghost use Rattle.triple_arena_chain.specs.Walks.{IsWalkFrom};
ghost use Rattle.triple_arena_chain.specs.Links.{ends_in, with_value_in};
ghost use Rattle.triple_arena_chain.specs.Links.{IsChained, IsStoredAt, IsTakenOut, IsRestored};
ghost use Rattle.triple_arena_chain.specs.Links.{Connects, BreaksNext, ExchangesNexts, HasNext};
ghost use Rattle.triple_arena_chain.specs.Links.{HaveNexts, AreConnectable, SameLinks};
ghost use Rattle.linked_lists.specs.UniquenessLaws.{IsInOneChain};

use triple_arena::{PtrCore, Recast};

/// Each live index stands in exactly one chain, once.
pub fn links_stand_in_one_chain<P: PtrCore, T>()
    ensures { (c : Content (IndexLink T)) (i : ℕ) → IsChained c
        → IsSome (ends_in c i) → IsInOneChain (ends_in c) i }
{}

/// The links stand in chains, of which each live index is in one, once. A ring is written from its
/// least index.
pub fn links_make_chains<P: PtrCore, T>()
    ensures { (c : Content (IndexLink T)) → IsChained c
        → (chains : List Chain) × AreChains (ends_in c) chains }
{}

/// Two chains that share an index have the same indexes, and two that are linear are one.
pub fn chains_that_share_are_one()
    ensures members { (ends : ℕ → Option Ends) (c d : Chain) (k j : ℕ) → IsChainOf ends c
        → IsChainOf ends d
        → On (members c) k → On (members d) k → On (members d) j → On (members c) j }
    ensures linear { (ends : ℕ → Option Ends) (xs ys : List ℕ) (k : ℕ) → IsLinear ends xs
        → IsLinear ends ys
        → On xs k → On ys k → xs ≡ ys }
{}

/// The chains have one order by their least indexes.
pub fn chains_have_one_order()
    ensures { (ends : ℕ → Option Ends) (cs ds : List Chain) → AreInOrder ends cs
        → AreInOrder ends ds → cs ≡ ds }
{}

/// A ring may be read from any of its indexes on.
pub fn rings_turn()
    ensures { (ends : ℕ → Option Ends) (xs : List ℕ) (y : ℕ) (ys : List ℕ)
        → IsRing ends (xs ++ y ∷ ys)
        → IsRing ends (y ∷ ys ++ xs) }
{}

/// A live link begins one walk.
pub fn links_begin_one_walk<P: PtrCore, T>()
    ensures { (c : Content (IndexLink T)) (i : ℕ) → IsChained c
        → IsSome (ends_in c i) → (walk : List ℕ)
        × IsWalkFrom (ends_in c) i walk
        × ((other : List ℕ) → IsWalkFrom (ends_in c) i other → other ≡ walk) }
{}

/// A walk gives each link of its chain, and no other, once.
pub fn walks_give_each_link_once()
    ensures once { (ends : ℕ → Option Ends) (i : ℕ) (walk : List ℕ) → IsWalkFrom ends i walk
        → Apart walk }
    ensures whole { (ends : ℕ → Option Ends) (i : ℕ) (walk : List ℕ) (c : Chain)
        → IsWalkFrom ends i walk
        → IsChainOf ends c → On (members c) i → (k : ℕ) → On walk k ↔ On (members c) k }
{}

/// A walk of a ring from a link and one from its next are rotations of one another.
pub fn walks_of_a_ring_are_rotations()
    ensures { (ends : ℕ → Option Ends) (i next : ℕ) (rest : List ℕ) → IsRing ends (i ∷ next ∷ rest)
        → IsWalkFrom ends i (i ∷ next ∷ rest) × IsWalkFrom ends next (next ∷ rest ++ i ∷ []) }
{}

/// A `connect` that returns `Some`, and then `break_next` of its first, which returns `Some` too,
/// restores all interlinks, and leaves all else as it was.
pub fn break_next_takes_connect_back<P: PtrCore, T>()
    ensures answers { (before between : Content (IndexLink T)) (p q : P)
        → AreConnectable P.index P.generation before p q
        → Connects (P.index p) (P.index q) before between → HasNext P.index P.generation between p }
    ensures restored { (before between after : Content (IndexLink T)) (p q : P)
        → AreConnectable P.index P.generation before p q
        → Connects (P.index p) (P.index q) before between → BreaksNext (P.index p) between after
        → IsRestored before after }
{}

/// A `break_next` that returns `Some`, and then `connect` of the two links, restores all
/// interlinks, and leaves all else as it was.
pub fn connect_takes_break_next_back<P: PtrCore, T>()
    ensures { (before between after : Content (IndexLink T)) (p q : ℕ) → IsChained before
        → next_at (ends_in before) p ≡ Some q → BreaksNext p before between
        → Connects p q between after → IsRestored before after }
{}

/// `exchange_next` twice with the same pointers, of which the first returns `Some`, returns `Some`
/// again, restores all interlinks, and leaves all else as it was.
pub fn exchange_next_takes_itself_back<P: PtrCore, T>()
    ensures answers { (before between : Content (IndexLink T)) (p q : P)
        → HaveNexts P.index P.generation before p q
        → ExchangesNexts (P.index p) (P.index q) before between
        → HaveNexts P.index P.generation between p q }
    ensures restored { (before between after : Content (IndexLink T)) (p q s t : ℕ)
        → IsChained before → next_at (ends_in before) p ≡ Some s
        → next_at (ends_in before) q ≡ Some t → ExchangesNexts p q before between
        → ExchangesNexts p q between after → IsRestored before after }
{}

/// An insertion directly after or before a link, and then the removal of what it put in, restores
/// all interlinks and values.
pub fn removals_take_insertions_back<P: PtrCore, T>()
    ensures after { (before between after : Content (IndexLink T)) (p : P) (i g : ℕ) (t : T)
        → IsChained before → IsChained between
        → IsStoredAt P.index P.generation P.Inx.number (NextTo p) i g t before between
        → IsTakenOut P.Gen.last i between after → SameLinks before after }
    ensures before { (before between after : Content (IndexLink T)) (p : P) (i g : ℕ) (t : T)
        → IsChained before → IsChained between
        → IsStoredAt P.index P.generation P.Inx.number (PrevTo p) i g t before between
        → IsTakenOut P.Gen.last i between after → SameLinks before after }
{}

/// If a value is written or recast, a pointer is ended or a limit is set, all interlinks stay.
pub fn values_keep_the_interlinks<N, P: PtrCore, T: Recast<N>>()
    ensures written { (c : Content (IndexLink T)) (i : ℕ) (t : T) (k : ℕ)
        → ends_in (with_value_in c i t) k ≡ ends_in c k }
    ensures recast { (f : N → Option N) (c : Content (IndexLink T)) (k : ℕ)
        → ends_in (content_recasted (link_items T.items) f (link_recasted (T.recasted f)) c) k
        ≡ ends_in c k }
    ensures invalidated { (c : Content (IndexLink T)) (i k : ℕ)
        → ends_in (invalidated P.Gen.last c i) k ≡ ends_in c k }
    ensures limited { (c : Content (IndexLink T)) (max k : ℕ)
        → ends_in (with_limit P.Inx.greatest c max) k ≡ ends_in c k }
{}

/// A second `compress_canonical` changes no index.
pub fn compress_canonical_stays<P: PtrCore, T>()
    ensures { (before between after : Content (IndexLink T)) (reset again : Bool)
        → IsCanonical P.Gen.last reset before between
        → (second : IsCanonical P.Gen.last again between after)
        → (i : ℕ) → IsSome (ends_in between i) → second.to i ≡ i }
{}

/// `compress_canonical` leaves each list at successive indexes, in its order and with its values.
pub fn compress_canonical_makes_runs<P: PtrCore, T>()
    ensures { (before after : Content (IndexLink T)) (reset : Bool) (list : List ℕ)
        → IsCanonical P.Gen.last reset before after
        → IsLinear (ends_in before) list
        → (first : ℕ) × IsRunFrom first list before after }
{}
