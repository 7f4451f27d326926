//! What follows from the calls of an ordered arena.
ghost use Rattle.std.specs.Prelude.{◌≡◌, ◌≢◌, ◌+◌, ◌*◌, ◌^◌, ◌<◌, ◌≤◌, ℕ, Bool, List, ◌∷◌, ◌++◌};
ghost use Rattle.std.specs.Prelude.{length, Option, Some, None, IsSome, Result};
ghost use Rattle.std.specs.List.{AllByRecursion, range_with_len};
ghost use Rattle.std.specs.declared.cmp.Ordering.{Ordering as Way};
ghost use Rattle.triple_arena_ptr.specs.declared.errors.OrdInsertionError.{OrdInsertionError as Refused};
ghost use Rattle.triple_arena_stack.specs.Room.{Room};
ghost use Rattle.triple_arena.specs.Content.{with_limit};
ghost use Rattle.triple_arena.specs.Transfer.{IsFilled};
ghost use Rattle.linked_lists.specs.LinkedLists.{On};
ghost use Rattle.triple_arena_ord.specs.Asked.{IsWay};
ghost use Rattle.triple_arena_ord.specs.AskedLaws.{IsCutAt, last_greater, last_less};
ghost use Rattle.triple_arena_ord.specs.CanonicalLayout.{IsLaidInOrder};
ghost use Rattle.triple_arena_ord.specs.Indexed.{indexed};
ghost use Rattle.triple_arena_ord.specs.Inserted.{InsertsAt, IsAdded, IsReplaced, IsPlacedBetween};
ghost use Rattle.triple_arena_ord.specs.ItemRecasting.{recasted_in};
ghost use Rattle.triple_arena_ord.specs.Ordered.{Ordered, IsOrdered, IsAscending, tree_in};
ghost use Rattle.triple_arena_ord.specs.Ordered.{order_in, ordered_entries, entry_in, size_in};
ghost use Rattle.triple_arena_ord.specs.Ordered.{counter_in, room_in, NoneGreater, NoneLess};
ghost use Rattle.triple_arena_ord.specs.Ordered.{StaysAscending, SameKeys};
ghost use Rattle.triple_arena_ord.specs.Placing.{IsPlaceByKey, IsPlaceBeforeEqual};
ghost use Rattle.triple_arena_ord.specs.Removal.{IsEntryRemoved};
ghost use Rattle.triple_arena_ord.specs.States.{invalidated_in, with_item};
ghost use Rattle.rank_tree.specs.Tree.{height, rank_of};

use crate::SimpleOrdItem;
use triple_arena::{PtrCore, Recast};

/// Each live index stands in the list.
pub fn entries_stand_in_the_list<P: PtrCore, T>()
    ensures { (o : Ordered T) (i : ℕ) → IsOrdered o → IsSome (entry_in o i) → On (order_in o) i }
{}

/// The list has as many entries as are live.
pub fn the_list_has_as_many_entries_as_are_live<P: PtrCore, T>()
    ensures { (o : Ordered T) → IsOrdered o → length (ordered_entries o) ≡ size_in o }
{}

/// No path in the tree has more nodes than the rank r of the root, and among n entries, if there is
/// one, `2^(r+1) <= (n+1)^2`.
pub fn paths_are_short<P: PtrCore, T>()
    ensures high { (o : Ordered T) → IsOrdered o → height (tree_in o) ≤ rank_of (tree_in o) }
    ensures low { (o : Ordered T) → IsOrdered o → 0 < size_in o
        → 2 ^ (rank_of (tree_in o) + 1) ≤ (size_in o + 1) * (size_in o + 1) }
{}

/// If the keys ascend, none before an entry is greater than its key, and none after it less.
pub fn keys_ascend_along_the_list<P: PtrCore, T: SimpleOrdItem>()
    ensures before { (o : Ordered T) (front back : List ℕ) (i : ℕ) (entry : ℕ × T) → IsOrdered o
        → IsAscending T.Key.cmp T.key_of o → order_in o ≡ front ++ i ∷ back
        → entry_in o i ≡ Some entry → NoneGreater T.Key.cmp T.key_of (T.key_of entry.1) o front }
    ensures after { (o : Ordered T) (front back : List ℕ) (i : ℕ) (entry : ℕ × T) → IsOrdered o
        → IsAscending T.Key.cmp T.key_of o → order_in o ≡ front ++ i ∷ back
        → entry_in o i ≡ Some entry → NoneLess T.Key.cmp T.key_of (T.key_of entry.1) o back }
{}

/// A list whose keys ascend still does if the list and the keys stay, and if an item is replaced by
/// one with an equal key.
pub fn keys_that_stay_ascend<P: PtrCore, T: SimpleOrdItem>()
    ensures same { (old new : Ordered T) → order_in new ≡ order_in old → SameKeys T.key_of old new
        → StaysAscending T.Key.cmp T.key_of old new }
    ensures replaced { (i g : ℕ) (t u : T) (old new : Ordered T) → IsReplaced i g t u old new
        → T.Key.cmp (T.key_of t) (T.key_of u) ≡ Way.Equal
        → StaysAscending T.Key.cmp T.key_of old new }
{}

/// A list whose keys ascend still does after a removal.
pub fn removals_keep_keys_ascending<P: PtrCore, T: SimpleOrdItem>()
    ensures { (last : Option ℕ) (i : ℕ) (old new : Ordered T) → IsEntryRemoved last i old new
        → StaysAscending T.Key.cmp T.key_of old new }
{}

/// If an invalidation ended a pointer, the list stays.
pub fn invalidations_keep_the_list<P: PtrCore, T>()
    ensures { (last : Option ℕ) (o : Ordered T) (i : ℕ)
        → order_in (invalidated_in last o i) ≡ order_in o }
{}

/// Whatever is written in place of an item, the list, the tree and all else stay.
pub fn writes_keep_the_list<P: PtrCore, T>()
    ensures replaced { (o : Ordered T) (i g : ℕ) (t u : T) → IsOrdered o
        → entry_in o i ≡ Some (g, u)
        → IsReplaced i g t u o (with_item o i t) }
    ensures ordered { (o : Ordered T) (i : ℕ) (t : T) → IsOrdered o
        → IsSome (entry_in o i)
        → IsOrdered (with_item o i t) }
{}

/// If what the items hold is recast, the list and the tree stay.
pub fn recasts_keep_the_list<N, P: PtrCore, T: Recast<N>>()
    ensures ordered { (f : N → Option N) (o : Ordered T) → IsOrdered o
        → IsOrdered (recasted_in T.items f (T.recasted f) o) }
    ensures tree { (f : N → Option N) (o : Ordered T) → IsOrdered o
        → tree_in (recasted_in T.items f (T.recasted f) o) ≡ tree_in o }
{}

/// If a limit is set, the list and the tree stay.
pub fn limits_keep_the_list<P: PtrCore, T>()
    ensures ordered { (o : Ordered T) (max : ℕ) → IsOrdered o
        → IsOrdered (record o { chains = with_limit P.Inx.greatest o.chains max }) }
    ensures tree { (o : Ordered T) (max : ℕ) → IsOrdered o
        → tree_in (record o { chains = with_limit P.Inx.greatest o.chains max }) ≡ tree_in o }
{}

/// A list whose keys ascend still does after an insertion at the place that was found for the
/// item's key, after one that goes directly before an entry with an equal key there, and after any
/// that goes between keys that are not greater and keys that are not less.
pub fn insertions_keep_keys_ascending<P: PtrCore, T: SimpleOrdItem>()
    ensures by_key { (place : Option (ℕ × Way)) (t : T) (result : Result (P × Option T) Refused)
        (old new : Ordered T) → (growth : Option Bool) → IsOrdered old
        → IsPlaceByKey T.Key.cmp T.key_of (T.key_of t) old place
        → InsertsAt P.index P.generation growth place t result old new
        → StaysAscending T.Key.cmp T.key_of old new }
    ensures before_equal { (place : Option (ℕ × Way)) (t : T)
        (result : Result (P × Option T) Refused) (old new : Ordered T) → (growth : Option Bool)
        → IsOrdered old → IsPlaceBeforeEqual T.Key.cmp T.key_of (T.key_of t) old place
        → InsertsAt P.index P.generation growth place t result old new
        → StaysAscending T.Key.cmp T.key_of old new }
    ensures between { (i g : ℕ) (t : T) (old new : Ordered T) → IsOrdered new
        → IsAdded i g t old new → IsPlacedBetween T.Key.cmp T.key_of (T.key_of t) i old new
        → StaysAscending T.Key.cmp T.key_of old new }
{}

/// If no answer of a closure that a search asks is `Equal`, the last entry that answered `Greater`
/// and the last that answered `Less` are neighbors in the list, as far as there are any.
pub fn questions_end_at_the_gap()
    ensures { (asked : List (ℕ × Way)) (w : List ℕ) → IsWay asked w
        → AllByRecursion (λ (a : ℕ × Way). a.1 ≢ Way.Equal) asked
        → IsCutAt w (last_greater None asked) (last_less None asked) }
{}

/// After a canonical transfer the entries along the list are those in the order of their indexes.
pub fn canonical_transfers_list_by_index<P: PtrCore, T>()
    ensures { (n g : ℕ) (own : Room) (old new : Ordered T)
        → IsFilled entry_in size_in counter_in room_in indexed n g own old new
        → order_in new ≡ range_with_len 1 n
        → ordered_entries new ≡ indexed new }
{}

/// A second `compress_canonical` changes no index.
pub fn compress_canonical_stays<P: PtrCore, T>()
    ensures { (before between after : Ordered T) (reset again : Bool)
        → IsLaidInOrder P.Gen.last reset before between
        → (second : IsLaidInOrder P.Gen.last again between after)
        → (i : ℕ) → On (order_in between) i → second.to i ≡ i }
{}
