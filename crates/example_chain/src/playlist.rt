//! Playlists: songs in the chains of an arena, of which all is said in lists of indexes.
ghost use Rattle.std.specs.Prelude.{◌≡◌, ◌<◌, ◌≤◌, ◌↔◌, ◌%◌, ◌^◌, ℕ, List, [], ◌∷◌, ◌++◌};
ghost use Rattle.std.specs.Prelude.{map as list_map, None, Some, IsSome, IfSome, IfNone, IsOk};
ghost use Rattle.std.specs.Prelude.{IfOk, OnSome, OnErr, IsErrOf};
ghost use Rattle.std.specs.List.{sum};
ghost use Rattle.triple_arena.specs.Content.{get, live_count, arena_capacity};
ghost use Rattle.triple_arena.specs.Entries.{with_entry};
ghost use Rattle.linked_lists.specs.LinkedLists.{Off, next_in, IsLinear, IsRing};
ghost use Rattle.triple_arena_chain.specs.Links.{ends_in, ends_found, values_in};
ghost use Rattle.linked_lists.specs.Chains.{Chain, members, IsChainOf};
ghost use Rattle.triple_arena_chain.specs.Walks.{IsWalkFrom};
ghost use Rattle.example_chain.specs.Playlists.{length_at};

use proof_marks::recall;
use triple_arena::{Advancer, ArenaTrait, PtrCore};
use triple_arena_chain::{
    ChainArena, ChainArenaTrait, ChainInsertionError, ChainSlots, LinkInsertKind,
};

/// Adds a song directly after the one at `p`, if there is room. It returns `FailedLinkRequirement`
/// if `p` is invalid, and else `NotWithinCapacity` if there is no room; all songs stay as they are
/// then, and this one is dropped.
pub fn add_after<P: PtrCore, T: Drop, S: ChainSlots<P, T>>(
    songs: &mut ChainArena<P, T, S>,
    p: P,
    song: T,
) -> Result<P, ChainInsertionError>
    ensures invalid { IsErrOf result ChainInsertionError.FailedLinkRequirement
        ↔ (get songs.old (P.index p) (P.generation p) ≡ None) }
    ensures full { IsErrOf result ChainInsertionError.NotWithinCapacity
        ↔ (IsSome (get songs.old (P.index p) (P.generation p))
        × (arena_capacity songs.old ≤ live_count songs.old)) }
    ensures variant { IsOk result ↔ (IsSome (get songs.old (P.index p) (P.generation p))
        × (live_count songs.old < arena_capacity songs.old)) }
    ensures song { IfOk result (λ q. (j : ℕ) → values_in songs.new j
        ≡ with_entry (values_in songs.old) (P.index q) (P.generation q, song) j) }
    ensures linear { IfOk result (λ q. (before after : List ℕ)
        → IsLinear (ends_in songs.old) (before ++ P.index p ∷ after)
        → IsLinear (ends_in songs.new) (before ++ (P.index p ∷ P.index q ∷ after))) }
    ensures ring { IfOk result (λ q. (after : List ℕ)
        → IsRing (ends_in songs.old) (P.index p ∷ after)
        → IsRing (ends_in songs.new) (P.index p ∷ P.index q ∷ after)) }
    ensures others { (c : Chain) → IsChainOf (ends_in songs.old) c
        → Off (members c) (P.index p) → IsChainOf (ends_in songs.new) c }
    ensures counter { songs.new.counter ≡ songs.old.counter }
    ensures room { songs.new.room ≡ songs.old.room }
    ensures err { OnErr result (songs.new ≡ songs.old) }
{
    // The interlinks agree.
    recall!(songs.len());
    songs.insert_within_capacity(LinkInsertKind::NextTo(p), song)
}

/// Turns the song at `p`, which is the next of `before`, and its own next round: `before, p, q` is
/// `before, q, p` then, also if `q` is the end of the list. A ring of one or of two stays as it is.
/// It returns `None`, and changes nothing, if `p` is not the next of `before`, one of them is
/// invalid, or `p` has no next.
pub fn reverse_pair<P: PtrCore, T: Drop, S: ChainSlots<P, T>>(
    songs: &mut ChainArena<P, T, S>,
    before: P,
    p: P,
) -> Option<()>
    ensures variant { IsSome result
        ↔ ((next_in (ends_found songs.old (P.index before) (P.generation before))
        ≡ Some (P.index p))
        × IsSome (next_in (ends_found songs.old (P.index p) (P.generation p)))) }
    ensures linear { OnSome result ((front rest : List ℕ) (q : ℕ)
        → IsLinear (ends_in songs.old) (front ++ (P.index before ∷ P.index p ∷ q ∷ rest))
        → IsLinear (ends_in songs.new) (front ++ (P.index before ∷ q ∷ P.index p ∷ rest))) }
    ensures ring { OnSome result ((rest : List ℕ) (q : ℕ)
        → IsRing (ends_in songs.old) (P.index before ∷ P.index p ∷ q ∷ rest)
        → IsRing (ends_in songs.new) (P.index before ∷ q ∷ P.index p ∷ rest)) }
    ensures ring_of_two { OnSome result
        (IsRing (ends_in songs.old) (P.index before ∷ P.index p ∷ [])
        → IsRing (ends_in songs.new) (P.index before ∷ P.index p ∷ [])) }
    ensures alone { OnSome result (IsRing (ends_in songs.old) (P.index p ∷ [])
        → IsRing (ends_in songs.new) (P.index p ∷ [])) }
    ensures others { OnSome result ((c : Chain) → IsChainOf (ends_in songs.old) c
        → Off (members c) (P.index p) → IsChainOf (ends_in songs.new) c) }
    ensures songs { OnSome result ((j : ℕ) → values_in songs.new j ≡ values_in songs.old j) }
    ensures none { IfNone result (songs.new ≡ songs.old) }
{
    // The interlinks agree.
    recall!(songs.len());
    if !songs.are_neighbors(before, p) {
        return None;
    }
    let q = songs.get_link(p)?.next()?;
    songs.exchange_next(before, p)?;
    // It is a ring of one now.
    if songs.exchange_next(q, p).is_some() {
        return Some(());
    }
    songs.break_next(p)?;
    songs.connect(q, p)
}

/// How long it plays from the song at `p` on, in any arena of chains: to the end of its chain and
/// then backwards from the song before it, or once round a ring. Past the greatest number it goes
/// on from 0.
pub fn play_from<P: PtrCore, A: ChainArenaTrait<P, u64>>(songs: &A, p: P) -> Option<u64>
    ensures variant { IsSome result
        ↔ IsSome (get (A.links songs.now) (P.index p) (P.generation p)) }
    ensures total { IfSome result (λ total. (walk : List ℕ)
        × IsWalkFrom (ends_in (A.links songs.now)) (P.index p) walk
        × (total ≡ sum (list_map (length_at (A.links songs.now)) walk) % 2 ^ 64)) }
{
    let mut player = songs.advancer_chain(p)?;
    let mut total = 0u64;
    while let Some(q) = player.advance(songs) {
        if let Some(length) = songs.get(q) {
            total = total.wrapping_add(*length);
        }
    }
    Some(total)
}
