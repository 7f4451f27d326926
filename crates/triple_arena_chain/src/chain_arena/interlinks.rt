//! Interlinks, read and written where the links lie.
ghost use Rattle.std.specs.Prelude.{◌≡◌, Some, None, IsSome, IfSome, ⊤};
ghost use Rattle.std.specs.Option.{option_map};
ghost use Rattle.triple_arena.specs.Content.{entry_at, IsWellFormed};
ghost use Rattle.linked_lists.specs.LinkedLists.{next_at, prev_at};
ghost use Rattle.triple_arena_chain.specs.Links.{ends_in, with_next_of, with_prev_of, joined_to};
ghost use Rattle.triple_arena_chain.specs.Links.{AreNeighborsLive};
ghost use Rattle.triple_arena_chain.specs.Kinds.{gap_by};

use crate::gap::Gap;
use crate::{ChainSlots, LinkNoGen};
use proof_marks::recall;
use triple_arena::{Arena, ArenaTrait, PtrCore};
use triple_arena_ptr::OptionalInx;

// Tells the proof that an arena is well-formed, as each one is. It does nothing.
#[inline(always)]
pub(crate) fn recall_formed<P: PtrCore, T: Drop, S: ChainSlots<P, T>>(
    arena: &Arena<P, LinkNoGen<P, T>, S>,
)
    ensures { IsWellFormed arena.now }
{
    recall!(arena.len());
}

// The next index of the link at a live index.
pub(crate) fn read_next<P: PtrCore, T: Drop, S: ChainSlots<P, T>>(
    arena: &Arena<P, LinkNoGen<P, T>, S>,
    i: P::Inx,
) -> Option<P::Inx>
    requires live { IsSome (entry_at arena.now (P.Inx.number i)) }
    requires no_more { ⊤ }
    ensures { option_map P.Inx.number result ≡ next_at (ends_in arena.now) (P.Inx.number i) }
{
    arena.get_inx_unwrap(i).next()
}

// Its previous index.
pub(crate) fn read_prev<P: PtrCore, T: Drop, S: ChainSlots<P, T>>(
    arena: &Arena<P, LinkNoGen<P, T>, S>,
    i: P::Inx,
) -> Option<P::Inx>
    requires live { IsSome (entry_at arena.now (P.Inx.number i)) }
    requires no_more { ⊤ }
    ensures { option_map P.Inx.number result ≡ prev_at (ends_in arena.now) (P.Inx.number i) }
{
    arena.get_inx_unwrap(i).prev()
}

// Gives the link at `at`, which is live if it is an index, another next.
pub(crate) fn set_next<P: PtrCore, T: Drop, S: ChainSlots<P, T>>(
    arena: &mut Arena<P, LinkNoGen<P, T>, S>,
    at: Option<P::Inx>,
    next: Option<P::Inx>,
)
    requires live { IfSome (option_map P.Inx.number at) (λ i. IsSome (entry_at arena.old i)) }
    requires no_more { ⊤ }
    ensures { arena.new ≡ with_next_of arena.old (option_map P.Inx.number at)
        (option_map P.Inx.number next) }
{
    if let Some(i) = at {
        arena.get_inx_mut_unwrap(i).next = OptionalInx::of(next);
    }
}

// Gives the link at `at`, which is live if it is an index, another previous one.
pub(crate) fn set_prev<P: PtrCore, T: Drop, S: ChainSlots<P, T>>(
    arena: &mut Arena<P, LinkNoGen<P, T>, S>,
    at: Option<P::Inx>,
    prev: Option<P::Inx>,
)
    requires live { IfSome (option_map P.Inx.number at) (λ i. IsSome (entry_at arena.old i)) }
    requires no_more { ⊤ }
    ensures { arena.new ≡ with_prev_of arena.old (option_map P.Inx.number at)
        (option_map P.Inx.number prev) }
{
    if let Some(i) = at {
        arena.get_inx_mut_unwrap(i).prev = OptionalInx::of(prev);
    }
}

// What is at `after` follows what is at `before`. Either may be missing; what is an index is live.
#[tactic(auto, using(crate::specs::LinkLaws::live_links))]
pub(crate) fn follow<P: PtrCore, T: Drop, S: ChainSlots<P, T>>(
    arena: &mut Arena<P, LinkNoGen<P, T>, S>,
    before: Option<P::Inx>,
    after: Option<P::Inx>,
)
    requires before { IfSome (option_map P.Inx.number before) (λ i. IsSome (entry_at arena.old i)) }
    requires after { IfSome (option_map P.Inx.number after) (λ i. IsSome (entry_at arena.old i)) }
    ensures { arena.new ≡ with_prev_of (with_next_of arena.old (option_map P.Inx.number before)
        (option_map P.Inx.number after)) (option_map P.Inx.number after)
        (option_map P.Inx.number before) }
{
    set_next(arena, before, after);
    set_prev(arena, after, before);
}

// Parts the link at `before` from the one at `after`, which is its next. Both are live.
#[tactic(auto, using(crate::specs::LinkLaws::live_links))]
pub(crate) fn part<P: PtrCore, T: Drop, S: ChainSlots<P, T>>(
    arena: &mut Arena<P, LinkNoGen<P, T>, S>,
    before: P::Inx,
    after: P::Inx,
)
    requires before { IsSome (entry_at arena.old (P.Inx.number before)) }
    requires after { IsSome (entry_at arena.old (P.Inx.number after)) }
    ensures { arena.new ≡ with_prev_of (with_next_of arena.old (Some (P.Inx.number before)) None)
        (Some (P.Inx.number after)) None }
{
    set_next(arena, Some(before), None);
    set_prev(arena, Some(after), None);
}

// The neighbors at a gap, which are live, name what is at `i`.
#[tactic(auto, using(crate::specs::LinkLaws::live_links))]
pub(crate) fn join<P: PtrCore, T: Drop, S: ChainSlots<P, T>>(
    arena: &mut Arena<P, LinkNoGen<P, T>, S>,
    gap: Gap<P::Inx>,
    i: P::Inx,
)
    requires { AreNeighborsLive arena.old (gap_by P.Inx.number gap) }
    ensures { arena.new ≡ joined_to arena.old (gap_by P.Inx.number gap) (P.Inx.number i) }
{
    match gap {
        Gap::Between(prev, next) => {
            set_next(arena, prev, Some(i));
            set_prev(arena, next, Some(i));
        }
        Gap::OwnRing => {}
    }
}
