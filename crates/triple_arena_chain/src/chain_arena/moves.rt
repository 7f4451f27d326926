//! A link that moves to another place, under its pointer.
ghost use Rattle.std.specs.Prelude.{◌≡◌, ◌↔◌, ℕ, Some, IsSome, IfSome, IfNone, OnSome, IsTrue};
ghost use Rattle.std.specs.Option.{option_map};
ghost use Rattle.triple_arena.specs.Content.{entry_at};
ghost use Rattle.triple_arena.specs.TwoValues.{FindTwo};
ghost use Rattle.triple_arena_chain.specs.Links.{placed_between};
ghost use Rattle.triple_arena_chain.specs.LinkShape.{IndexLink};
ghost use Rattle.triple_arena_chain.specs.Links.{bridged_over, IsChained};
ghost use Rattle.triple_arena_chain.specs.Moves.{gap_after, gap_before, IsMoved};

use crate::chain_arena::canonical_layout::is_one;
use crate::chain_arena::interlinks::{follow, join, read_next, read_prev, set_next, set_prev};
use crate::gap::Gap;
use crate::{ChainArena, ChainSlots, LinkNoGen};
use triple_arena::{Arena, ArenaTrait, PtrCore};

// Joins the neighbors of the link at `i`, which is live. It keeps the interlinks that it had.
fn bridge_over<P: PtrCore, T: Drop, S: ChainSlots<P, T>>(
    arena: &mut Arena<P, LinkNoGen<P, T>, S>,
    i: P::Inx,
)
    requires live { IsSome (entry_at arena.old (P.Inx.number i)) }
    requires chained { IsChained arena.old }
    ensures { (e : ℕ × IndexLink T) → entry_at arena.old (P.Inx.number i) ≡ Some e
        → arena.new ≡ bridged_over arena.old e.1 }
{
    let (before, after) = arena.get_inx_unwrap(i).prev_next();
    follow(arena, before, after);
}

// Gives the link at `i`, which no other one names, the neighbors of a gap, and they name it. All
// are live.
#[tactic(auto, using(crate::specs::LinkLaws::live_links))]
fn put_back<P: PtrCore, T: Drop, S: ChainSlots<P, T>>(
    arena: &mut Arena<P, LinkNoGen<P, T>, S>,
    i: P::Inx,
    prev: Option<P::Inx>,
    next: Option<P::Inx>,
)
    requires own { IsSome (entry_at arena.old (P.Inx.number i)) }
    requires before { IfSome (option_map P.Inx.number prev) (λ j. IsSome (entry_at arena.old j)) }
    requires after { IfSome (option_map P.Inx.number next) (λ j. IsSome (entry_at arena.old j)) }
    ensures { arena.new
        ≡ placed_between arena.old (option_map P.Inx.number prev) (option_map P.Inx.number next)
        (P.Inx.number i) }
{
    set_next(arena, Some(i), next);
    set_prev(arena, Some(i), prev);
    join(arena, Gap::Between(prev, next), i);
}

impl<P: PtrCore, T: Drop, S: ChainSlots<P, T>> ChainArena<P, T, S> {
    /// Moves the link at `p` directly behind the one at `q`, as a removal and an insertion would,
    /// but every pointer stays: what stood on both sides of `p` is joined, and what followed `q`
    /// follows `p`. It returns `None`, and changes nothing, if one of them is invalid, or if both
    /// are one.
    pub fn move_next_to(&mut self, p: P, q: P) -> Option<()>
        ensures variant { IsSome result ↔ FindTwo P.index P.generation (entry_at self.old) p q }
        ensures moved { OnSome result (IsMoved (P.index p)
            (gap_after self.old (P.index p) (P.index q)) self.old self.new) }
        ensures formed { IsChained self.new }
        ensures none { IfNone result (self.new ≡ self.old) }
    {
        if !self.can_move(p, q) {
            return None;
        }
        let i = p.inx();
        let j = q.inx();
        bridge_over(&mut self.arena, i);
        let next = read_next(&self.arena, j);
        put_back(&mut self.arena, i, Some(j), next);
        Some(())
    }

    /// Moves the link at `p` directly before the one at `q`, under its pointer: what stood on both
    /// sides of `p` is joined, and `p` follows what came before `q`. It returns `None`, and changes
    /// nothing, if one of them is invalid, or if both are one.
    pub fn move_prev_to(&mut self, p: P, q: P) -> Option<()>
        ensures variant { IsSome result ↔ FindTwo P.index P.generation (entry_at self.old) p q }
        ensures moved { OnSome result (IsMoved (P.index p)
            (gap_before self.old (P.index p) (P.index q)) self.old self.new) }
        ensures formed { IsChained self.new }
        ensures none { IfNone result (self.new ≡ self.old) }
    {
        if !self.can_move(p, q) {
            return None;
        }
        let i = p.inx();
        let j = q.inx();
        bridge_over(&mut self.arena, i);
        let prev = read_prev(&self.arena, j);
        put_back(&mut self.arena, i, prev, Some(j));
        Some(())
    }

    // Whether both are valid, and two.
    #[inline(always)]
    fn can_move(&self, p: P, q: P) -> bool
        ensures says { IsTrue result ↔ FindTwo P.index P.generation (entry_at self.now) p q }
        ensures formed { IsChained self.now }
    {
        // The interlinks agree.
        self.recall_chained();
        self.arena.contains(p) && self.arena.contains(q) && !is_one(p.inx(), q.inx())
    }
}
