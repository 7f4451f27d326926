//! Two entries changed at once.
ghost use Rattle.std.specs.Prelude.{◌≡◌, ◌≢◌, ◌↔◌, ℕ, [], ◌∷◌, length, map, Some, IsSome, IfSome};
ghost use Rattle.std.specs.Prelude.{IsOk, OnOk, OnErr, IsErrOf};
ghost use Rattle.std.specs.Borrow.{sem, LendsBoth, LendsBothIf, Array};
ghost use Rattle.triple_arena.specs.Changes.{IsExchanged};
ghost use Rattle.triple_arena.specs.Entries.{value_if, value_in};
ghost use Rattle.triple_arena.specs.TwoValues.{AreTwo, AreOne, FindTwo, FindOne};

use crate::ArenaTrait;
use proof_marks::recall;
use triple_arena_ptr::{GetDisjointMutError, PtrCore};

/// The arenas of which two values can be borrowed for writing at once, and can change places.
pub trait DisjointableArenaTrait<P: PtrCore, T: Drop>: ArenaTrait<P, T> {
    // The arena with the values at two indexes exchanged, if both are live.
    ghost exchanged: { Self → ℕ → ℕ → Self };

    /// Exchanges the values at two indexes that are live. Each index keeps its generation, so each
    /// pointer stays valid. If the indexes are one, nothing changes. It takes no memory.
    fn swap_inx(&mut self, i: P::Inx, j: P::Inx)
        requires i_is_live { IsSome (Self.entry_at self.old (P.Inx.number i)) }
        requires j_is_live { IsSome (Self.entry_at self.old (P.Inx.number j)) }
        ensures exchanged { IsExchanged Self.entry_at Self.live_count Self.counter Self.room
            (P.Inx.number i) (P.Inx.number j) self.old self.new }
        ensures exact { self.new ≡ exchanged self.old (P.Inx.number i) (P.Inx.number j) }
        ensures formed { Self.is_formed self.new };

    /// The values at two indexes that are live, for writing. Afterwards these two are what was
    /// written, and all else is as it was. The caller owes that the indexes are live and differ.
    ///
    /// The arena is borrowed as the one item of a slice, as `slice::from_mut` makes it.
    fn lend_two(these: &mut [Self], i: P::Inx, j: P::Inx) -> (&mut T, &mut T)
        requires one { length these.old ≡ 1 }
        requires two { P.Inx.number i ≢ P.Inx.number j }
        requires i_is_live { (a : Self) → these.old ≡ a ∷ []
            → IsSome (Self.entry_at a (P.Inx.number i)) }
        requires j_is_live { (a : Self) → these.old ≡ a ∷ []
            → IsSome (Self.entry_at a (P.Inx.number j)) }
        ensures* writes_back { sem 𝓛 (LendsBoth (Array Self.row 0) T.row T.row these.entry result
            (λ x y. map (λ a. Self.with_value (Self.with_value a (P.Inx.number i) x)
            (P.Inx.number j) y) these.old)) }
        ensures values { (a : Self) → these.old ≡ a ∷ []
            → (value_in (Self.entry_at a (P.Inx.number i)) ≡ Some result.0.now)
            × (value_in (Self.entry_at a (P.Inx.number j)) ≡ Some result.1.now) };

    /// Whether `p` and `q` point to two entries. It returns `IndexOutOfBounds` if one of them
    /// points to none, and else `OverlappingIndices` if they are one.
    final fn check_disjoint(&self, p: P, q: P) -> Result<(), GetDisjointMutError>
        ensures variant { IsOk result ↔ FindTwo P.index P.generation (Self.entry_at self.now) p q }
        ensures overlapping { IsErrOf result GetDisjointMutError.OverlappingIndices
            ↔ FindOne P.index P.generation (Self.entry_at self.now) p q }
    {
        if !self.contains(p) || !self.contains(q) {
            return Err(GetDisjointMutError::IndexOutOfBounds);
        }
        if p.inx() == q.inx() {
            return Err(GetDisjointMutError::OverlappingIndices);
        }
        Ok(())
    }

    /// Whether two indexes are live and two. It returns `IndexOutOfBounds` if one of them is not
    /// live, and else `OverlappingIndices` if they are one.
    final fn check_disjoint_inx(&self, i: P::Inx, j: P::Inx) -> Result<(), GetDisjointMutError>
        ensures variant { IsOk result
            ↔ AreTwo (Self.entry_at self.now) (P.Inx.number i) (P.Inx.number j) }
        ensures overlapping { IsErrOf result GetDisjointMutError.OverlappingIndices
            ↔ AreOne (Self.entry_at self.now) (P.Inx.number i) (P.Inx.number j) }
    {
        if self.get_inx(i).is_none() || self.get_inx(j).is_none() {
            return Err(GetDisjointMutError::IndexOutOfBounds);
        }
        if i == j {
            return Err(GetDisjointMutError::OverlappingIndices);
        }
        Ok(())
    }

    /// Exchanges the values that `p` and `q` point to, as `swap_inx` does. It returns
    /// `IndexOutOfBounds` if one of them points to none, and else `OverlappingIndices` if they are
    /// one. Either leaves the arena as it was.
    final fn swap(&mut self, p: P, q: P) -> Result<(), GetDisjointMutError>
        ensures variant { IsOk result ↔ FindTwo P.index P.generation (Self.entry_at self.old) p q }
        ensures overlapping { IsErrOf result GetDisjointMutError.OverlappingIndices
            ↔ FindOne P.index P.generation (Self.entry_at self.old) p q }
        ensures exchanged { OnOk result (IsExchanged Self.entry_at Self.live_count Self.counter
            Self.room (P.index p) (P.index q) self.old self.new) }
        ensures exact { OnOk result (self.new ≡ exchanged self.old (P.index p) (P.index q)) }
        ensures formed { Self.is_formed self.new }
        ensures err { OnErr result (self.new ≡ self.old) }
    {
        // The arena is well-formed.
        recall!(self.len());
        self.check_disjoint(p, q)?;
        self.swap_inx(p.inx(), q.inx());
        Ok(())
    }
}

/// The values that `p` and `q` point to, for writing, if each points to an entry and these are two.
/// Afterwards the two values are what was written, and all else is as it was. Else it returns
/// `None` and changes nothing; `check_disjoint` tells why.
///
/// The arena is borrowed as the one item of a slice, as `slice::from_mut` makes it.
pub fn get_disjoint_mut<P: PtrCore, T: Drop, A: DisjointableArenaTrait<P, T>>(
    these: &mut [A],
    p: P,
    q: P,
) -> Option<(&mut T, &mut T)>
    requires one { length these.old ≡ 1 }
    ensures* writes_back { sem 𝓛 (LendsBothIf (Array A.row 0) T.row T.row these.entry result
        (λ x y. map (λ a. A.with_value (A.with_value a (P.index p) x) (P.index q) y) these.old)
        these.old) }
    ensures variant { (a : A) → these.old ≡ a ∷ [] → IsSome result
        ↔ FindTwo P.index P.generation (A.entry_at a) p q }
    ensures values { (a : A) → these.old ≡ a ∷ [] → IfSome result (λ r.
        (value_if (P.generation p) (A.entry_at a (P.index p)) ≡ Some r.0.now)
        × (value_if (P.generation q) (A.entry_at a (P.index q)) ≡ Some r.1.now)) }
{
    match these[0].check_disjoint(p, q) {
        Ok(()) => Some(A::lend_two(these, p.inx(), q.inx())),
        Err(_) => None,
    }
}

/// The values at two indexes, for writing, if both are live and they are two. Afterwards the two
/// values are what was written, and all else is as it was. Else it returns `None` and changes
/// nothing; `check_disjoint_inx` tells why. `get_inx` tells the generations.
///
/// The arena is borrowed as the one item of a slice, as `slice::from_mut` makes it.
pub fn get_disjoint_inx_mut<P: PtrCore, T: Drop, A: DisjointableArenaTrait<P, T>>(
    these: &mut [A],
    i: P::Inx,
    j: P::Inx,
) -> Option<(&mut T, &mut T)>
    requires one { length these.old ≡ 1 }
    ensures* writes_back { sem 𝓛 (LendsBothIf (Array A.row 0) T.row T.row these.entry result
        (λ x y. map (λ a. A.with_value (A.with_value a (P.Inx.number i) x) (P.Inx.number j) y)
        these.old) these.old) }
    ensures variant { (a : A) → these.old ≡ a ∷ [] → IsSome result
        ↔ AreTwo (A.entry_at a) (P.Inx.number i) (P.Inx.number j) }
    ensures values { (a : A) → these.old ≡ a ∷ [] → IfSome result (λ r.
        (value_in (A.entry_at a (P.Inx.number i)) ≡ Some r.0.now)
        × (value_in (A.entry_at a (P.Inx.number j)) ≡ Some r.1.now)) }
{
    match these[0].check_disjoint_inx(i, j) {
        Ok(()) => Some(A::lend_two(these, i, j)),
        Err(_) => None,
    }
}
