//! Caches: entries in the order of their last use, of which the one used longest ago makes way.
ghost use Rattle.std.specs.Prelude.{◌≡◌, ◌≤◌, ◌↔◌, ℕ, List, [], ◌∷◌, ◌++◌, Some, None, IsSome};
ghost use Rattle.std.specs.Prelude.{IsTrue, IfOk, IfSome, IfNone, IfErr, OnSome, OnErr, IsOk};
ghost use Rattle.std.specs.Prelude.{IsErrOf, option_copied};
ghost use Rattle.triple_arena_ptr.specs.Errors.{IsBeyondMaxCapacity, IsAllocError};
ghost use Rattle.triple_arena_ptr.specs.Generation.{next_generation};
ghost use Rattle.triple_arena_stack.specs.Room.{capacity as capacity_of, IsBeyond};
ghost use Rattle.triple_arena.specs.ArenaRoom.{room_of};
ghost use Rattle.triple_arena.specs.Content.{get, live_count, arena_capacity};
ghost use Rattle.triple_arena.specs.Entries.{with_entry, without, value_if};
ghost use Rattle.triple_arena_chain.specs.Links.{values_in};
ghost use Rattle.example_chain.specs.Caches.{AreByUse, IsCache, kind_for};

use triple_arena::{ArenaTrait, PtrCore, ReallocationError};
use triple_arena_chain::{
    ChainArena, ChainArenaTrait, ChainInsertionError, ChainSlots, LinkInsertKind,
};

/// Entries in the order of their last use. Each has a pointer, which a map from keys may hold, and
/// keeps it while it moves.
///
/// They are a ring: behind the one that was used last come the others, each used longer ago than
/// the one before it.
#[derive(Drop)]
pub struct Cache<P: PtrCore, T: Drop, S: ChainSlots<P, T>> {
    entries: ChainArena<P, T, S>,
    latest: Option<P>,
}

impl<P: PtrCore, T: Drop, S: ChainSlots<P, T>> Cache<P, T, S> {
    /// A cache without an entry, with room for so many. It returns `BeyondMaxCapacity` if no cache
    /// of this type has so much room, and `AllocError` if the memory was refused.
    pub fn new(alloc: S::Alloc, most: usize) -> Result<Self, ReallocationError>
        ensures empty { IfOk result (λ c. AreByUse P.index P.generation c.entries c.latest []) }
        ensures fits { IfOk result (λ c. most ≤ arena_capacity c.entries) }
        ensures succeeds { most ≤ capacity_of (room_of P.Inx.greatest (S.room_at 0)) → IsOk result }
        ensures beyond { IsBeyondMaxCapacity result
            ↔ IsBeyond (room_of P.Inx.greatest (S.room_at most)).limit most }
        ensures memory { IsAllocError result → IsTrue S.takes_memory }
    {
        let entries = ChainArena::with_min_capacity(alloc, most)?;
        Ok(Cache {
            entries,
            latest: None,
        })
    }

    /// What `p` points to. It is no use of it: `touch` is.
    pub fn get(&self, p: P) -> Option<&T>
        ensures { option_copied result
            ≡ value_if (P.generation p) (values_in self.now.entries (P.index p)) }
    {
        self.entries.get(p)
    }

    // Where an entry goes that is used now.
    fn kind(&self) -> LinkInsertKind<P>
        ensures { result ≡ kind_for self.now.latest }
    {
        match self.latest {
            Some(latest) => LinkInsertKind::PrevTo(latest),
            None => LinkInsertKind::SingleLinkCyclic,
        }
    }

    /// Puts an entry in as the one used last, and returns its pointer. It returns
    /// `NotWithinCapacity` if there is no room: `evict` makes some. The cache stays as it is then.
    pub fn add(&mut self, t: T) -> Result<P, ChainInsertionError>
        requires { IsCache P.index P.generation self.old.entries self.old.latest }
        ensures first { IfOk result (λ p. (uses : List ℕ)
            → AreByUse P.index P.generation self.old.entries self.old.latest uses
            → AreByUse P.index P.generation self.new.entries self.new.latest (P.index p ∷ uses)) }
        ensures vacant { IfOk result (λ p. values_in self.old.entries (P.index p) ≡ None) }
        ensures added { IfOk result (λ p. (i : ℕ) → values_in self.new.entries i
            ≡ with_entry (values_in self.old.entries) (P.index p) (P.generation p, t) i) }
        ensures fresh { IfOk result (λ p. P.generation p ≡ self.old.entries.counter) }
        ensures counter { self.new.entries.counter ≡ self.old.entries.counter }
        ensures room { self.new.entries.room ≡ self.old.entries.room }
        ensures error { IfErr result (λ e. e ≡ ChainInsertionError.NotWithinCapacity) }
        ensures full { IsErrOf result ChainInsertionError.NotWithinCapacity
            ↔ (arena_capacity self.old.entries ≤ live_count self.old.entries) }
        ensures cache { IsCache P.index P.generation self.new.entries self.new.latest }
        ensures err { OnErr result (self.new ≡ self.old) }
    {
        let kind = self.kind();
        let p = self.entries.insert_within_capacity(kind, t)?;
        self.latest = Some(p);
        Ok(p)
    }

    /// The entry that `p` points to is used: it is the one used last from now on, under the same
    /// pointer. It returns `None`, and changes nothing, if `p` points to none.
    pub fn touch(&mut self, p: P) -> Option<()>
        requires { IsCache P.index P.generation self.old.entries self.old.latest }
        ensures variant { IsSome result
            ↔ IsSome (value_if (P.generation p) (values_in self.old.entries (P.index p))) }
        ensures first { OnSome result ((front back : List ℕ)
            → AreByUse P.index P.generation self.old.entries self.old.latest
            (front ++ P.index p ∷ back)
            → AreByUse P.index P.generation self.new.entries self.new.latest
            (P.index p ∷ front ++ back)) }
        ensures values { (i : ℕ) → values_in self.new.entries i ≡ values_in self.old.entries i }
        ensures counter { self.new.entries.counter ≡ self.old.entries.counter }
        ensures room { self.new.entries.room ≡ self.old.entries.room }
        ensures cache { IsCache P.index P.generation self.new.entries self.new.latest }
        ensures none { IfNone result (self.new ≡ self.old) }
    {
        let latest = self.latest?;
        if !self.entries.contains(p) {
            return None;
        }
        // It moves, unless it is the one used last.
        if self.entries.move_prev_to(p, latest).is_some() {
            self.latest = Some(p);
        }
        Some(())
    }

    // The pointer, if it points to an entry.
    fn if_there(&self, p: P) -> Option<P>
        ensures there { IsSome (get self.now.entries (P.index p) (P.generation p))
            → result ≡ Some p }
        ensures gone { (IsSome (get self.now.entries (P.index p) (P.generation p)) → ⊥)
            → result ≡ None }
    {
        if self.entries.contains(p) {
            Some(p)
        } else {
            None
        }
    }

    /// Takes the entry out that was used longest ago, with its pointer. `None` if there is none.
    pub fn evict(&mut self) -> Option<(P, T)>
        requires { IsCache P.index P.generation self.old.entries self.old.latest }
        ensures oldest { IfSome result (λ e. (front : List ℕ) (i : ℕ)
            → AreByUse P.index P.generation self.old.entries self.old.latest (front ++ i ∷ [])
            → (i ≡ P.index e.0) × AreByUse P.index P.generation
            self.new.entries self.new.latest front) }
        ensures entry { IfSome result
            (λ e. values_in self.old.entries (P.index e.0) ≡ Some (P.generation e.0, e.1)) }
        ensures gone { IfSome result (λ e. (i : ℕ) → values_in self.new.entries i
            ≡ without (values_in self.old.entries) (P.index e.0) i) }
        ensures counter { OnSome result
            (self.new.entries.counter ≡ next_generation P.Gen.last self.old.entries.counter) }
        ensures room { self.new.entries.room ≡ self.old.entries.room }
        ensures cache { IsCache P.index P.generation self.new.entries self.new.latest }
        ensures none { IfNone result (((i : ℕ) → values_in self.old.entries i ≡ None)
            × (self.new ≡ self.old)) }
    {
        let latest = self.latest?;
        let oldest = self.entries.get_link(latest)?.prev()?;
        let link = self.entries.remove_link_no_gen(oldest).allow()?;
        // It was the only one, if it was used last too.
        self.latest = self.if_there(latest);
        Some((oldest, link.t))
    }
}
