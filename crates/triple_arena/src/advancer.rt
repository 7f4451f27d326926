//! Going over the pointers of an arena, by their indexes.
ghost use Rattle.std.specs.Prelude.{◌≡◌, ℕ, ◌-◌, ◌^◌, ◌<◌, min, if◌then◌else◌, true, false};
ghost use Rattle.std.specs.Prelude.{length, Option, Some, None, IfSome, IfNone, ⊤};
ghost use Rattle.std.specs.Int.NonZero.{non_zero_usize_get as at};
ghost use Rattle.std.specs.Option.{option_map};
ghost use Rattle.triple_arena.specs.Entries.{pointer_at, generation_at, pointer_by};
ghost use Rattle.triple_arena.specs.Content.{Content, entry_at, last_index as last_index_of};
ghost use Rattle.triple_arena.specs.DirectContent.{entry_at as entry_of, as_content};
ghost use Rattle.triple_arena.specs.Walk.{past, to_come, walk_over, FindsAhead, IsOver, Steps};

use crate::{Arena, ArenaSlots, DirectArena, DirectSlots};
use proof_marks::unreached;
use std::marker::{Model, PhantomData};
use std::num::NonZeroUsize;
use triple_arena_ptr::{Advancer, AllocError, PtrCore, PtrInxCore};

/// Gives the pointers to the entries of an arena, one a call, by rising or by falling index. The
/// arena is free between the calls.
///
/// A call gives the pointer at the first index that is live then, of those up to its end that no
/// call has passed. The end is set when it is made: an entry that is put in behind it later is not
/// given. Once there is none, no call gives one.
#[derive(Drop)]
pub struct PtrAdvancer<P: PtrCore> {
    // The indexes that are left are those after `start`, up to `end`.
    start: usize,
    end: usize,
    rev: bool,
    pointers: PhantomData<P>,
}

impl<P: PtrCore> Model for PtrAdvancer<P> {
    ghost use Rattle.std.specs.Prelude.{◌-◌};
    ghost use Rattle.triple_arena.specs.Walk.{Walk, walk_over};

    ghost Value = { Walk };

    ghost view = { λ a. walk_over a.start a.end a.rev };

    ghost inverse = { λ w. record
        { start = w.low - 1; end = w.high; rev = w.falls; pointers = record {} } };
}

impl<P: PtrCore> Clone for PtrAdvancer<P> {
    ghost is_clone = { λ x y. y ≡ x };

    ghost is_infallible = { λ _. ⊤ };

    fn clone(&self) -> Result<Self, AllocError> {
        Ok(*self)
    }
}

impl<P: PtrCore> Copy for PtrAdvancer<P> {}

impl<P: PtrCore> PtrAdvancer<P> {
    // Over the indexes after `start`, up to `end`.
    pub(crate) fn over(start: usize, end: usize, rev: bool) -> Self
        ensures { result ≡ walk_over start end rev }
    {
        PtrAdvancer {
            start,
            end,
            rev,
            pointers: PhantomData,
        }
    }

    // Over no index.
    fn ended() -> Self
        ensures { IsOver result }
    {
        PtrAdvancer::over(0, 0, false)
    }

    // From `i` on, rising up to `end`, or with `rev` falling to 1.
    pub(crate) fn from_index(i: P::Inx, end: usize, rev: bool) -> Self
        ensures direction { result.falls ≡ rev }
        ensures low { result.low ≡ (if rev then 1 else min (P.Inx.number i) (2 ^ 64)) }
        ensures rising_to { rev ≡ false → result.high ≡ end }
        ensures falling_from { rev ≡ true → result.high ≡ min (P.Inx.number i) (2 ^ 64 - 1) }
    {
        let number = i.try_into_usize();
        if rev {
            let high = match number {
                Some(i) => i.get(),
                // No index past a `usize` is live.
                None => usize::MAX,
            };
            return PtrAdvancer::over(0, high, true);
        }
        let start = match number {
            Some(i) => i.get() - 1,
            None => usize::MAX,
        };
        PtrAdvancer::over(start, end, false)
    }

    // Passes what a step gave, or ends if it gave nothing.
    fn pass(&mut self, given: Option<P>)
        requires { IfSome given (λ p. P.index p < 2 ^ 64) }
        ensures passed { IfSome given (λ p. self.new ≡ past self.old (P.index p)) }
        ensures over { IfNone given (IsOver self.new) }
    {
        match given {
            Some(p) => match p.inx().try_into_usize() {
                Some(i) if self.rev => self.end = i.get() - 1,
                Some(i) => self.start = i.get(),
                None => unreached!(),
            },
            None => self.end = 0,
        }
    }
}

// What finds its live entries by the indexes of its slots.
pub(crate) trait LivePointers<P: PtrCore, T> {
    // What it holds, as an `Arena` would hold it.
    ghost content: { Self → Content T };

    // The number of slots.
    fn slots_len(&self) -> usize
        ensures { result ≡ length (content self.now).slots };

    // The pointer to the entry at `i`, if it is live.
    fn pointer_of(&self, i: NonZeroUsize) -> Option<P>
        ensures { pointer_by P.index P.generation result
            ≡ pointer_at (entry_at (content self.now)) (at i) };

    // The pointer to the first live entry at the indexes after `start`, up to `end`.
    final fn first_live(&self, start: usize, end: usize) -> Option<P>
        ensures found { FindsAhead (entry_at (content self.now)) (walk_over start end false)
            (pointer_by P.index P.generation result) }
        ensures number { IfSome result (λ p. P.index p < 2 ^ 64) }
    {
        let last = end.min(self.slots_len());
        for before in start..last {
            let Some(i) = NonZeroUsize::new(before + 1) else {
                unreached!()
            };
            if let Some(p) = self.pointer_of(i) {
                return Some(p);
            }
        }
        None
    }

    // The pointer to the last live entry at the indexes after `start`, up to `end`.
    final fn last_live(&self, start: usize, end: usize) -> Option<P>
        ensures found { FindsAhead (entry_at (content self.now)) (walk_over start end true)
            (pointer_by P.index P.generation result) }
        ensures number { IfSome result (λ p. P.index p < 2 ^ 64) }
    {
        let mut last = end.min(self.slots_len());
        while start < last {
            let Some(i) = NonZeroUsize::new(last) else {
                unreached!()
            };
            if let Some(p) = self.pointer_of(i) {
                return Some(p);
            }
            last -= 1;
        }
        None
    }

    // The pointer to the live entry with the least index.
    final fn first_of_all(&self) -> Option<P>
        ensures live { IfSome result (λ p. generation_at (entry_at (content self.now)) (P.index p)
            ≡ Some (P.generation p)) }
        ensures first { IfSome result (λ p. (j : ℕ) → j < P.index p
            → entry_at (content self.now) j ≡ None) }
        ensures none { IfNone result ((j : ℕ) → entry_at (content self.now) j ≡ None) }
    {
        self.first_live(0, self.slots_len())
    }

    // The pointer to the live entry with the greatest index.
    final fn last_of_all(&self) -> Option<P>
        ensures live { IfSome result (λ p. generation_at (entry_at (content self.now)) (P.index p)
            ≡ Some (P.generation p)) }
        ensures last { IfSome result (λ p. (j : ℕ) → P.index p < j
            → entry_at (content self.now) j ≡ None) }
        ensures none { IfNone result ((j : ℕ) → entry_at (content self.now) j ≡ None) }
    {
        self.last_live(0, self.slots_len())
    }

    // The greatest live index, or 0 if no index is live.
    final fn last_index(&self) -> usize
        ensures { result ≡ last_index_of (content self.now) }
    {
        match self.last_live(0, self.slots_len()) {
            Some(p) => match p.inx().try_into_usize() {
                Some(i) => i.get(),
                None => unreached!(),
            },
            None => 0,
        }
    }

    // What the next step of an advancer gives.
    final fn next_live(&self, advancer: &PtrAdvancer<P>) -> Option<P>
        ensures found { FindsAhead (entry_at (content self.now)) advancer.now
            (pointer_by P.index P.generation result) }
        ensures number { IfSome result (λ p. P.index p < 2 ^ 64) }
    {
        if advancer.rev {
            self.last_live(advancer.start, advancer.end)
        } else {
            self.first_live(advancer.start, advancer.end)
        }
    }
}

impl<P: PtrCore, T: Drop, S: ArenaSlots<P, T>> LivePointers<P, T> for Arena<P, T, S> {
    ghost content = { λ c. c };

    fn slots_len(&self) -> usize {
        self.slot_count()
    }

    fn pointer_of(&self, i: NonZeroUsize) -> Option<P> {
        self.pointer(i)
    }
}

impl<P: PtrCore, T: Drop, S: DirectSlots<P, T>> LivePointers<P, T> for DirectArena<P, T, S> {
    ghost content = { as_content };

    fn slots_len(&self) -> usize {
        self.slot_count()
    }

    fn pointer_of(&self, i: NonZeroUsize) -> Option<P> {
        self.pointer(i)
    }
}

impl<P: PtrCore, T: Drop, S: ArenaSlots<P, T>> Advancer<Arena<P, T, S>> for PtrAdvancer<P> {
    type Item = P;

    ghost remaining = { λ a _. to_come a };

    ghost advance_gives = { λ before c given after. Steps (entry_at c) before
        (option_map (λ p. (P.index p, P.generation p)) given) after };

    fn advance(&mut self, arena: &Arena<P, T, S>) -> Option<P> {
        let given = arena.next_live(self);
        self.pass(given);
        given
    }

    fn empty() -> Self {
        PtrAdvancer::ended()
    }
}

impl<P: PtrCore, T: Drop, S: DirectSlots<P, T>> Advancer<DirectArena<P, T, S>> for PtrAdvancer<P> {
    type Item = P;

    ghost remaining = { λ a _. to_come a };

    ghost advance_gives = { λ before d given after. Steps (entry_of d) before
        (option_map (λ p. (P.index p, P.generation p)) given) after };

    fn advance(&mut self, arena: &DirectArena<P, T, S>) -> Option<P> {
        let given = arena.next_live(self);
        self.pass(given);
        given
    }

    fn empty() -> Self {
        PtrAdvancer::ended()
    }
}
