//! Where a kind of insertion puts its item.
ghost use Rattle.std.specs.Prelude.{◌≡◌, ◌↔◌, ℕ, Some, None, IsSome, IfSome};
ghost use Rattle.std.specs.declared.cmp.Ordering.{Ordering as Way};
ghost use Rattle.triple_arena_ord.specs.Placing.{Meets, IsPlaceByKey, IsPlaceBeforeEqual};
ghost use Rattle.triple_arena_ord.specs.Placing.{IsPlaceFor, before_equal};
ghost use Rattle.triple_arena_ord.specs.Near.{IsEndOfWay};
ghost use Rattle.triple_arena_ord.specs.Ordered.{IsOrdered, size_in};
ghost use Rattle.triple_arena_ord.specs.Found.{place_by, IsLivePlace};

use crate::kind::InsertKind;
use crate::{OrdInsertKind, OrdSlots, SimpleOrdArena, SimpleOrdItem};
use std::cmp::Ordering;
use triple_arena::{ArenaTrait, PtrCore, PtrInxCore};
use triple_arena_ptr::Probes;

// Directly before an entry in place of in it.
fn before_equal<I: PtrInxCore>(place: Option<(I, Ordering)>) -> Option<(I, Ordering)>
    ensures { place_by I.number result ≡ before_equal (place_by I.number place) }
{
    match place {
        Some((i, direction)) => match direction {
            Ordering::Less => Some((i, Ordering::Less)),
            Ordering::Equal => Some((i, Ordering::Less)),
            Ordering::Greater => Some((i, Ordering::Greater)),
        },
        None => None,
    }
}

impl<P: PtrCore, T: SimpleOrdItem + Drop, S: OrdSlots<P, T>> SimpleOrdArena<P, T, S> {
    // The place for a key.
    fn place_by_key(&self, k: &T::Key) -> Option<(P::Inx, Ordering)>
        ensures by_key { IsPlaceByKey T.Key.cmp T.key_of k.now self.now
            (place_by P.Inx.number result) }
        ensures live { IsLivePlace P.Inx.number self.now result }
        ensures empty { result ≡ None → size_in self.now ≡ 0 }
    {
        self.seek(k, &mut Probes::new())
    }

    // The same, after a search along the list.
    fn place_near(&self, p_init: P::Inx, num: usize, k: &T::Key) -> Option<(P::Inx, Ordering)>
        ensures by_key { IsPlaceByKey T.Key.cmp T.key_of k.now self.now
            (place_by P.Inx.number result) }
        ensures ends { (end : ℕ × Way)
            → IsEndOfWay T.Key.cmp T.key_of (P.Inx.number p_init) num k.now self.now end
            → place_by P.Inx.number result ≡ Some end }
        ensures live { IsLivePlace P.Inx.number self.now result }
        ensures empty { result ≡ None → size_in self.now ≡ 0 }
    {
        self.seek_linear(p_init, num, k, &mut Probes::new())
    }

    // The place for a key, but directly before an entry with an equal key.
    fn place_before_equal(&self, k: &T::Key) -> Option<(P::Inx, Ordering)>
        ensures before { IsPlaceBeforeEqual T.Key.cmp T.key_of k.now self.now
            (place_by P.Inx.number result) }
        ensures live { IsLivePlace P.Inx.number self.now result }
        ensures empty { result ≡ None → size_in self.now ≡ 0 }
    {
        before_equal(self.place_by_key(k))
    }

    // The same, after a search along the list.
    fn place_near_before_equal(
        &self,
        p_init: P::Inx,
        num: usize,
        k: &T::Key,
    ) -> Option<(P::Inx, Ordering)>
        ensures before { IsPlaceBeforeEqual T.Key.cmp T.key_of k.now self.now
            (place_by P.Inx.number result) }
        ensures ends { (end : ℕ × Way)
            → IsEndOfWay T.Key.cmp T.key_of (P.Inx.number p_init) num k.now self.now end
            → place_by P.Inx.number result ≡ before_equal (Some end) }
        ensures live { IsLivePlace P.Inx.number self.now result }
        ensures empty { result ≡ None → size_in self.now ≡ 0 }
    {
        before_equal(self.place_near(p_init, num, k))
    }

    // The place that a kind asks for, if the entries are as it requires.
    pub(crate) fn place_for(
        &self,
        kind: OrdInsertKind<P, &T::Key>,
    ) -> Option<Option<(P::Inx, Ordering)>>
        ensures meets { IsSome result ↔ Meets P.Inx.number kind.entry self.now }
        ensures place { IfSome result
            (λ place. IsPlaceFor P.Inx.number T.Key.cmp T.key_of kind.entry self.now
            (place_by P.Inx.number place)) }
        ensures live { IfSome result (λ place. IsLivePlace P.Inx.number self.now place) }
        ensures empty { IfSome result (λ place. place ≡ None → size_in self.now ≡ 0) }
        ensures ordered { IsOrdered self.now }
    {
        // It also says that the list is as it must be.
        let len = self.len();
        match kind {
            InsertKind::Empty => if len == 0 { Some(None) } else { None },
            InsertKind::Normal(k) => Some(self.place_by_key(k)),
            InsertKind::Nonhereditary(k) => Some(self.place_before_equal(k)),
            InsertKind::Linear { p_init, num, k } => Some(self.place_near(p_init, num, k)),
            InsertKind::NonhereditaryLinear { p_init, num, k } => {
                Some(self.place_near_before_equal(p_init, num, k))
            }
            InsertKind::Manual {
                p_target,
                direction,
            } => {
                if self.chains.get_inx(p_target).is_some() {
                    Some(Some((p_target, direction)))
                } else {
                    None
                }
            }
        }
    }
}
