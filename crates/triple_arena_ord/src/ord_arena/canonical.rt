//! Comparisons of two ordered arenas by their items in order, whatever their pointers and their
//! room.
ghost use Rattle.std.specs.Prelude.{◌≡◌};
ghost use Rattle.std.specs.Cmp.Lexicographic.{pointwise, slice_cmp, slice_partial_cmp};
ghost use Rattle.triple_arena_ord.specs.Ordered.{ordered_entries};
ghost use Rattle.triple_arena_ord.specs.Canonical.{by_item};

use crate::ord_iterators::Iter;
use crate::{OrdSlots, SimpleOrdArena};
use std::cmp::Ordering;
use triple_arena::PtrCore;

// Whether two lists of entries have equal items, and as many.
fn same<P: PtrCore, Q: PtrCore, T: PartialEq + Drop, S: OrdSlots<P, T>, R: OrdSlots<Q, T>>(
    left: Iter<'_, P, T, S>,
    right: Iter<'_, Q, T, R>,
) -> bool
    ensures { result ≡ pointwise (by_item T.eq) left.entry right.entry }
{
    let mut left = left;
    let mut right = right;
    'pairs: while let Some((_, a)) = left.next() {
        let Some((_, b)) = right.next() else {
            return false;
        };
        if a != b {
            return false;
        }
    }
    right.next().is_none()
}

// How the items of two lists of entries compare, where they may not.
fn partial_order<
    P: PtrCore,
    Q: PtrCore,
    T: PartialOrd + Drop,
    S: OrdSlots<P, T>,
    R: OrdSlots<Q, T>,
>(left: Iter<'_, P, T, S>, right: Iter<'_, Q, T, R>) -> Option<Ordering>
    ensures { result ≡ slice_partial_cmp (by_item T.partial_cmp) left.entry right.entry }
{
    let mut left = left;
    let mut right = right;
    'pairs: while let Some((_, a)) = left.next() {
        let Some((_, b)) = right.next() else {
            return Some(Ordering::Greater);
        };
        match a.partial_cmp(b) {
            Some(found) => match found {
                Ordering::Equal => {}
                Ordering::Less => return Some(Ordering::Less),
                Ordering::Greater => return Some(Ordering::Greater),
            },
            None => return None,
        }
    }
    match right.next() {
        Some(_) => Some(Ordering::Less),
        None => Some(Ordering::Equal),
    }
}

// How the items of two lists of entries compare.
fn order<P: PtrCore, Q: PtrCore, T: Ord + Drop, S: OrdSlots<P, T>, R: OrdSlots<Q, T>>(
    left: Iter<'_, P, T, S>,
    right: Iter<'_, Q, T, R>,
) -> Ordering
    ensures { result ≡ slice_cmp (by_item T.cmp) left.entry right.entry }
{
    let mut left = left;
    let mut right = right;
    'pairs: while let Some((_, a)) = left.next() {
        let Some((_, b)) = right.next() else {
            return Ordering::Greater;
        };
        match a.cmp(b) {
            Ordering::Equal => {}
            Ordering::Less => return Ordering::Less,
            Ordering::Greater => return Ordering::Greater,
        }
    }
    match right.next() {
        Some(_) => Ordering::Less,
        None => Ordering::Equal,
    }
}

impl<P: PtrCore, T: Drop, S: OrdSlots<P, T>> SimpleOrdArena<P, T, S> {
    /// Whether both lists have equal items, and as many. Pointers, generations and room are not
    /// looked at.
    pub fn canonical_eq<Q: PtrCore, R: OrdSlots<Q, T>>(
        &self,
        other: &SimpleOrdArena<Q, T, R>,
    ) -> bool
    where
        T: PartialEq,
        ensures { result ≡ pointwise (by_item T.eq) (ordered_entries self.now)
            (ordered_entries other.now) }
    {
        same(self.iter_ordered(), other.iter_ordered())
    }

    /// How the items of both lists compare: the first pair that is not equal decides, and else the
    /// lengths do, as for two vectors. `None` if the items of that pair do not compare.
    pub fn canonical_partial_cmp<Q: PtrCore, R: OrdSlots<Q, T>>(
        &self,
        other: &SimpleOrdArena<Q, T, R>,
    ) -> Option<Ordering>
    where
        T: PartialOrd,
        ensures { result ≡ slice_partial_cmp (by_item T.partial_cmp)
            (ordered_entries self.now) (ordered_entries other.now) }
    {
        partial_order(self.iter_ordered(), other.iter_ordered())
    }

    /// How the items of both lists compare, if items always do: the first pair that is not equal
    /// decides, and else the lengths do.
    pub fn canonical_cmp<Q: PtrCore, R: OrdSlots<Q, T>>(
        &self,
        other: &SimpleOrdArena<Q, T, R>,
    ) -> Ordering
    where
        T: Ord,
        ensures { result ≡ slice_cmp (by_item T.cmp) (ordered_entries self.now)
            (ordered_entries other.now) }
    {
        order(self.iter_ordered(), other.iter_ordered())
    }
}
