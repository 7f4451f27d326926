//! Each generic call once, at a concrete type.
ghost use Rattle.std.specs.Prelude.{◌≡◌, [], IsSome, Some, None, drop, if◌then◌else◌};
ghost use Rattle.triple_arena_ptr.specs.Recast.{renamed};

use std::num::NonZeroUsize;
use std::test::Fail;
use triple_arena_ptr::{
    Advancer, InvalidationOption, InvalidationResult, P0, PtrCore, PtrGenCore, PtrInxCore,
    PtrOrNone, Recast, Recaster, nzusize_iter,
};

// The items that generic code finds after a recast.
fn recast_items<I, T: Recast<I>, R: Recaster<Item = I>>(
    value: &mut T,
    recaster: &R,
) -> Result<(), I>
    ensures { T.items value.new ≡ renamed (R.image recaster.now) (T.items value.old) }
{
    value.recast(recaster)
}

// One pointer has an image.
#[derive(Drop)]
struct Renaming {
    from: P0,
    to: P0,
}

impl Recaster for Renaming {
    type Item = P0;

    ghost image = { λ r p. if ⟦<P0 as PartialEq>⟧.eq p r.from then Some r.to else None };

    fn recast_item(&self, item: &mut P0) -> Result<(), P0> {
        if *item == self.from {
            *item = self.to;
            Ok(())
        } else {
            Err(*item)
        }
    }
}

#[test]
fn recasts_up_to_the_first_that_is_missing(rt: HostRuntime) -> Result<(), Fail> {
    let old = P0::invalid();
    let new = P0::_from_raw(NonZeroUsize::MIN, PtrGenCore::two());
    let renaming = Renaming { from: old, to: new };
    let mut value = (Some(old), (7u64, (old, None::<P0>)));
    assert!(rt; recast_items(&mut value, &renaming) == Ok(()));
    assert!(rt; value == (Some(new), (7, (new, None))));
    let mut value = ((old, new), old);
    assert!(rt; value.recast(&renaming) == Err(new));
    assert!(rt; value == ((new, new), old));
    Ok(())
}

#[test]
fn forgets_what_has_no_image(rt: HostRuntime) -> Result<(), Fail> {
    let old = P0::invalid();
    let new = P0::_from_raw(NonZeroUsize::MIN, PtrGenCore::two());
    let renaming = Renaming { from: old, to: new };
    let held = |ptr| PtrOrNone { ptr };
    let mut value = (held(Some(old)), (held(Some(new)), (held(None), old)));
    assert!(rt; value.recast(&renaming) == Ok(()));
    assert!(rt; value == (held(Some(new)), (held(None), (held(None), new))));
    Ok(())
}

// An advancer over a collection that stays as it is ends.
fn drain<C, A: Advancer<C>>(advancer: &mut A, collection: &C)
where
    A::Item: Drop,
    requires { IsSome (A.remaining advancer.old collection.now) }
    ensures { A.remaining advancer.new collection.now ≡ Some [] }
{
    while let Some(item) = advancer.advance(collection) {
        drop(item);
    }
}

// The bytes of an array from a place on.
#[derive(Drop)]
struct Bytes {
    next: usize,
    over: bool,
}

impl Advancer<[u8; 3]> for Bytes {
    type Item = u8;

    ghost remaining = { λ it bytes. Some (if it.over then [] else drop it.next bytes) };

    fn advance(&mut self, bytes: &[u8; 3]) -> Option<u8> {
        let at = self.next;
        if self.over || at >= 3 {
            return None;
        }
        self.next = at + 1;
        Some(bytes[at])
    }

    fn empty() -> Self {
        Bytes {
            next: 0,
            over: true,
        }
    }
}

#[test]
fn advances_over_what_changes(rt: HostRuntime) -> Result<(), Fail> {
    let mut bytes = [1, 2, 3];
    let mut advancer = Bytes {
        next: 0,
        over: false,
    };
    assert!(rt; advancer.advance(&bytes) == Some(1));
    bytes[1] = 5;
    assert!(rt; advancer.advance(&bytes) == Some(5));
    drain(&mut advancer, &bytes);
    assert!(rt; advancer.advance(&bytes) == None);
    assert!(rt; Bytes::empty().advance(&bytes) == None);
    Ok(())
}

// A `for` over the indexes needs no proof.
fn sum(start: NonZeroUsize, end: Option<NonZeroUsize>) -> usize {
    let mut total: usize = 0;
    for inx in nzusize_iter(start, end) {
        total = total.wrapping_add(inx.get());
    }
    total
}

#[test]
fn indexes_from_both_ends(rt: HostRuntime) -> Result<(), Fail> {
    let two = NonZeroUsize::MIN.saturating_add(1);
    let four = NonZeroUsize::MIN.saturating_add(3);
    assert!(rt; sum(two, Some(four)) == 9);
    assert!(rt; sum(four, Some(two)) == 0);
    assert!(rt; sum(two, None) == 0);
    assert!(rt; sum(NonZeroUsize::MAX, Some(NonZeroUsize::MAX)) == usize::MAX);
    let mut left = nzusize_iter(two, Some(four)).into_iter();
    assert!(rt; left.next_back() == Some(four));
    assert!(rt; left.next() == Some(two));
    assert!(rt; left.next_back().map(|inx| inx.get()) == Some(3));
    assert!(rt; left.next() == None);
    Ok(())
}

#[test]
fn answers_of_invalidation(rt: HostRuntime) -> Result<(), Fail> {
    let success = InvalidationOption::Success(3u8);
    assert!(rt; success.is_success());
    assert!(rt; success.map(|n| n / 2) == InvalidationOption::Success(1));
    assert!(rt; InvalidationOption::GenerationOverflow(3u8).overflowing() == (3, true));
    assert!(rt; InvalidationOption::GenerationOverflow(3u8).strict() == None);
    assert!(rt; InvalidationResult::Success(3u8).allow() == Some(3));
    assert!(rt;
        InvalidationResult::GenerationOverflow(3u8)
            .map(|n| n / 2)
            .overflowing()
            == Some((1, true))
    );
    assert!(rt; InvalidationResult::<u8>::InvalidPtr.is_invalid());
    assert!(rt; InvalidationResult::Success(3u8).unwrap().allow() == 3);
    Ok(())
}
