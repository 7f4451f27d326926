//! Texts, as a person reads them.
ghost use Rattle.std.specs.Prelude.{codes};

use std::fmt::Display;
use std::num::{NonZeroU8, NonZeroU16, NonZeroU32, NonZeroU64, NonZeroU128, NonZeroUsize};
use std::process::Abort;
use std::test::Fail;
use triple_arena_ptr::{
    ChainInsertionError, DirectInsertionError, GetDisjointMutError, MaxCapacityReductionError,
    NotWithinCapacityError, OrdInsertionError, P0, P1, P2, P3, P4, P5, Pointer, Ptr, PtrCore,
    PtrKind, PtrNoGen, Q2, ReallocationError,
};

// A pointer writes this text by `{:?}` and by `{}`, and the formatter's answer is no error.
fn shows<P: Ptr + Display>(rt: &(impl Abort + Alloc), inx: P::Inx, generation: P::Gen, want: &str) {
    let p = P::_from_raw(inx, generation);
    match format!(in rt.alloc(); "{p:?} {p}") {
        Ok(text) => assert!(rt; text.as_str().split_once(' ') == Some((want, want))),
        Err(_) => panic!(rt; "no memory for a text"),
    }
}

// An index and a generation that no other pointer type has.
#[derive(Clone, Copy, PartialEq, Eq, PartialOrd, Ord, Hash)]
struct WideKind;

impl PtrKind for WideKind {
    ghost name = { codes "Wide" };

    fn name() -> &'static str {
        "Wide"
    }
}

type Wide = Pointer<NonZeroU128, NonZeroUsize, WideKind>;

#[test]
fn texts_of_wide_pointers(rt: HostRuntime) {
    let inx = NonZeroUsize::MIN.saturating_add(170);
    let generation = NonZeroU64::MIN.saturating_add(1);
    shows::<P0>(&rt, inx, generation, "P0[ab](2)");
    shows::<Q2>(&rt, inx, generation, "Q2[ab](2)");
    let generation = NonZeroU128::MIN.saturating_add((1 << 68) + 10);
    let text = "P4[ffffffffffffffff](10000000000000000b)";
    shows::<P4>(&rt, NonZeroU64::MAX, generation, text);
    let text = "Wide[10000000000000000b](ffffffffffffffff)";
    shows::<Wide>(&rt, generation, NonZeroUsize::MAX, text);
}

#[test]
fn texts_of_narrow_pointers(rt: HostRuntime) {
    shows::<P1>(&rt, NonZeroU8::MAX, NonZeroU8::MIN, "P1[ff](1)");
    shows::<P2>(&rt, NonZeroU16::MIN, NonZeroU16::MAX, "P2[1](ffff)");
    let inx = NonZeroU32::MIN.saturating_add(16);
    shows::<P3>(&rt, inx, NonZeroU32::MAX, "P3[11](ffffffff)");
}

#[test]
fn texts_of_uncounted_pointers(rt: HostRuntime) {
    shows::<P5>(&rt, NonZeroUsize::MIN, (), "P5[1]");
}

// The same without the generation, whose type is named at a pointer that is a parameter: at `P0`
// itself the check takes a minute longer.
fn shows_without<P: Ptr>(rt: &(impl Abort + Alloc), inx: P::Inx, want: &str) {
    shows::<PtrNoGen<P>>(rt, inx, (), want);
}

#[test]
fn texts_without_the_generation(rt: HostRuntime) {
    shows_without::<P0>(&rt, NonZeroUsize::MIN, "P0[1]");
    shows_without::<P1>(&rt, NonZeroU8::MAX, "P1[ff]");
}

// Each of the errors writes its text.
fn tell<E: Display>(rt: &(impl Abort + Alloc), errors: &[(E, &str)]) {
    for (error, want) in errors {
        match format!(in rt.alloc(); "{error}") {
            Ok(text) => assert!(rt; text.as_str() == *want),
            Err(_) => panic!(rt; "no memory for a text"),
        }
    }
}

const WITHIN: &str = "not within the capacity";

const BEYOND: &str = "beyond the maximum capacity";

const ALLOC: &str = "memory allocation failed";

#[test]
fn texts_of_errors(rt: HostRuntime) {
    tell(&rt, &[(NotWithinCapacityError, WITHIN)]);
    let text = "the maximum capacity cannot be reduced below what is in use";
    tell(&rt, &[(MaxCapacityReductionError, text)]);
    tell(
        &rt,
        &[
            (ReallocationError::BeyondMaxCapacity, BEYOND),
            (ReallocationError::AllocError, ALLOC),
        ],
    );
    tell(
        &rt,
        &[
            (
                DirectInsertionError::NotWithinCapacity,
                "the index is not within the capacity",
            ),
            (
                DirectInsertionError::ExistingElementAtIndex,
                "an element exists at the index already",
            ),
        ],
    );
    tell(
        &rt,
        &[
            (
                ChainInsertionError::FailedLinkRequirement,
                "the requirement on the links is not met",
            ),
            (ChainInsertionError::NotWithinCapacity, WITHIN),
            (ChainInsertionError::BeyondMaxCapacity, BEYOND),
            (ChainInsertionError::AllocError, ALLOC),
        ],
    );
    tell(
        &rt,
        &[
            (
                OrdInsertionError::FailedOrdRequirement,
                "the requirement on the order is not met",
            ),
            (OrdInsertionError::NotWithinCapacity, WITHIN),
            (OrdInsertionError::BeyondMaxCapacity, BEYOND),
            (OrdInsertionError::AllocError, ALLOC),
        ],
    );
    tell(
        &rt,
        &[
            (
                GetDisjointMutError::IndexOutOfBounds,
                "no element exists at one of the places",
            ),
            (
                GetDisjointMutError::OverlappingIndices,
                "the places overlap",
            ),
        ],
    );
}
