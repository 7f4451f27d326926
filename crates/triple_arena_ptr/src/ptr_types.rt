//! The pointer types. Each has a kind of its own, so that what asks for a pointer of one takes none
//! of another.
ghost use Rattle.std.specs.Prelude.{codes};

use crate::pointer::{Pointer, PtrKind};
use std::num::{NonZeroU8, NonZeroU16, NonZeroU32, NonZeroU64, NonZeroU128, NonZeroUsize};

/// A pointer with a `usize` index and a `u64` generation.
pub type P0 = Pointer<NonZeroUsize, NonZeroU64, P0Kind>;

/// The kind of `P0`.
#[derive(Clone, Copy, PartialEq, Eq, PartialOrd, Ord, Hash)]
pub struct P0Kind;

impl PtrKind for P0Kind {
    ghost name = { codes "P0" };

    fn name() -> &'static str {
        "P0"
    }
}

/// A pointer with a `usize` index and a `u64` generation, of another kind than `P0`.
pub type Q2 = Pointer<NonZeroUsize, NonZeroU64, Q2Kind>;

/// The kind of `Q2`.
#[derive(Clone, Copy, PartialEq, Eq, PartialOrd, Ord, Hash)]
pub struct Q2Kind;

impl PtrKind for Q2Kind {
    ghost name = { codes "Q2" };

    fn name() -> &'static str {
        "Q2"
    }
}

/// A pointer with a `u8` index and a `u8` generation.
///
/// Its generations wrap after 254 removals. From then on an old pointer may find a newer element.
pub type P1 = Pointer<NonZeroU8, NonZeroU8, P1Kind>;

/// The kind of `P1`.
#[derive(Clone, Copy, PartialEq, Eq, PartialOrd, Ord, Hash)]
pub struct P1Kind;

impl PtrKind for P1Kind {
    ghost name = { codes "P1" };

    fn name() -> &'static str {
        "P1"
    }
}

/// A pointer with a `u16` index and a `u16` generation.
pub type P2 = Pointer<NonZeroU16, NonZeroU16, P2Kind>;

/// The kind of `P2`.
#[derive(Clone, Copy, PartialEq, Eq, PartialOrd, Ord, Hash)]
pub struct P2Kind;

impl PtrKind for P2Kind {
    ghost name = { codes "P2" };

    fn name() -> &'static str {
        "P2"
    }
}

/// A pointer with a `u32` index and a `u32` generation.
pub type P3 = Pointer<NonZeroU32, NonZeroU32, P3Kind>;

/// The kind of `P3`.
#[derive(Clone, Copy, PartialEq, Eq, PartialOrd, Ord, Hash)]
pub struct P3Kind;

impl PtrKind for P3Kind {
    ghost name = { codes "P3" };

    fn name() -> &'static str {
        "P3"
    }
}

/// A pointer with a `u64` index and a `u128` generation.
pub type P4 = Pointer<NonZeroU64, NonZeroU128, P4Kind>;

/// The kind of `P4`.
#[derive(Clone, Copy, PartialEq, Eq, PartialOrd, Ord, Hash)]
pub struct P4Kind;

impl PtrKind for P4Kind {
    ghost name = { codes "P4" };

    fn name() -> &'static str {
        "P4"
    }
}

/// A pointer with a `usize` index alone.
///
/// It has no generation: an old pointer finds whatever stands at its index now.
pub type P5 = Pointer<NonZeroUsize, (), P5Kind>;

/// The kind of `P5`.
#[derive(Clone, Copy, PartialEq, Eq, PartialOrd, Ord, Hash)]
pub struct P5Kind;

impl PtrKind for P5Kind {
    ghost name = { codes "P5" };

    fn name() -> &'static str {
        "P5"
    }
}
