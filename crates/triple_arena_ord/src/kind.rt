//! Where an insertion puts its item, and what it did.
ghost use Rattle.std.specs.Prelude.{◌≡◌};
ghost use Rattle.triple_arena_ord.specs.Kinds.{ptr_of};

use std::cmp::Ordering;
use triple_arena::PtrCore;

/// Where an insertion puts its item: by a key of the type `K`, or by an index of the type `I`,
/// whose generation is not looked at.
#[derive(Clone, Copy, Debug, PartialEq, Eq)]
pub enum InsertKind<I, K> {
    /// In an arena without an entry.
    Empty,
    /// In the place of the entry with an equal key, which it replaces; else where the key belongs.
    Normal(K),
    /// Directly before the entry with an equal key that is found; else where the key belongs.
    Nonhereditary(K),
    /// In the place of the entry with an equal key, which it replaces; else where the key belongs.
    /// The search goes along the list from `p_init` for at most `num` comparisons first. If it ends
    /// within them, the item goes where it ends.
    Linear { p_init: I, num: usize, k: K },
    /// Directly before the entry with an equal key that is found; else where the key belongs. The
    /// search goes along the list from `p_init` for at most `num` comparisons first. If it ends
    /// within them, the item goes where it ends.
    NonhereditaryLinear { p_init: I, num: usize, k: K },
    /// At an entry, whatever the keys are: `Equal` replaces it, `Less` puts the item directly
    /// before it, `Greater` directly after it.
    Manual { p_target: I, direction: Ordering },
}

/// Where an insertion puts its item.
pub type OrdInsertKind<P, K> = InsertKind<<P as PtrCore>::Inx, K>;

/// What an insertion is about to do: give its item a new entry, or replace that of an entry.
#[derive(Clone, Copy, Debug, PartialEq, Eq)]
pub enum OrdEntryKind<P> {
    /// The item gets an entry of its own, at this pointer.
    New(P),
    /// The item takes the place of another, at this pointer.
    Replacing(P),
}

impl<P: PtrCore> OrdEntryKind<P> {
    /// The pointer to the item, in either case.
    pub fn any(self) -> P
        ensures { result ≡ ptr_of self }
    {
        match self {
            OrdEntryKind::New(p) => p,
            OrdEntryKind::Replacing(p) => p,
        }
    }
}
