//! Insertions by a kind.
ghost use Rattle.std.specs.Prelude.{◌↔◌, ◌≡◌, IsSome, IsTrue, OnErr};
ghost use Rattle.triple_arena_chain.specs.Insertion.{InsertsWithinCapacity, InsertsReallocating};
ghost use Rattle.triple_arena_chain.specs.Links.{gap_among};

use triple_arena::PtrCore;
use triple_arena_chain::{ChainArenaTrait, ChainInsertionError, LinkInsertKind};

/// Whether the links are as the kind requires.
pub fn meets<P: PtrCore, T: Drop, C: ChainArenaTrait<P, T>>(
    chains: &C,
    kind: &LinkInsertKind<P>,
) -> bool
    ensures { IsTrue result
        ↔ IsSome (gap_among P.index P.generation P.Inx.number (C.links chains.now) kind.now) }
{
    let met = chains.meets(kind);
    met
}

/// Stores `t` where the kind says, if there is room.
pub fn insert_within_capacity<P: PtrCore, T: Drop, C: ChainArenaTrait<P, T>>(
    chains: &mut C,
    kind: LinkInsertKind<P>,
    t: T,
) -> Result<P, ChainInsertionError>
    ensures inserts { InsertsWithinCapacity P.index P.generation P.Inx.number kind t result
        (C.links chains.old) (C.links chains.new) }
    ensures err { OnErr result (chains.new ≡ chains.old) }
{
    let inserted = chains.insert_within_capacity(kind, t);
    inserted
}

/// Stores `t` where the kind says, and grows if there is no room.
pub fn insert_reallocating<P: PtrCore, T: Drop, C: ChainArenaTrait<P, T>>(
    chains: &mut C,
    kind: LinkInsertKind<P>,
    t: T,
) -> Result<P, ChainInsertionError>
    ensures inserts { InsertsReallocating P.index P.generation P.Inx.number kind t result
        (C.links chains.old) (C.links chains.new) C.takes_memory }
    ensures err { OnErr result (chains.new ≡ chains.old) }
{
    let grown = chains.insert_reallocating(kind, t);
    grown
}

/// Stores `t` where the kind says, and grows if there is no room. The links must be as the kind
/// requires.
pub fn insert<P: PtrCore, T: Drop, C: ChainArenaTrait<P, T>>(
    chains: &mut C,
    kind: LinkInsertKind<P>,
    t: T,
) -> Result<P, ChainInsertionError>
    requires { IsSome (gap_among P.index P.generation P.Inx.number (C.links chains.old) kind) }
    ensures inserts { InsertsReallocating P.index P.generation P.Inx.number kind t result
        (C.links chains.old) (C.links chains.new) C.takes_memory }
    ensures err { OnErr result (chains.new ≡ chains.old) }
{
    let stored = chains.insert(kind, t);
    stored
}
