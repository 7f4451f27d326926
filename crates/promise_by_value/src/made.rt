//! Chain arenas that are made of arenas of links, by value.
ghost use Rattle.std.specs.Prelude.{◌≡◌, ◌↔◌, ◌%◌, ◌^◌, IsOk, IfOk, IfErr, map as list_map};
ghost use Rattle.std.specs.List.{sum as sum_of};
ghost use Rattle.triple_arena.specs.Compression.{value_of};
ghost use Rattle.triple_arena.specs.Content.{live_count};
ghost use Rattle.linked_lists.specs.LinkedLists.{IsAgreed};
ghost use Rattle.triple_arena_chain.specs.Links.{ends_in};
ghost use Rattle.triple_arena_chain.specs.Listed.{listed_values};

use crate::chains;
use triple_arena::{Arena, ArenaTrait, PtrCore};
use triple_arena_chain::{ChainArena, ChainSlots, LinkNoGen};

/// What `from_arena` answers, handed on.
pub fn become_chains<P: PtrCore, T: Drop, S: ChainSlots<P, T>>(
    arena: Arena<P, LinkNoGen<P, T>, S>,
) -> Result<ChainArena<P, T, S>, Arena<P, LinkNoGen<P, T>, S>>
    ensures variant { IsOk result ↔ IsAgreed (ends_in arena) }
    ensures ok { IfOk result (λ chains. chains ≡ arena) }
    ensures err { IfErr result (λ refused. refused ≡ arena) }
{
    ChainArena::from_arena(arena)
}

/// The chain arena of links that agree.
pub fn agreed<P: PtrCore, T: Drop, S: ChainSlots<P, T>>(
    arena: Arena<P, LinkNoGen<P, T>, S>,
) -> ChainArena<P, T, S>
    requires { IsAgreed (ends_in arena) }
    ensures { result ≡ arena }
{
    match ChainArena::from_arena(arena) {
        Ok(chains) => chains,
        Err(_) => unreachable!(),
    }
}

/// A chain arena of an empty arena.
pub fn empty<P: PtrCore, T: Drop, S: ChainSlots<P, T>>(alloc: S::Alloc) -> ChainArena<P, T, S>
    ensures { live_count result ≡ 0 }
{
    agreed(Arena::new(alloc))
}

// The sum of the values of links that do not agree.
fn sum_links<P: PtrCore, S: ChainSlots<P, u64>>(links: Arena<P, LinkNoGen<P, u64>, S>) -> u64
    ensures { result ≡ sum_of (list_map value_of (listed_values links)) % 2 ^ 64 }
{
    let mut total = 0u64;
    for (_, link) in links {
        total = total.wrapping_add(link.t);
    }
    total
}

/// The sum of the values of the links, whether they agree or not. Past the greatest number it goes
/// on from 0.
pub fn sum_either<P: PtrCore, S: ChainSlots<P, u64>>(arena: Arena<P, LinkNoGen<P, u64>, S>) -> u64
    ensures { result ≡ sum_of (list_map value_of (listed_values arena)) % 2 ^ 64 }
{
    match ChainArena::from_arena(arena) {
        Ok(chains) => chains::sum(chains),
        Err(refused) => sum_links(refused),
    }
}
