//! A chain arena by value.
ghost use Rattle.std.specs.Prelude.{◌≡◌, ◌≤◌, ◌<◌, ◌%◌, ◌^◌, [], All, Contains, IfNone, IfOk};
ghost use Rattle.std.specs.Prelude.{IfSome, map as list_map};
ghost use Rattle.std.specs.List.{sum as sum_of};
ghost use Rattle.triple_arena.specs.Compression.{value_of};
ghost use Rattle.triple_arena.specs.Content.{live_count};
ghost use Rattle.triple_arena_chain.specs.Listed.{listed_values};

use std::alloc::{AllocError, Allocator};
use triple_arena::{ArenaTrait, PtrCore};
use triple_arena_chain::{ChainArena, ChainSlots};

/// How many links come.
#[tactic(auto, using(crate::proofs::CountLemmas::as_many_links))]
pub fn count<P: PtrCore, T: Drop, S: ChainSlots<P, T>>(chains: ChainArena<P, T, S>) -> usize
    ensures { result ≡ live_count chains }
{
    let len = chains.len();
    let mut count = 0;
    for _entry in chains {
        count += 1;
    }
    prove!(count == len);
    count
}

/// The sum of the values. Past the greatest number it goes on from 0.
pub fn sum<P: PtrCore, S: ChainSlots<P, u64>>(chains: ChainArena<P, u64, S>) -> u64
    ensures { result ≡ sum_of (list_map value_of (listed_values chains)) % 2 ^ 64 }
{
    let mut total = 0u64;
    for (_, value) in chains {
        total = total.wrapping_add(value);
    }
    total
}

/// The first value, in the order of the indexes, that is at least this one. The other links are
/// dropped half-way.
pub fn find<P: PtrCore, S: ChainSlots<P, u64>>(
    chains: ChainArena<P, u64, S>,
    least: u64,
) -> Option<(P, u64)>
    ensures none { IfNone result (All (λ e. value_of e < least) (listed_values chains)) }
    ensures some { IfSome result (λ e. (least ≤ e.1)
        × Contains (listed_values chains) (P.index e.0, (P.generation e.0, e.1))) }
{
    for (p, value) in chains {
        if value >= least {
            return Some((p, value));
        }
    }
    None
}

/// The first link, by one `next`. The others are dropped.
pub fn first<P: PtrCore, T: Drop, S: ChainSlots<P, T>>(
    chains: ChainArena<P, T, S>,
) -> Option<(P, T)>
    ensures { IfNone result (listed_values chains ≡ []) }
{
    let mut links = chains.into_iter();
    let first = links.next();
    drop(links);
    first
}

/// The values beside their pointers, in the order of the indexes.
pub fn listed<P: PtrCore, T: Drop, S: ChainSlots<P, T>, A: Allocator>(
    chains: ChainArena<P, T, S>,
    alloc: A,
) -> Result<Vec<(P, T), A>, AllocError>
    ensures { IfOk result (λ v. list_map (λ e. (P.index e.0, (P.generation e.0, e.1))) v.items
        ≡ listed_values chains) }
{
    let mut entries = Vec::new(alloc);
    for entry in chains {
        entries.push(entry)?;
    }
    Ok(entries)
}
