//! Documents whose sections are lists of paragraphs, which are numbered anew.
ghost use Rattle.std.specs.Prelude.{◌≡◌, ℕ, List};
ghost use Rattle.triple_arena_ptr.specs.Generation.{next_generation};
ghost use Rattle.triple_arena.specs.Content.{live_count};
ghost use Rattle.linked_lists.specs.LinkedLists.{IsLinear};
ghost use Rattle.triple_arena_chain.specs.Links.{ends_in};
ghost use Rattle.triple_arena_chain.specs.Runs.{IsRunFrom};

use triple_arena::PtrCore;
use triple_arena_chain::laws::compress_canonical_makes_runs;
use triple_arena_chain::{ChainArena, ChainSlots};

/// Numbers the paragraphs of a document from 1 on, so that those of each section have successive
/// numbers, in their order. No paragraph is lost, and no memory is taken. If generations are
/// counted, all pointers to paragraphs end.
pub fn number_paragraphs<P: PtrCore, T: Drop, S: ChainSlots<P, T>>(
    document: &mut ChainArena<P, T, S>,
)
    ensures sections { (section : List ℕ) → IsLinear (ends_in document.old) section
        → (first : ℕ) × IsRunFrom first section document.old document.new }
    ensures paragraphs { live_count document.new ≡ live_count document.old }
    ensures counter { document.new.counter ≡ next_generation P.Gen.last document.old.counter }
    ensures room { document.new.room ≡ document.old.room }
{
    compress_canonical_makes_runs::<P, T>();
    document.compress_canonical(false);
}
