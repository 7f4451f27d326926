//! What a store's lines are to the law on looks.
ghost use Rattle.route_book.specs.SweepSteps.{AreSweepSteps};

use triple_arena_ptr::PtrCore;

/// What a line does to the two counters and to the looks is its step of [`sweeps`](super::sweeps),
/// if no counter is past the greatest generation and the references are at most `most`. The step is
/// a pack for `pack`, an end for a removal that finds a place or a stop, and else neither. So that
/// law bounds the looks of lines by their packs and removals.
pub fn lines_are_sweep_steps<P: PtrCore>()
    ensures { AreSweepSteps }
{}
