//! What a section asks of its arenas.
//!
//! These traits promise nothing, so a section that is generic in them is proved without a clause of
//! the arenas' calls. That an arena keeps those is proved in the `impl`s, once for each kind of
//! arena, and not once more wherever a section names it.
use test_kit::{Call, Transcript};
use triple_arena::ReallocationError;

/// An arena that makes the calls of a section.
pub trait Player: Drop {
    /// What it takes its memory from.
    type Alloc;

    /// An arena with room for so many entries.
    fn with_room(alloc: Self::Alloc, room: usize) -> Result<Self, ReallocationError>;

    /// Makes the call that a line names.
    fn call(&mut self, transcript: &mut Transcript, call: &Call<'_>);
}

/// A chain arena that makes the calls among the arenas of a section: with one of its own type, with
/// the arena `L` of links, and with the arena `V` of values.
pub trait Partner<L, V>: Player {
    /// Becomes a copy of another one.
    fn become_copy(
        &mut self,
        source: &Self,
        alloc: Self::Alloc,
        transcript: &mut Transcript,
        call: &Call<'_>,
    );

    /// Takes over the chains of another one.
    fn take_chains(&mut self, source: &mut Self, transcript: &mut Transcript, call: &Call<'_>);

    /// Takes over the links of an arena.
    fn take_links(
        &mut self,
        links: &mut L,
        alloc: Self::Alloc,
        transcript: &mut Transcript,
        call: &Call<'_>,
    );

    /// Copies its values to an arena.
    fn copy_values(&self, values: &mut V, transcript: &mut Transcript, call: &Call<'_>);
}
