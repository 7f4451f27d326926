//! What a section asks of its arenas.
//!
//! These traits promise nothing, so a section that is generic in them is proved without a clause of
//! the arenas' calls. That an arena keeps those is proved in the `impl`s, once for each kind of
//! arena, and not once more wherever a section names it.
use test_kit::{Call, Transcript};
use triple_arena::ReallocationError;

/// An arena that makes the calls of a section.
pub trait Player: Drop {
    /// What it takes its memory from.
    type Alloc;

    /// An arena with room for so many entries.
    fn with_room(alloc: Self::Alloc, room: usize) -> Result<Self, ReallocationError>;

    /// Makes the call that a line names.
    fn call(&mut self, transcript: &mut Transcript, call: &Call<'_>);

    /// Becomes a clone of another one.
    fn become_clone(&mut self, source: &Self, transcript: &mut Transcript, call: &Call<'_>);

    /// Shows a new clone, or the refusal.
    fn show_clone(&self, alloc: Self::Alloc, transcript: &mut Transcript);

    /// Goes over it by value.
    fn go_over(self, transcript: &mut Transcript);
}

/// An arena that makes the calls among the arenas of a section: it is `a`, and its type is that of
/// `b`.
pub trait Partner<D> {
    /// Makes a copy or moves entries, as a line says.
    fn call_among(
        &mut self,
        b: &mut Self,
        d: &mut D,
        e: &mut D,
        transcript: &mut Transcript,
        call: &Call<'_>,
    );
}
