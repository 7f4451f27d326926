//! The calls at an ordered arena that is copied.
use test_kit::{Call, Transcript};

/// What makes those that are not of every arena. It is one trait, so that what is generic in it
/// names one bound.
pub trait Copied {
    fn tell_generation(&self, transcript: &mut Transcript, line: &str);

    fn step_generation(&mut self, transcript: &mut Transcript, line: &str);

    fn tell_first(&self, transcript: &mut Transcript, line: &str);

    fn tell_last(&self, transcript: &mut Transcript, line: &str);

    fn tell_place(&self, transcript: &mut Transcript, call: &Call<'_>);

    /// Puts the pair of the first two numbers in.
    fn put(&mut self, transcript: &mut Transcript, call: &Call<'_>);

    fn walk_along(&self, transcript: &mut Transcript, line: &str);

    /// Takes so many items of a drain along the list, and tells how many are left when it is let
    /// go.
    fn drain_along(&mut self, transcript: &mut Transcript, call: &Call<'_>);
}

/// Makes such a call, and says whether there is one of that name.
pub fn calls_copied<A: Copied>(
    arena: &mut A,
    transcript: &mut Transcript,
    call: &Call<'_>,
) -> bool {
    let line = call.line;
    match call.verb {
        "generation" => arena.tell_generation(transcript, line),
        "inc_generation" => arena.step_generation(transcript, line),
        "first" => arena.tell_first(transcript, line),
        "last" => arena.tell_last(transcript, line),
        "find_key" => arena.tell_place(transcript, call),
        "insert" => arena.put(transcript, call),
        "iter_ordered" => arena.walk_along(transcript, line),
        "drain_ordered" => arena.drain_along(transcript, call),
        _ => return false,
    }
    true
}
