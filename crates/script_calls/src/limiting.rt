//! The line that sets the limit of an arena, over stacks that take one.
use test_kit::{Call, Transcript};
use triple_arena::SetMaxCapacity;

/// What a line that sets a limit does to an arena.
pub trait Limiting<A> {
    fn limit(arena: &mut A, transcript: &mut Transcript, call: &Call<'_>);
}

/// Over stacks that take no limit it is a line of no arena.
pub struct Unlimited;

/// Over the others it sets the limit.
pub struct Limited;

impl<A> Limiting<A> for Unlimited {
    fn limit(_arena: &mut A, transcript: &mut Transcript, call: &Call<'_>) {
        transcript.line(call.line);
    }
}

impl<A: SetMaxCapacity> Limiting<A> for Limited {
    fn limit(arena: &mut A, transcript: &mut Transcript, call: &Call<'_>) {
        transcript.answer(call.line, &arena.set_max_capacity(call.first as usize));
    }
}
