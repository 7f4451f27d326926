//! The answers of calls that step generations.
ghost use Rattle.std.specs.Prelude.{◌≡◌, Some};
ghost use Rattle.triple_arena_ptr.specs.InvalidationOption.{value_of, overflowed};
ghost use Rattle.triple_arena_ptr.specs.InvalidationResult.{answer_of};

use triple_arena_ptr::{InvalidationOption, InvalidationResult};

// The answer with this value, of a step that wrapped the generations or did not.
pub(crate) fn answer<T>(wrapped: bool, value: T) -> InvalidationOption<T>
    ensures value { value_of result ≡ value }
    ensures overflow { overflowed result ≡ wrapped }
{
    if wrapped {
        InvalidationOption::GenerationOverflow(value)
    } else {
        InvalidationOption::Success(value)
    }
}

// The same answer, for a pointer that was valid.
pub(crate) fn valid<T>(answer: InvalidationOption<T>) -> InvalidationResult<T>
    ensures { answer_of result ≡ Some answer }
{
    match answer {
        InvalidationOption::Success(value) => InvalidationResult::Success(value),
        InvalidationOption::GenerationOverflow(value) => {
            InvalidationResult::GenerationOverflow(value)
        }
    }
}
