//! What a call answers that ends pointers by a step of a generation.
ghost use Rattle.std.specs.Prelude.{◌≡◌, MatchOption, IsSome, IfSome, IsSomeAnd, IsNone, is_none};
ghost use Rattle.std.specs.Prelude.{not, false, option_and_then};
ghost use Rattle.std.specs.Option.{option_map, option_map_or};

/// The answer of a call that may step generations: its value, and whether a generation wrapped.
#[derive(Debug, PartialEq, Eq, Drop)]
pub enum InvalidationOption<T> {
    /// No generation wrapped.
    Success(T),
    /// A generation wrapped to 2: a pointer that ended long ago may be given again.
    GenerationOverflow(T),
}

impl<T> InvalidationOption<T> {
    ghost use Rattle.triple_arena_ptr.specs.InvalidationOption.{IsMappedBy, overflowed, value_of};
    ghost use Rattle.triple_arena_ptr.specs.InvalidationOption.{strict_value};

    /// Whether no generation wrapped.
    pub fn is_success(&self) -> bool
        ensures { result ≡ not (overflowed self.now) }
    {
        match self {
            InvalidationOption::Success(_) => true,
            InvalidationOption::GenerationOverflow(_) => false,
        }
    }

    /// Whether a generation wrapped to 2.
    pub fn is_overflow(&self) -> bool
        ensures { result ≡ overflowed self.now }
    {
        !self.is_success()
    }

    /// The value, also if a generation wrapped.
    pub fn allow(self) -> T
        ensures { result ≡ value_of self }
    {
        match self {
            InvalidationOption::Success(value) => value,
            InvalidationOption::GenerationOverflow(value) => value,
        }
    }

    /// The value, or `None` if a generation wrapped: then the value is dropped.
    pub fn strict(self) -> Option<T>
    where
        T: Drop,
        ensures { result ≡ strict_value self }
    {
        match self {
            InvalidationOption::Success(value) => Some(value),
            InvalidationOption::GenerationOverflow(_) => None,
        }
    }

    /// This answer, with what `f` makes of the value in its place.
    pub fn map<U, F: FnOnce(T) -> U>(self, f: F) -> InvalidationOption<U>
        requires { F.pre f (value_of self) }
        ensures { IsMappedBy F.post f self result }
    {
        match self {
            InvalidationOption::Success(value) => InvalidationOption::Success(f(value)),
            InvalidationOption::GenerationOverflow(value) => {
                InvalidationOption::GenerationOverflow(f(value))
            }
        }
    }

    /// The value, and whether a generation wrapped to 2.
    pub fn overflowing(self) -> (T, bool)
        ensures value { result.0 ≡ value_of self }
        ensures overflow { result.1 ≡ overflowed self }
    {
        match self {
            InvalidationOption::Success(value) => (value, false),
            InvalidationOption::GenerationOverflow(value) => (value, true),
        }
    }
}

/// The answer of a call that ends a pointer: its value, and whether a generation wrapped; or that
/// the pointer was not valid.
#[derive(Debug, PartialEq, Eq, Drop)]
pub enum InvalidationResult<T> {
    /// The pointer was valid, and no generation wrapped.
    Success(T),
    /// The pointer was valid, and a generation wrapped to 2: a pointer that ended long ago may be
    /// given again.
    GenerationOverflow(T),
    /// The pointer was not valid, and nothing was changed.
    InvalidPtr,
}

impl<T> InvalidationResult<T> {
    ghost use Rattle.triple_arena_ptr.specs.InvalidationOption.{IsMappedBy, overflowed, value_of};
    ghost use Rattle.triple_arena_ptr.specs.InvalidationOption.{strict_value};
    ghost use Rattle.triple_arena_ptr.specs.InvalidationResult.{answer_of};

    /// Whether the pointer was valid and no generation wrapped.
    pub fn is_success(&self) -> bool
        ensures { result ≡ option_map_or (λ a. not (overflowed a)) (answer_of self.now) false }
    {
        match self {
            InvalidationResult::Success(_) => true,
            _ => false,
        }
    }

    /// Whether the pointer was valid and a generation wrapped to 2.
    pub fn is_overflow(&self) -> bool
        ensures { result ≡ option_map_or overflowed (answer_of self.now) false }
    {
        match self {
            InvalidationResult::GenerationOverflow(_) => true,
            _ => false,
        }
    }

    /// Whether the pointer was not valid.
    pub fn is_invalid(&self) -> bool
        ensures { result ≡ is_none (answer_of self.now) }
    {
        match self {
            InvalidationResult::InvalidPtr => true,
            _ => false,
        }
    }

    /// The value if the pointer was valid, also if a generation wrapped.
    pub fn allow(self) -> Option<T>
        ensures { result ≡ option_map value_of (answer_of self) }
    {
        match self {
            InvalidationResult::Success(value) => Some(value),
            InvalidationResult::GenerationOverflow(value) => Some(value),
            InvalidationResult::InvalidPtr => None,
        }
    }

    /// The value if the pointer was valid and no generation wrapped. Else `None`: if a generation
    /// wrapped, the value is dropped.
    pub fn strict(self) -> Option<T>
    where
        T: Drop,
        ensures { result ≡ option_and_then strict_value (answer_of self) }
    {
        match self {
            InvalidationResult::Success(value) => Some(value),
            _ => None,
        }
    }

    /// This answer, with what `f` makes of the value in its place, if there is a value.
    pub fn map<U, F: FnOnce(T) -> U>(self, f: F) -> InvalidationResult<U>
    where
        F: Drop,
        requires { IfSome (answer_of self) (λ a. F.pre f (value_of a)) }
        ensures { MatchOption (answer_of self) (IsNone (answer_of result))
            (λ a. IsSomeAnd (answer_of result) (IsMappedBy F.post f a)) }
    {
        match self {
            InvalidationResult::Success(value) => InvalidationResult::Success(f(value)),
            InvalidationResult::GenerationOverflow(value) => {
                InvalidationResult::GenerationOverflow(f(value))
            }
            InvalidationResult::InvalidPtr => InvalidationResult::InvalidPtr,
        }
    }

    /// The value, and whether a generation wrapped to 2, if the pointer was valid.
    pub fn overflowing(self) -> Option<(T, bool)>
        ensures { result ≡ option_map (λ a. (value_of a, overflowed a)) (answer_of self) }
    {
        match self {
            InvalidationResult::Success(value) => Some((value, false)),
            InvalidationResult::GenerationOverflow(value) => Some((value, true)),
            InvalidationResult::InvalidPtr => None,
        }
    }

    /// The value, and whether a generation wrapped. The caller owes that the pointer was valid.
    pub fn unwrap(self) -> InvalidationOption<T>
        requires { IsSome (answer_of self) }
        ensures { answer_of self ≡ Some result }
    {
        match self {
            InvalidationResult::Success(value) => InvalidationOption::Success(value),
            InvalidationResult::GenerationOverflow(value) => {
                InvalidationOption::GenerationOverflow(value)
            }
            InvalidationResult::InvalidPtr => unreachable!(),
        }
    }
}
