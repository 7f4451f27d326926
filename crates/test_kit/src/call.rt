//! A line of a script: whose call it is, its name and its numbers.
use std::fmt::Debug;
use std::num::NonZeroUsize;
use triple_arena_ptr::{Ptr, PtrCore, PtrGenCore, PtrInxCore};

/// A pointer that calls take and answers show. It asks for less than [`Ptr`], whose bounds each
/// function would carry.
pub trait ShownPtr: PtrCore<Inx: Debug, Gen: Debug> + Debug + PartialEq {}

impl<P: Ptr> ShownPtr for P {}

/// The first two words of a line and up to five numbers, which are 0 if the line has none.
#[derive(Clone, Copy)]
pub struct Call<'a> {
    /// The line as it stands.
    pub line: &'a str,
    /// Whose call it is.
    pub whom: &'a str,
    /// The call's name.
    pub verb: &'a str,
    pub first: u64,
    pub second: u64,
    pub third: u64,
    pub fourth: u64,
    pub fifth: u64,
}

fn number(word: Option<&str>) -> u64 {
    match word {
        Some(word) => word.parse::<u64>().unwrap_or(0),
        None => 0,
    }
}

impl<'a> Call<'a> {
    /// The call that a line has.
    pub fn new(line: &'a str) -> Self {
        let mut words = line.split(' ');
        let whom = words.next().unwrap_or("");
        let verb = words.next().unwrap_or("");
        let first = number(words.next());
        let second = number(words.next());
        let third = number(words.next());
        let fourth = number(words.next());
        let fifth = number(words.next());
        Call {
            line,
            whom,
            verb,
            first,
            second,
            third,
            fourth,
            fifth,
        }
    }

    /// The index with the first number, or the greatest one.
    pub fn index<I: PtrInxCore>(&self) -> I {
        index(self.first)
    }

    /// The pointer with the first number as its index and the second as its generation.
    pub fn pointer<P: PtrCore>(&self) -> P {
        pointer(self.first, self.second)
    }
}

/// The pointer with an index of the first number, or the greatest one, and a generation of the
/// second.
pub fn pointer<P: PtrCore>(first: u64, second: u64) -> P {
    P::_from_raw(index(first), generation(second))
}

/// The index with this number, or the greatest one.
pub fn index<I: PtrInxCore>(number: u64) -> I {
    match NonZeroUsize::new(number as usize) {
        Some(number) => I::try_from_usize(number).unwrap_or(I::max_index()),
        None => I::max_index(),
    }
}

/// The generation with this number, found by steps from the first.
pub fn generation<G: PtrGenCore>(number: u64) -> G {
    let mut generation = G::two();
    if number == 1 {
        return G::one();
    }
    for _ in 2..number {
        generation = generation.generational_inc().0;
    }
    generation
}
