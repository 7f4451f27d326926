//! The text of links: the neighbors in parentheses, `-` if there is none, and the value, as
//! `(-, 2) hello`.
ghost use Rattle.std.specs.Prelude.{Some};
ghost use Rattle.std.specs.Option.{option_map};
ghost use Rattle.triple_arena_ptr.specs.Hexadecimal.{hexadecimal};
ghost use Rattle.triple_arena_chain.specs.LinkText.{neighbor_text, index_link_text, link_text};

use crate::{IndexLink, Link};
use std::fmt;
use triple_arena_ptr::{OptionalInx, Ptr, PtrInxCore};

// An index as its digits, or `-`.
#[derive(Drop)]
struct InxText<I>(Option<I>);

impl<I: PtrInxCore> fmt::Display for InxText<I> {
    ghost output = { λ x. neighbor_text (λ i. Some (hexadecimal i)) (option_map I.number x.0) };

    fn fmt<W: fmt::Write>(&self, f: &mut fmt::Formatter<W>) -> fmt::Result {
        match self.0 {
            Some(i) => i.fmt_hex(f),
            None => f.write_str("-"),
        }
    }
}

// A pointer as its text, or `-`.
#[derive(Drop)]
struct PtrText<P>(Option<P>);

impl<P: Ptr> fmt::Display for PtrText<P> {
    ghost output = { λ x. neighbor_text P.debug_output x.0 };

    fn fmt<W: fmt::Write>(&self, f: &mut fmt::Formatter<W>) -> fmt::Result {
        match self.0 {
            Some(p) => write!(f, "{p:?}"),
            None => f.write_str("-"),
        }
    }
}

/// The indexes of the neighbors in lower-case hexadecimal digits, and the value: `(-, 2) hello`.
impl<I: PtrInxCore<Word = W>, W: Copy, T: fmt::Display> fmt::Display
    for IndexLink<OptionalInx<I, W>, T> {
    ghost output = { index_link_text (λ i. Some (hexadecimal i)) T.output };

    fn fmt<V: fmt::Write>(&self, f: &mut fmt::Formatter<V>) -> fmt::Result {
        let prev = InxText(self.prev());
        let next = InxText(self.next());
        write!(f, "({prev}, {next}) {}", self.t)
    }
}

/// The pointers to the neighbors, and the value: `(-, P0[2](2)) hello`.
impl<P: Ptr, T: fmt::Display> fmt::Display for Link<P, T> {
    ghost output = { link_text P.debug_output T.output };

    fn fmt<W: fmt::Write>(&self, f: &mut fmt::Formatter<W>) -> fmt::Result {
        let prev = PtrText(self.prev());
        let next = PtrText(self.next());
        write!(f, "({prev}, {next}) {}", self.t)
    }
}
