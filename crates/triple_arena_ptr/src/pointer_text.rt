//! The text of pointers.
ghost use Rattle.std.specs.Prelude.{Some};
ghost use Rattle.std.specs.Fmt.{WritesOnOk};
ghost use Rattle.triple_arena_ptr.specs.Hexadecimal.{hexadecimal};
ghost use Rattle.triple_arena_ptr.specs.Pointer.{generation_digits, pointer_text};

use crate::ptr::{PtrGenCore, PtrInxCore};
use std::fmt;

// An index as its digits.
#[derive(Drop)]
struct InxDigits<I>(I);

impl<I: PtrInxCore> fmt::Display for InxDigits<I> {
    ghost output = { λ it. Some (hexadecimal (I.number it.0)) };

    fn fmt<W: fmt::Write>(&self, f: &mut fmt::Formatter<W>) -> fmt::Result {
        self.0.fmt_hex(f)
    }
}

// A generation as its digits.
#[derive(Drop)]
struct GenDigits<G>(G);

impl<G: PtrGenCore> fmt::Display for GenDigits<G> {
    ghost output = { λ it. Some (generation_digits G.last (G.number it.0)) };

    fn fmt<W: fmt::Write>(&self, f: &mut fmt::Formatter<W>) -> fmt::Result {
        self.0.fmt_hex(f)
    }
}

/// Writes the text of a pointer, as `P0[1](2)`, or `P5[1]` if generations are not counted.
/// `Debug` and `Display` of a pointer type are this call.
pub fn fmt_pointer<I: PtrInxCore, G: PtrGenCore, W: fmt::Write>(
    name: &str,
    inx: I,
    generation: G,
    f: &mut fmt::Formatter<W>,
) -> fmt::Result
    ensures { WritesOnOk W.write_str_gives f.old result
        (pointer_text name.now G.last (I.number inx) (G.number generation)) f.new }
{
    let inx = InxDigits(inx);
    if G::one() == G::two() {
        write!(f, "{name}[{inx}]")
    } else {
        let generation = GenDigits(generation);
        write!(f, "{name}[{inx}]({generation})")
    }
}
