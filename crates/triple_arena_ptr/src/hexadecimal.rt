//! Numbers as hexadecimal text.
ghost use Rattle.std.specs.Fmt.{WritesOnOk};
ghost use Rattle.triple_arena_ptr.specs.Hexadecimal.{hexadecimal};

use std::fmt;

/// Writes the number in lower-case hexadecimal digits without a prefix.
pub(crate) fn fmt_u128<W: fmt::Write>(number: u128, f: &mut fmt::Formatter<W>) -> fmt::Result
    ensures { WritesOnOk W.write_str_gives f.old result (hexadecimal number) f.new }
{
    let high = (number >> 64) as u64;
    let low = (number % (1 << 64)) as u64;
    if high == 0 {
        write!(f, "{low:x}")
    } else {
        write!(f, "{high:x}{low:016x}")
    }
}
