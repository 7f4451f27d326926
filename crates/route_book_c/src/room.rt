//! Room of the caller.
ghost use Rattle.std.specs.Prelude.{◌≡◌, ◌≤◌, ◌+◌, ◌↔◌, IfSome, IfNone, IsSome, length};
ghost use Rattle.route_book_c.specs.Lines.{Wrote};

// Puts bytes into the room from an index on, if all of them fit, and gives the index behind them.
pub(crate) fn put(room: &mut [u8], at: usize, bytes: &[u8]) -> Option<usize>
    requires { at ≤ length room.old }
    ensures fits { IsSome result ↔ at + length bytes.now ≤ length room.old }
    ensures wrote { IfSome result (λ end. Wrote at end bytes.now room.old room.new) }
    ensures unwritten { IfNone result (room.new ≡ room.old) }
{
    if bytes.len() > room.len() - at {
        return None;
    }
    let end = at + bytes.len();
    room[at..end].copy_from_slice(bytes);
    Some(end)
}
