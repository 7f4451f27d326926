//! Replies of many lines.
ghost use Rattle.std.specs.Prelude.{◌≤◌, ◌+◌, ◌↔◌, IfSome, IfNone, IsSome, length};
ghost use Rattle.route_lines.specs.Reply.{places_text, stops_text};
ghost use Rattle.route_book_c.specs.Lines.{KeepsFront, Wrote};

use crate::room::put;
use route_book::{Place, Places, PtrCore, Stop, Walk};
use route_lines::ReplyText;
use triple_arena_chain::ChainSlots;
use triple_arena_ord::OrdSlots;

// A line for each place and `end`, if all of them fit.
pub(crate) fn put_places<P: PtrCore, S: OrdSlots<P, Place>>(
    mut places: Places<'_, P, S>,
    text: &mut ReplyText,
    room: &mut [u8],
    at: usize,
) -> Option<usize>
    requires { at ≤ length room.old }
    ensures fits { IsSome result
        ↔ at + length (places_text places.entry) ≤ length room.old }
    ensures wrote { IfSome result
        (λ end. Wrote at end (places_text places.entry) room.old room.new) }
    ensures front { IfNone result (KeepsFront at room.old room.new) }
{
    let mut end = at;
    while let Some((ticket, key, word)) = places.next() {
        text.clear();
        text.push_place(ticket, key, word);
        let Some(next) = put(room, end, text.as_slice()) else {
            return None;
        };
        end = next;
    }
    put(room, end, b"end\n")
}

// A line for each stop of a walk and `end`, as for places.
pub(crate) fn put_stops<P: PtrCore, S: OrdSlots<P, Place>, C: ChainSlots<P, Stop<P>>>(
    mut stops: Walk<'_, P, S, C>,
    text: &mut ReplyText,
    room: &mut [u8],
    at: usize,
) -> Option<usize>
    requires { at ≤ length room.old }
    ensures fits { IsSome result ↔ at + length (stops_text stops.entry) ≤ length room.old }
    ensures wrote { IfSome result
        (λ end. Wrote at end (stops_text stops.entry) room.old room.new) }
    ensures front { IfNone result (KeepsFront at room.old room.new) }
{
    let mut end = at;
    while let Some((ticket, place)) = stops.next() {
        text.clear();
        text.push_stop(ticket, place);
        let Some(next) = put(room, end, text.as_slice()) else {
            return None;
        };
        end = next;
    }
    put(room, end, b"end\n")
}
