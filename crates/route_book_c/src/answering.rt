//! Lines answered into room of the caller.
ghost use Rattle.std.specs.Prelude.{◌≡◌, ◌≤◌, ◌+◌, ◌-◌, ◌↔◌, ◌++◌, [], Some, None, IfSome, IfNone};
ghost use Rattle.std.specs.Prelude.{IsSome, OnSome, Err, IfOk, IfErr, IsErr, IsTrue, false, length};
ghost use Rattle.std.specs.Prelude.{map, take, drop};
ghost use Rattle.route_lines.specs.Reply.{next, reply};
ghost use Rattle.route_lines.specs.State.{stop_list};
ghost use Rattle.route_lines.specs.Text.{after, lines, rest_of, text as text_for, whole};
ghost use Rattle.route_lines.specs.Text.{whole_lines};
ghost use Rattle.route_lines.specs.Unfinished.{HasNoLineEnd};
ghost use Rattle.route_lines.specs.declared.refusal.RoomError.{RoomError as Refused};
ghost use Rattle.route_book.specs.Book.{KeepsRooms};
ghost use Rattle.route_book.specs.Rooms.{refusal_of};
ghost use Rattle.route_book_c.specs.Lines.{Answers, KeepsFront, Lacks, Wrote, opened, room_for};

use crate::listing::{put_places, put_stops};
use crate::reply::gather;
use crate::room::put;
use route_book::{BookBacking, Command, OnHeap, Place, PtrCore, RoomError, RouteBook, read_line};
use route_lines::{ReplyText, split_line};
use std::alloc::Global;
use triple_arena::ArenaTrait;
use triple_arena_ord::laws::the_list_has_as_many_entries_as_are_live;

// How far lines were answered.
#[derive(Clone, Copy, Drop)]
pub(crate) struct Progress {
    // How many bytes of the input are taken.
    pub(crate) taken: usize,
    // How many bytes of the room are written.
    pub(crate) written: usize,
    // Whether a line had no room for its reply.
    pub(crate) is_short: bool,
}

// Carries out a command, or answers a line that spells none, if there is room for the reply. It
// gives the index behind that. `text` is for a line to be gathered in.
fn answer_line<P: PtrCore, B: BookBacking<P>>(
    book: &mut RouteBook<P, B>,
    command: Option<Command>,
    text: &mut ReplyText,
    room: &mut [u8],
    at: usize,
) -> Option<usize>
    requires { at ≤ length room.old }
    ensures fits { IsSome result ↔ at + room_for book.old.state command ≤ length room.old }
    ensures state { OnSome result (book.new.state ≡ next book.old.state command) }
    ensures wrote { IfSome result
        (λ end. Wrote at end (reply book.old.state command) room.old room.new) }
    ensures rooms { KeepsRooms book.old book.new }
    ensures left { IfNone result (book.new ≡ book.old) }
    ensures front { IfNone result (KeepsFront at room.old room.new) }
{
    match command {
        Some(Command::All) => put_places(book.places(), text, room, at),
        Some(Command::Walk { stop }) => match book.walk(stop) {
            Ok(stops) => put_stops(stops, text, room, at),
            Err(refusal) => {
                text.clear();
                text.push_refusal(refusal);
                put(room, at, text.as_slice())
            }
        },
        command => {
            if room.len() - at < 59 {
                return None;
            }
            text.clear();
            match command {
                Some(command) => gather(book, command, text),
                None => text.push_line(b"bad"),
            }
            put(room, at, text.as_slice())
        }
    }
}

// Carries out the whole lines of the input one after another, and writes their replies from the
// front of the room on, until no whole line is left or one has no room for its reply.
pub(crate) fn answer_lines<P: PtrCore, B: BookBacking<P>>(
    book: &mut RouteBook<P, B>,
    input: &[u8],
    room: &mut [u8],
) -> Progress
    ensures answers { Answers book.old.state input.now result.taken book.new.state
        (take result.written room.new) }
    ensures rooms { KeepsRooms book.old book.new }
    ensures within { result.written ≤ length room.old }
    ensures length { length room.new ≡ length room.old }
    ensures cut { lines input.now
        ≡ lines (take result.taken input.now) ++ lines (drop result.taken input.now) }
    ensures all { result.is_short ≡ false → HasNoLineEnd (drop result.taken input.now) }
    ensures rest { result.is_short ≡ false
        → drop result.written room.new ≡ drop result.written room.old }
    ensures short { IsTrue result.is_short
        → Lacks book.new.state (map whole (whole_lines (drop result.taken input.now)))
        (length room.old - result.written) }
{
    let mut text = ReplyText::new();
    let mut left = input;
    let mut written = 0;
    while let Some((line, behind)) = split_line(left) {
        match answer_line(book, read_line(line), &mut text, room, written) {
            Some(end) => written = end,
            None => {
                return Progress {
                    taken: input.len() - left.len(),
                    written,
                    is_short: true,
                };
            }
        }
        left = behind;
    }
    Progress {
        taken: input.len() - left.len(),
        written,
        is_short: false,
    }
}

// The same of the whole input: what follows its last LF is answered as a line that spells no
// command.
fn answer_all<P: PtrCore, B: BookBacking<P>>(
    book: &mut RouteBook<P, B>,
    input: &[u8],
    room: &mut [u8],
) -> Progress
    ensures replies { take result.written room.new
        ≡ text_for book.old.state (take result.taken input.now) }
    ensures within { (result.taken ≤ length input.now) × (result.written ≤ length room.old) }
    ensures length { length room.new ≡ length room.old }
    ensures all { result.is_short ≡ false → result.taken ≡ length input.now }
    ensures rest { result.is_short ≡ false
        → drop result.written room.new ≡ drop result.written room.old }
    ensures ends { IsTrue result.is_short → rest_of (take result.taken input.now) ≡ [] }
    ensures short { IsTrue result.is_short
        → Lacks (after book.old.state (take result.taken input.now))
        (lines (drop result.taken input.now)) (length room.old - result.written) }
{
    let progress = answer_lines(book, input, room);
    if progress.is_short {
        return progress;
    }
    if progress.taken == input.len() {
        return progress;
    }
    match answer_line(book, None, &mut ReplyText::new(), room, progress.written) {
        Some(end) => Progress {
            taken: input.len(),
            written: end,
            is_short: false,
        },
        None => Progress {
            taken: progress.taken,
            written: progress.written,
            is_short: true,
        },
    }
}

// A new store answers the whole input, and is gone.
pub(crate) fn answer_anew<P: PtrCore>(
    alloc: Global,
    places: usize,
    stops: usize,
    marks: usize,
    input: &[u8],
    room: &mut [u8],
) -> Result<Progress, RoomError>
    ensures refused { (e : Refused)
        → refusal_of P.Gen.last P.Inx.greatest None (places + stops + marks) ≡ Some e
        → result ≡ Err e }
    ensures accepted { refusal_of P.Gen.last P.Inx.greatest None (places + stops + marks) ≡ None
        → IfErr result (λ e. e ≡ RoomError.Memory) }
    ensures replies { IfOk result (λ p. take p.written room.new
        ≡ text_for (opened places stops marks) (take p.taken input.now)) }
    ensures within { IfOk result
        (λ p. (p.taken ≤ length input.now) × (p.written ≤ length room.old)) }
    ensures length { length room.new ≡ length room.old }
    ensures all { IfOk result (λ p. p.is_short ≡ false → p.taken ≡ length input.now) }
    ensures rest { IfOk result (λ p. p.is_short ≡ false
        → drop p.written room.new ≡ drop p.written room.old) }
    ensures ends { IfOk result (λ p. IsTrue p.is_short → rest_of (take p.taken input.now) ≡ []) }
    ensures short { IfOk result (λ p. IsTrue p.is_short
        → Lacks (after (opened places stops marks) (take p.taken input.now))
        (lines (drop p.taken input.now)) (length room.old - p.written)) }
    ensures unwritten { IsErr result → room.new ≡ room.old }
{
    let mut book = RouteBook::<P, OnHeap>::new(&OnHeap(alloc), places, stops, marks)?;
    Ok(answer_all(&mut book, input, room))
}

// How many places live.
pub(crate) fn place_count<P: PtrCore, B: BookBacking<P>>(book: &RouteBook<P, B>) -> usize
    ensures { result ≡ length book.now.state.places }
{
    the_list_has_as_many_entries_as_are_live::<P, Place>();
    book.places_arena().len()
}

// How many stops live.
pub(crate) fn stop_count<P: PtrCore, B: BookBacking<P>>(book: &RouteBook<P, B>) -> usize
    ensures { result ≡ length (stop_list book.now.state.routes) }
{
    book.stops_arena().len()
}

// How many marks live.
pub(crate) fn mark_count<P: PtrCore, B: BookBacking<P>>(book: &RouteBook<P, B>) -> usize
    ensures { result ≡ length book.now.state.marks }
{
    book.marks_arena().len()
}
