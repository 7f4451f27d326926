//! The program over a store: its arguments, its exit status, and what it tells.
ghost use Rattle.std.specs.Prelude.{◌≡◌, ◌<◌, ◌≤◌, ◌+◌, ◌^◌, ◌↔◌, Some, None, Err, IfSome, IfOk};
ghost use Rattle.std.specs.Prelude.{IfErr, IsErr, IsNone, codes, map, string_bytes};
ghost use Rattle.route_lines.specs.CommandLine.{EndsAtFault, refusal_of, refused_line, room_sum};
ghost use Rattle.route_lines.specs.CommandLine.{rooms_of};
ghost use Rattle.route_lines.specs.State.{Rooms, empty};
ghost use Rattle.route_book.specs.Rooms.{refusal_of as refusal_over, rooms_for};
ghost use Rattle.route_book.specs.Running.{AnswersInput, TellsOn};
ghost use Rattle.route_lines.specs.declared.refusal.RoomError.{RoomError as Refused};
ghost use Rattle.route_lines.specs.Watched.{failed_of};

use crate::backing::{BookBacking, OnHeap};
use crate::book::RouteBook;
use crate::running::run;
use route_lines::{Counts, RoomError, RunFault, Watched, read_rooms, refused_line, tell};
use std::alloc::Global;
use std::io::{Read, Write};
use triple_arena_ptr::{P0, PtrCore};

/// The program `route_book PLACES STOPS MARKS`: makes a store with these rooms and answers its
/// input.
///
/// `args` are its arguments, without its name. It gives its exit status:
///
/// - 0 if the whole input is answered;
/// - 1 if the input could not be read or a reply could not be written;
/// - 2 if the arguments are not three decimal numbers below 2^64 without leading zeros;
/// - 3 if the store could not be made. The input is then not read, as at 2.
///
/// At each but 0 it writes a line on `errors` that says why; a failure to write that is passed
/// over.
pub fn program<R: Read, W: Write, E: Write>(
    alloc: Global,
    args: &[String],
    input: &mut Watched<R>,
    output: &mut Watched<W>,
    errors: &mut Watched<E>,
) -> u8
    ensures status { result ≤ 3 }

    // The arguments alone decide whether they are refused, and rooms past an index always are.
    ensures usage { (result ≡ 2) ↔ IsNone (rooms_of (map string_bytes args.now)) }
    ensures index { IfSome (rooms_of (map string_bytes args.now))
        (λ rooms. 2 ^ 64 ≤ room_sum rooms → result ≡ 3) }
    ensures room { result ≡ 3 → IfSome (rooms_of (map string_bytes args.now))
        (λ rooms. 0 < room_sum rooms) }
    ensures unread { 2 ≤ result → input.new ≡ input.old }
    ensures unwritten { 2 ≤ result → output.new ≡ output.old }

    // The whole input is answered, and no call failed.
    ensures answered { result ≡ 0 → IfSome (rooms_of (map string_bytes args.now))
        (λ rooms. AnswersInput R.remaining W.contents rooms input.old input.new output.old
        output.new) }
    ensures unfailed { result ≡ 0 → (failed_of input.new ≡ failed_of input.old)
        × (failed_of output.new ≡ failed_of output.old) }
    ensures silent { result ≡ 0 → errors.new ≡ errors.old }

    // A read failed and every whole line that was read is answered. Or a write failed: the replies
    // are written up to a line whose reply is cut short, or all of them are, and the flush failed.
    ensures fault { result ≡ 1 → IfSome (rooms_of (map string_bytes args.now)) (λ rooms.
        EndsAtFault R.remaining W.contents E.contents rooms input.old input.new output.old
        output.new errors.old errors.new) }

    // The line that says why the input was not read.
    ensures told_usage { result ≡ 2 → TellsOn E.contents errors.old errors.new
        (codes "usage: route_book PLACES STOPS MARKS") }
    ensures told_room { result ≡ 3 → IfSome (rooms_of (map string_bytes args.now))
        (λ rooms. TellsOn E.contents errors.old errors.new (refused_line (refusal_of rooms))) }
{
    let Some((places, stops, marks)) = read_rooms(args) else {
        tell(errors, b"usage: route_book PLACES STOPS MARKS\n");
        return 2;
    };
    match serve::<P0, R, W, E>(alloc, places, stops, marks, input, output, errors) {
        Ok(status) => status,
        Err(refusal) => {
            tell(errors, refused_line(refusal));
            3
        }
    }
}

// The status of a run over a new store, or why that is not made. It is generic in the pointers,
// since the checker takes a whole store over `P0` in generic code alone.
fn serve<P: PtrCore, R: Read, W: Write, E: Write>(
    alloc: Global,
    places: usize,
    stops: usize,
    marks: usize,
    input: &mut Watched<R>,
    output: &mut Watched<W>,
    errors: &mut Watched<E>,
) -> Result<u8, RoomError>
    ensures refused { (e : Refused)
        → refusal_over P.Gen.last P.Inx.greatest None (places + stops + marks) ≡ Some e
        → result ≡ Err e }
    ensures accepted { refusal_over P.Gen.last P.Inx.greatest None (places + stops + marks) ≡ None
        → IfErr result (λ e. (e ≡ RoomError.Memory) × (0 < places + stops + marks)) }
    ensures untouched { IsErr result → (input.new ≡ input.old) × (output.new ≡ output.old)
        × (errors.new ≡ errors.old) }
    ensures status { IfOk result (λ status. status ≤ 1) }
    ensures answered { IfOk result (λ status. status ≡ 0
        → AnswersInput R.remaining W.contents (rooms_for places stops marks) input.old input.new
        output.old output.new) }
    ensures unfailed { IfOk result (λ status. status ≡ 0
        → (failed_of input.new ≡ failed_of input.old)
        × (failed_of output.new ≡ failed_of output.old)) }
    ensures silent { IfOk result (λ status. status ≡ 0 → errors.new ≡ errors.old) }
    ensures fault { IfOk result (λ status. status ≡ 1
        → EndsAtFault R.remaining W.contents E.contents (rooms_for places stops marks) input.old
        input.new output.old output.new errors.old errors.new) }
{
    let mut book = RouteBook::<P, OnHeap>::new(&OnHeap(alloc), places, stops, marks)?;
    Ok(run_and_tell(&mut book, input, output, errors))
}

// The status of a run over a store with nothing in it; a fault is told. It has the store by `&mut`,
// since one that is held by value costs its drop at each way out.
fn run_and_tell<P: PtrCore, B: BookBacking<P>, R: Read, W: Write, E: Write>(
    book: &mut RouteBook<P, B>,
    input: &mut Watched<R>,
    output: &mut Watched<W>,
    errors: &mut Watched<E>,
) -> u8
    ensures status { result ≤ 1 }
    ensures answered { (rooms : Rooms) → book.old.state ≡ empty rooms 0 → result ≡ 0
        → AnswersInput R.remaining W.contents rooms input.old input.new output.old output.new }
    ensures unfailed { result ≡ 0 → (failed_of input.new ≡ failed_of input.old)
        × (failed_of output.new ≡ failed_of output.old) }
    ensures silent { result ≡ 0 → errors.new ≡ errors.old }
    ensures fault { (rooms : Rooms) → book.old.state ≡ empty rooms 0 → result ≡ 1
        → EndsAtFault R.remaining W.contents E.contents rooms input.old input.new output.old
        output.new errors.old errors.new }
{
    match run(book, input, output, &mut Counts::new()) {
        Ok(()) => 0,
        Err(RunFault::Read(_)) => {
            tell(errors, b"read failed\n");
            1
        }
        Err(RunFault::Write(_)) => {
            tell(errors, b"write failed\n");
            1
        }
        Err(RunFault::TooLong) => {
            tell(errors, b"read failed\n");
            1
        }
    }
}
