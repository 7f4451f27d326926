//! The program `route_book PLACES STOPS MARKS`: a store with these rooms answers the lines of the
//! standard input.
#![tactic(auto)]

ghost use Rattle.std.specs.Prelude.{◌≡◌, ◌≢◌, ◌≤◌, ◌^◌, ◌↔◌, IfErr, IfOk, IfSome, IsNone, map};
ghost use Rattle.std.specs.Prelude.{string_bytes, vec_items};
ghost use Rattle.std.specs.IoError.{error_kind};
ghost use Rattle.std.specs.Process.{exit_status};
ghost use Rattle.route_book.specs.CommandLine.{room_sum, rooms_of};

use route_book::{RoomError, Watched, program};
use std::io::{ErrorKind, Write};
use std::process::ExitCode;
use std::{env, io};

fn main(rt: HostRuntime) -> ExitCode {
    let args = arguments(&rt);
    exit_code(&rt, args)
}

// All arguments but the program's name.
fn arguments(rt: &HostRuntime) -> io::Result<Vec<String>> {
    let mut args = env::args(rt)?;
    args.next();
    let mut rooms = Vec::new(rt.alloc());
    for arg in args {
        rooms.push(arg)?;
    }
    Ok(rooms)
}

// The program's status over these arguments, if they could be read.
fn exit_code(rt: &HostRuntime, args: io::Result<Vec<String>>) -> ExitCode
    ensures status { exit_status result ≤ 3 }
    ensures usage { IfOk args (λ args. (exit_status result ≡ 2)
        ↔ IsNone (rooms_of (map string_bytes (vec_items args)))) }
    ensures index { IfOk args (λ args. IfSome (rooms_of (map string_bytes (vec_items args)))
        (λ rooms. 2 ^ 64 ≤ room_sum rooms → exit_status result ≡ 3)) }
    ensures memory { IfErr args (λ error. error_kind error ≡ ErrorKind.OutOfMemory
        → exit_status result ≡ 3) }
    ensures unread { IfErr args (λ error. error_kind error ≢ ErrorKind.OutOfMemory
        → exit_status result ≡ 2) }
{
    ExitCode::from(match args {
        Ok(args) => answer_input(rt, &args),
        Err(error) if error.kind() == ErrorKind::OutOfMemory => {
            let _ = writeln!(rt.stderr(), "room refused: {}", RoomError::Memory);
            3
        }
        // An argument that is no text is no number either; without arguments `program` tells the
        // usage.
        Err(_) => answer_input(rt, &[]),
    })
}

// Answers the standard input on the standard output.
fn answer_input(rt: &HostRuntime, args: &[String]) -> u8
    ensures status { result ≤ 3 }
    ensures usage { (result ≡ 2) ↔ IsNone (rooms_of (map string_bytes args.now)) }
    ensures index { IfSome (rooms_of (map string_bytes args.now)) (λ rooms. 2 ^ 64 ≤ room_sum rooms
        → result ≡ 3) }
{
    program(
        rt.alloc(),
        args,
        &mut Watched::new(rt.stdin()),
        &mut Watched::new(rt.stdout()),
        &mut Watched::new(rt.stderr()),
    )
}
