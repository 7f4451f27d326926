//! The arguments of a program, and what it says of a store that it cannot make.
ghost use Rattle.std.specs.Prelude.{◌≡◌, map, string_bytes};
ghost use Rattle.std.specs.Option.{option_map};
ghost use Rattle.route_lines.specs.Number.{number_of};
ghost use Rattle.route_lines.specs.CommandLine.{refused_line, rooms_of};
ghost use Rattle.route_lines.specs.Reply.{ended};

use crate::number::read_number;
use crate::refusal::RoomError;

/// The rooms of places, stops and marks that a program's arguments name; `None` if they are not
/// three numbers.
pub fn read_rooms(args: &[String]) -> Option<(usize, usize, usize)>
    ensures { option_map (λ rooms. record { places = rooms.0; stops = rooms.1; marks = rooms.2 })
        result ≡ rooms_of (map string_bytes args.now) }
{
    let [places, stops, marks] = args else {
        return None;
    };
    Some((read_room(places)?, read_room(stops)?, read_room(marks)?))
}

fn read_room(arg: &String) -> Option<usize>
    ensures { result ≡ number_of (string_bytes arg.now) }
{
    let number = read_number(arg.as_bytes())?;
    usize::try_from(number).ok()
}

/// The line that tells why a store was refused, with its LF.
pub fn refused_line(refusal: RoomError) -> &'static [u8]
    ensures { result.now ≡ ended (refused_line refusal) }
{
    match refusal {
        RoomError::Generation => b"room refused: generation\n",
        RoomError::Index => b"room refused: index\n",
        RoomError::Stack => b"room refused: stack\n",
        RoomError::Memory => b"room refused: memory\n",
        RoomError::TooSmall => b"room refused: too small\n",
    }
}
