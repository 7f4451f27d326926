//! Lines and the commands that they spell.
ghost use Rattle.route_lines.specs.declared.command.Command.{Command};
ghost use Rattle.route_lines.specs.Grammar.{Spells, command_of, command_of_fields};
ghost use Rattle.route_lines.specs.Grammar.{command_of_number, command_of_numbers};
ghost use Rattle.route_lines.specs.Grammar.{command_of_one_field, command_of_two_fields};
ghost use Rattle.route_lines.specs.Grammar.{command_of_three_fields, command_of_five_fields};
ghost use Rattle.std.specs.Prelude.{◌≡◌, IfNone, IfSome};

mod fields;

use crate::command::Command;
use crate::number::read_number;
use crate::word::Word;
use fields::Fields;

/// The command that a line, given without its LF, spells; `None` exactly if it spells none.
pub fn read_line(line: &[u8]) -> Option<Command>
    ensures found { IfSome result (Spells line.now) }
    ensures none { IfNone result ((command : Command) → ¬ Spells line.now command) }
    ensures exact { result ≡ command_of line.now }
{
    read_fields(Fields::of(line))
}

fn read_fields(mut fields: Fields) -> Option<Command>
    ensures { result ≡ command_of_fields fields.entry }
{
    let verb = fields.next()?;
    match (
        fields.next(),
        fields.next(),
        fields.next(),
        fields.next(),
        fields.next(),
    ) {
        (None, _, _, _, _) => read_one_field(verb),
        (Some(field), None, _, _, _) => read_two_fields(verb, field),
        (Some(first), Some(second), None, _, _) => read_three_fields(verb, first, second),
        (Some(first), Some(second), Some(third), Some(fourth), None) => {
            read_five_fields(verb, first, second, third, fourth)
        }
        _ => None,
    }
}

fn read_one_field(verb: &[u8]) -> Option<Command>
    ensures { result ≡ command_of_one_field verb.now }
{
    if verb == b"all".as_slice() {
        return Some(Command::All);
    }
    if verb == b"pack".as_slice() {
        return Some(Command::Pack);
    }
    None
}

fn read_two_fields(verb: &[u8], field: &[u8]) -> Option<Command>
    ensures { result ≡ command_of_two_fields verb.now field.now }
{
    let number = read_number(field)?;
    command_of_number(verb, number)
}

fn command_of_number(verb: &[u8], number: u64) -> Option<Command>
    ensures { result ≡ command_of_number verb.now number }
{
    if verb == b"show".as_slice() {
        return Some(Command::Show { ticket: number });
    }
    if verb == b"find".as_slice() {
        return Some(Command::Find { key: number });
    }
    if verb == b"floor".as_slice() {
        return Some(Command::Floor { key: number });
    }
    if verb == b"after".as_slice() {
        return Some(Command::After { ticket: number });
    }
    if verb == b"before".as_slice() {
        return Some(Command::Before { ticket: number });
    }
    if verb == b"remove".as_slice() {
        return Some(Command::Remove { ticket: number });
    }
    if verb == b"start".as_slice() {
        return Some(Command::Start { place: number });
    }
    if verb == b"cut".as_slice() {
        return Some(Command::Cut { stop: number });
    }
    if verb == b"walk".as_slice() {
        return Some(Command::Walk { stop: number });
    }
    None
}

fn read_three_fields(verb: &[u8], first: &[u8], second: &[u8]) -> Option<Command>
    ensures { result ≡ command_of_three_fields verb.now first.now second.now }
{
    let number = read_number(first)?;
    if verb == b"place".as_slice() {
        let word = Word::new(second)?;
        return Some(Command::Place {
            key: number,
            word,
            near: None,
        });
    }
    if verb == b"word".as_slice() {
        let word = Word::new(second)?;
        return Some(Command::Word {
            ticket: number,
            word,
        });
    }
    let second = read_number(second)?;
    command_of_numbers(verb, number, second)
}

fn command_of_numbers(verb: &[u8], first: u64, second: u64) -> Option<Command>
    ensures { result ≡ command_of_numbers verb.now first second }
{
    if verb == b"extend".as_slice() {
        return Some(Command::Extend {
            stop: first,
            place: second,
        });
    }
    if verb == b"join".as_slice() {
        return Some(Command::Join {
            stop: first,
            next: second,
        });
    }
    if verb == b"swap".as_slice() {
        return Some(Command::Swap {
            stop: first,
            other: second,
        });
    }
    if verb == b"mark".as_slice() {
        return Some(Command::Mark {
            place: first,
            stop: second,
        });
    }
    None
}

fn read_five_fields(
    verb: &[u8],
    first: &[u8],
    second: &[u8],
    third: &[u8],
    fourth: &[u8],
) -> Option<Command>
    ensures { result ≡ command_of_five_fields verb.now first.now second.now third.now fourth.now }
{
    if verb != b"place".as_slice() {
        return None;
    }
    if third != b"near".as_slice() {
        return None;
    }
    let key = read_number(first)?;
    let word = Word::new(second)?;
    let near = read_number(fourth)?;
    Some(Command::Place {
        key,
        word,
        near: Some(near),
    })
}
