//! The program's statuses and what it writes.

use super::streams::{Page, Pieces};
use route_book::{Watched, program};
use std::process::Abort;
use std::test::Fail;

/// The program with these arguments ends with this status and writes these two texts.
pub(super) fn ends(
    rt: &(impl AllocGlobal + Abort),
    words: &[&str],
    (input, output): (Pieces<'_>, Page),
    status: u8,
    (text, line): (&str, &str),
) -> Result<(), Fail> {
    let mut args = Vec::new(rt.alloc());
    for word in words {
        args.push(word.to_string(rt.alloc())?)?;
    }
    let mut output = Watched::new(output);
    let mut errors = Watched::new(Page::new(usize::MAX));
    let mut input = Watched::new(input);
    let ended = program(rt.alloc(), &args, &mut input, &mut output, &mut errors);
    assert_eq!(rt; ended, status);
    assert_eq!(rt; output.into_inner().text(), text.as_bytes());
    assert_eq!(rt; errors.into_inner().text(), line.as_bytes());
    Ok(())
}

/// It ends before it reads.
pub(super) fn refuses(
    rt: &(impl AllocGlobal + Abort),
    words: &[&str],
    status: u8,
    line: &str,
) -> Result<(), Fail> {
    let streams = (Pieces::broken(b"", usize::MAX), Page::new(0));
    ends(rt, words, streams, status, ("", line))
}

#[test]
fn each_fault_has_its_status(rt: HostRuntime) -> Result<(), Fail> {
    let usage = "usage: route_book PLACES STOPS MARKS\n";
    refuses(&rt, &["4", "4"], 2, usage)?;
    let past = ["18446744073709551615", "1", "0"];
    refuses(&rt, &past, 3, "room refused: index\n")?;
    let rooms = ["4", "4", "2"];
    let broken = Pieces::broken(b"place 1 a\npla", usize::MAX);
    let streams = (broken, Page::new(usize::MAX));
    ends(&rt, &rooms, streams, 1, ("1\n", "read failed\n"))?;
    let mut full = Page::new(usize::MAX);
    full.room = 3;
    let streams = (Pieces::new(b"place 1 a\nplace 2 b\n", usize::MAX), full);
    ends(&rt, &rooms, streams, 1, ("1\n2", "write failed\n"))
}
