//! `script_route_book` reads sections from the standard input, plays each over new stores, and
//! writes what they answer.
//!
//! ```text
//! #what the section shows
//! POINTERS BACKINGS PLACES STOPS MARKS LAST REFUSED
//! the lines of an input
//! ```
//!
//! - POINTERS are pointer types, with `,` between them: `P0`, `P1`, `P5`, or `N3`, whose
//!   generations end at 3;
//! - BACKINGS are what the stores stand in: `heap`, `limited`, `fixed`, or `array`, which has room
//!   for ten, and which `P5` lacks, or `array3`, with room for three, which `P0` and `P1` have. Of
//!   these pairs the program plays over those of `kinds.rt`;
//! - PLACES, STOPS and MARKS are the rooms, and LAST is the last ticket that counts as given;
//! - REFUSED is the request for memory that is refused, and 0 is none.
//!
//! The input is answered by `run`, over each pointer type and backing, and each time in several
//! ways of cutting. What the first play wrote is written, then what any other wrote that differs,
//! and how many plays there were.
//!
//! In place of an input a section may have runs over one store, each behind a line
//! `>WHAT HOW READ TAKEN ROOM`:
//!
//! - `run` answers the lines as one input, and tells the calls on its streams;
//! - `inputs` answers each line as an input of its own, and `answer` answers it alone. Behind each
//!   reply they tell how many comparisons it took: with keys, with first tickets and with second
//!   ones. An input line that begins with `=` is skipped;
//! - `sweeps` does as `answer`, and tells the looks at references, and the counters of places and
//!   of stops;
//! - HOW is `plain`; or `broken` if the reader fails at its end; or `stalling` if the writer takes
//!   none once it is full, and does not fail; or `full` or `idle` if it takes none at all, and
//!   fails or does not; or `unflushed` if a flush fails;
//! - READ and TAKEN are how many bytes a call reads and writes, and ROOM how many the writer takes.
//!   There 0 is all.
//!
//! Between two runs a line `>move POINTERS,BACKINGS PLACES STOPS MARKS` moves the store, once, and
//! tells whether it moved; the runs behind it go over what it became, or over the same store. With
//! `/` between its pointers or its backings, the section is played for each. One that began as `P0
//! heap` may become any other, or one of `P1,array4`. One of `P1 limited` becomes one of
//! `N3,fixed`, that one of `P1,array`, and that one of `P0,heap`. `kinds.rt` has those of the gate.
//!
//! A number that a line lacks is 0. A `#` begins a section and a `>` a run also within a line,
//! which then has no LF.
#![tactic(auto)]

mod backings;
mod books;
mod kinds;
mod moves;
mod runs;
mod streams;

use books::{Book, play, play_to};
use moves::Moving;
use runs::{CUTS, Cut};
use std::alloc::{AllocError, Global};
use std::fmt::Write;
use std::io;
use test_kit::Call;

fn main(rt: HostRuntime) -> io::Result<()> {
    let script = io::read_to_string(rt.alloc(), rt.reader())?;
    for section in script.split('#') {
        if !section.is_empty() {
            rt.print(play_section(rt.alloc(), section)?)?;
        }
    }
    Ok(())
}

// The section's first two lines, what its plays wrote, and how many they were.
fn play_section(alloc: Global, section: &str) -> Result<String, AllocError> {
    let (comment, behind) = section.split_once('\n').unwrap_or((section, ""));
    let (header, lines) = behind.split_once('\n').unwrap_or((behind, ""));
    let mut page = Plays {
        first: String::new(alloc),
        written: format!(in alloc; "#{comment}\n{header}\n")?,
        plays: 0,
    };
    let header = Call::new(header);
    for pointers in header.whom.split(',') {
        for backing in header.verb.split(',') {
            let kind = (pointers, backing);
            let book = Book { kind, header };
            match Moving::new(lines) {
                Some(moving) => page.play_moves(alloc, &book, &moving)?,
                None => page.play(alloc, &book, lines)?,
            }
        }
    }
    page.end()
}

// What the plays of a section wrote.
#[derive(Drop)]
struct Plays {
    // What the first one wrote.
    first: String,
    // What is to be written.
    written: String,
    plays: u64,
}

impl Plays {
    // Plays the section over a new store in each way of cutting, or runs in the first one.
    fn play(&mut self, alloc: Global, book: &Book<'_>, lines: &str) -> Result<(), AllocError> {
        if !kinds::has(book.kind) {
            return Ok(());
        }
        let ways = if lines.starts_with('>') {
            1
        } else {
            CUTS.len()
        };
        for cut in &CUTS[..ways] {
            let text = play(alloc, book, lines, *cut)?;
            self.compare(book, *cut, text)?;
        }
        Ok(())
    }

    // Plays the section over a new store for each kind that it becomes.
    fn play_moves(
        &mut self,
        alloc: Global,
        book: &Book<'_>,
        moving: &Moving<'_>,
    ) -> Result<(), AllocError> {
        for pointers in moving.pointers().split('/') {
            for backing in moving.backings().split('/') {
                let to = (pointers, backing);
                if kinds::moves(book.kind, to) {
                    let text = play_to(alloc, book, moving, to)?;
                    self.compare(book, CUTS[0], text)?;
                }
            }
        }
        Ok(())
    }

    // Keeps the text of the first play, and of each other one that differs.
    fn compare(&mut self, book: &Book<'_>, cut: Cut, text: String) -> Result<(), AllocError> {
        if self.plays == 0 {
            write!(self.written, "{text}")?;
            self.first = text;
        } else if text.as_str() != self.first.as_str() {
            let (pointers, backing) = book.kind;
            writeln!(self.written, "but over {pointers} {backing}, {cut:?}:")?;
            write!(self.written, "{text}")?;
        }
        self.plays = self.plays.saturating_add(1);
        Ok(())
    }

    fn end(self) -> Result<String, AllocError> {
        let Plays {
            first: _,
            mut written,
            plays,
        } = self;
        writeln!(written, "{plays} plays")?;
        Ok(written)
    }
}
