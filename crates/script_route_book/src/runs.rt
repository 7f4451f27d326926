//! The runs of a section over a store, and what they tell.
use crate::streams::{Page, Pieces};
use route_book::{BookBacking, Counts, PtrCore, RouteBook, RunFault, Watched, run};
use std::alloc::AllocError;
use std::fmt::Write;
use std::io::ErrorKind;
use test_kit::Call;
use triple_arena_ptr::PtrGenCore;

/// How many bytes the reader gives a time, and the writer takes.
pub type Cut = (usize, usize);

/// The ways in which an input is cut. In the first one it is not.
pub const CUTS: [Cut; 5] = [
    (usize::MAX, usize::MAX),
    (1, usize::MAX),
    (2, usize::MAX),
    (3, 1),
    (usize::MAX, 1),
];

/// Plays the lines of a section, which are one input, or runs: what they write, behind a text.
pub fn play_runs<P: PtrCore, B: BookBacking<P>>(
    store: &mut RouteBook<P, B>,
    lines: &str,
    cut: Cut,
    text: String,
) -> Result<String, AllocError> {
    let Some(runs) = lines.strip_prefix('>') else {
        let reader = Pieces::new(lines.as_bytes(), cut.0);
        return answer_input(store, reader, Page::new(text, cut.1)).end(false);
    };
    let mut text = text;
    for run in runs.split('>') {
        let (line, input) = run.split_once('\n').unwrap_or((run, ""));
        writeln!(text, ">{line}")?;
        text = play_run(store, &Call::new(line), input, text)?;
    }
    Ok(text)
}

// What a run of these lines writes, as its own line says.
fn play_run<P: PtrCore, B: BookBacking<P>>(
    store: &mut RouteBook<P, B>,
    run: &Call<'_>,
    input: &str,
    text: String,
) -> Result<String, AllocError> {
    let mut page = Page::told(text, run);
    if run.whom == "run" {
        let reader = Pieces::told(input.as_bytes(), run);
        return answer_input(store, reader, page).end(true);
    }
    for line in input.split_inclusive('\n') {
        if !line.starts_with('=') {
            page = match run.whom {
                "inputs" => answer_as_input(store, line, page)?,
                "answer" => answer_line(store, line, page, false)?,
                _ => answer_line(store, line, page, true)?,
            };
        }
    }
    Ok(page.text)
}

// Answers a line as an input of its own, and tells its comparisons.
fn answer_as_input<P: PtrCore, B: BookBacking<P>>(
    store: &mut RouteBook<P, B>,
    line: &str,
    page: Page,
) -> Result<Page, AllocError> {
    let reader = Pieces::new(line.as_bytes(), usize::MAX);
    let answered = answer_input(store, reader, page);
    let mut page = answered.writer.into_inner();
    if let Err(fault) = answered.outcome {
        writeln!(page.text, "-> {fault}")?;
    }
    tell_comparisons(&answered.counts, &mut page)?;
    Ok(page)
}

// Answers a line alone, and tells its comparisons, or else looks and counters.
fn answer_line<P: PtrCore, B: BookBacking<P>>(
    store: &mut RouteBook<P, B>,
    line: &str,
    page: Page,
    tells_sweeps: bool,
) -> Result<Page, AllocError> {
    let line = line.strip_suffix('\n').unwrap_or(line);
    let mut writer = Watched::new(page);
    let mut counts = Counts::new();
    let outcome = store.answer(line.as_bytes(), &mut writer, &mut counts);
    let mut page = writer.into_inner();
    if let Err(error) = outcome {
        let kind = error.kind();
        writeln!(page.text, "-> {kind:?}")?;
    }
    if tells_sweeps {
        tell_sweeps(store, &counts, &mut page)?;
    } else {
        tell_comparisons(&counts, &mut page)?;
    }
    Ok(page)
}

fn tell_comparisons(counts: &Counts, page: &mut Page) -> Result<(), AllocError> {
    let (key, first, second) = (
        counts.key.count(),
        counts.first.count(),
        counts.second.count(),
    );
    writeln!(page.text, "= {key} {first} {second}")
}

fn tell_sweeps<P: PtrCore, B: BookBacking<P>>(
    store: &RouteBook<P, B>,
    counts: &Counts,
    page: &mut Page,
) -> Result<(), AllocError> {
    let looks = counts.looks.count();
    let places = number(store.places_arena().generation());
    let stops = number(store.stops_arena().generation());
    writeln!(page.text, "= {looks} {places} {stops}")
}

// The number of a counter, which is never 1.
fn number<G: PtrGenCore>(counter: G) -> u64 {
    let mut generation = G::two();
    for number in 2..u64::MAX {
        if generation == counter {
            return number;
        }
        generation = generation.generational_inc().0;
    }
    0
}

// How an input was answered.
#[derive(Drop)]
struct Answered<'a> {
    outcome: Result<(), RunFault>,
    reader: Watched<Pieces<'a>>,
    writer: Watched<Page>,
    counts: Counts,
}

fn answer_input<'a, P: PtrCore, B: BookBacking<P>>(
    store: &mut RouteBook<P, B>,
    reader: Pieces<'a>,
    page: Page,
) -> Answered<'a> {
    let mut reader = Watched::new(reader);
    let mut writer = Watched::new(page);
    let mut counts = Counts::new();
    let outcome = run(store, &mut reader, &mut writer, &mut counts);
    Answered {
        outcome,
        reader,
        writer,
        counts,
    }
}

impl<'a> Answered<'a> {
    // The text, how `run` ended, and the calls on the streams if they are wanted.
    fn end(self, tells_calls: bool) -> Result<String, AllocError> {
        let Answered {
            outcome,
            reader,
            writer,
            counts: _,
        } = self;
        let reads = (reader.calls().count(), reader.failed().count());
        let writes = (writer.calls().count(), writer.failed().count());
        let unread = reader.into_inner().unread();
        let page = writer.into_inner();
        let flushes = page.flushes;
        let mut text = page.text;
        match outcome {
            Ok(()) => write!(text, "-> ok")?,
            Err(fault) => {
                let kind = kind_of(&fault);
                write!(text, "-> {fault} {kind:?}")?;
            }
        }
        write!(text, ", unread {unread}, flushed {flushes}")?;
        if tells_calls {
            write!(text, ", reads and failed ones {reads:?}")?;
            write!(text, ", writes and failed ones {writes:?}")?;
        }
        writeln!(text)?;
        Ok(text)
    }
}

fn kind_of(fault: &RunFault) -> Option<ErrorKind> {
    match fault {
        RunFault::Read(error) => Some(error.kind()),
        RunFault::Write(error) => Some(error.kind()),
        RunFault::TooLong => None,
    }
}
