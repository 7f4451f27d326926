//! An input, answered line by line.
ghost use Rattle.std.specs.Prelude.{◌≡◌, ◌+◌, ◌-◌, ◌^◌, IfErr, OnOk, OnErr};
ghost use Rattle.route_lines.specs.Run.{OnRead, OnWrite, OnTooLong};
ghost use Rattle.route_lines.specs.Watched.{failed_of, calls_of};
ghost use Rattle.route_book.specs.Running.{BreaksOffInPiece, CarriesAll, CarriesRest};
ghost use Rattle.route_book.specs.Running.{CarriesWholeLines, StopsAtRest, StopsAtWrite};
ghost use Rattle.route_book.specs.Running.{TakesPiece};

use crate::backing::BookBacking;
use crate::book::RouteBook;
use route_lines::{Counts, ReplyText, RunFault, Unfinished, Watched, split_line};
use std::io;
use std::io::{Read, Write};
use triple_arena_ptr::PtrCore;

/// Answers an input: carries out one line after another and writes each reply before the next line
/// is carried out. The writer is flushed once, at the end of the input.
///
/// The input may come in pieces of any length. A line over 69 bytes, or what follows the last LF,
/// is answered as a line that spells no command. No memory is taken, and the store stays usable
/// after each fault. What was counted before stays counted, and no more is added than the lines may
/// take.
pub fn run<P: PtrCore, B: BookBacking<P>, R: Read, W: Write>(
    book: &mut RouteBook<P, B>,
    reader: &mut Watched<R>,
    writer: &mut Watched<W>,
    counts: &mut Counts,
) -> Result<(), RunFault>
    // The whole input was read, and every line of it is carried out and answered.
    ensures ok { OnOk result (CarriesAll R.remaining W.contents book.old.state book.new.state
        reader.old reader.new writer.old writer.new counts.old counts.new) }

    ensures ok_failed { OnOk result
        ((failed_of reader.new ≡ failed_of reader.old)
        × (failed_of writer.new ≡ failed_of writer.old)) }

    // Every whole line that was read is carried out and answered, and nothing else.
    ensures read { IfErr result (λ fault. OnRead fault
        (CarriesWholeLines R.remaining W.contents book.old.state book.new.state reader.old
        reader.new writer.old writer.new counts.old counts.new)) }
    ensures too_long { IfErr result (λ fault. OnTooLong fault
        (CarriesWholeLines R.remaining W.contents book.old.state book.new.state reader.old
        reader.new writer.old writer.new counts.old counts.new)) }

    // A line was being answered; or all are, and the flush failed.
    ensures write { IfErr result (λ fault. OnWrite fault
        (StopsAtWrite R.remaining W.contents book.old.state book.new.state reader.old reader.new
        writer.old writer.new counts.old counts.new)) }

    // No fault comes without a cause.
    ensures read_failed { IfErr result
        (λ fault. OnRead fault ((failed_of reader.new ≡ failed_of reader.old + 1)
        × (failed_of writer.new ≡ failed_of writer.old))) }
    ensures write_failed { IfErr result
        (λ fault. OnWrite fault ((failed_of writer.new ≡ failed_of writer.old + 1)
        × (failed_of reader.new ≡ failed_of reader.old))) }
    ensures many_reads { IfErr result
        (λ fault. OnTooLong fault ((calls_of reader.new ≡ calls_of reader.old + (2 ^ 64 - 1))
        × (failed_of reader.new ≡ failed_of reader.old)
        × (failed_of writer.new ≡ failed_of writer.old))) }
{
    let mut piece = [0u8; 4096];
    let mut unfinished = Unfinished::new();
    let mut text = ReplyText::new();
    for _ in 0..u64::MAX {
        let n = match reader.read(&mut piece) {
            Ok(n) => n,
            Err(error) => return Err(RunFault::Read(error)),
        };
        if n == 0 {
            return match end(book, &unfinished, &mut text, writer, counts) {
                Ok(()) => Ok(()),
                Err(error) => Err(RunFault::Write(error)),
            };
        }
        if let Err(error) = take(
            book,
            &piece[..n],
            &mut unfinished,
            &mut text,
            writer,
            counts,
        ) {
            return Err(RunFault::Write(error));
        }
    }
    Err(RunFault::TooLong)
}

// Carries out the lines that a piece of the input ends, and keeps what follows them.
fn take<P: PtrCore, B: BookBacking<P>, W: Write>(
    book: &mut RouteBook<P, B>,
    piece: &[u8],
    unfinished: &mut Unfinished,
    text: &mut ReplyText,
    writer: &mut Watched<W>,
    counts: &mut Counts,
) -> io::Result<()>
    ensures ok { OnOk result (TakesPiece W.contents book.old.state book.new.state writer.old
        writer.new counts.old counts.new piece.now unfinished.old unfinished.new) }
    ensures ok_failed { OnOk result (failed_of writer.new ≡ failed_of writer.old) }
    ensures err { OnErr result (BreaksOffInPiece W.contents book.old.state book.new.state
        writer.old writer.new counts.old counts.new piece.now unfinished.old) }
    ensures err_failed { OnErr result (failed_of writer.new ≡ failed_of writer.old + 1) }
{
    let mut left = piece;
    while let Some((line, behind)) = split_line(left) {
        let command = unfinished.finish(line);
        left = behind;
        book.carry_out(command, text, writer, counts)?;
    }
    unfinished.extend(left);
    Ok(())
}

// Answers what follows the last LF, if there is anything, and flushes the writer.
fn end<P: PtrCore, B: BookBacking<P>, W: Write>(
    book: &mut RouteBook<P, B>,
    unfinished: &Unfinished,
    text: &mut ReplyText,
    writer: &mut Watched<W>,
    counts: &mut Counts,
) -> io::Result<()>
    ensures ok { OnOk result (CarriesRest W.contents book.old.state book.new.state writer.old
        writer.new counts.old counts.new unfinished.now) }
    ensures ok_failed { OnOk result (failed_of writer.new ≡ failed_of writer.old) }
    ensures err { OnErr result (StopsAtRest W.contents book.old.state book.new.state writer.old
        writer.new counts.old counts.new unfinished.now) }
    ensures err_failed { OnErr result (failed_of writer.new ≡ failed_of writer.old + 1) }
{
    if unfinished.is_empty() {
        return writer.flush();
    }
    book.carry_out(None, text, writer, counts)?;
    writer.flush()
}
