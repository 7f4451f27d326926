//! A service that packs whenever it likes. What it answers and the state after it are those without
//! a pack.
ghost use Rattle.std.specs.Prelude.{◌≡◌, ◌+◌, ◌-◌, ◌^◌, ℕ, List, IfErr, OnErr, OnOk, filter, not};
ghost use Rattle.std.specs.Io.KnownBytes.{Appends, Consumes, IsAtEnd};
ghost use Rattle.route_lines.specs.Calls.{shown};
ghost use Rattle.route_lines.specs.Grammar.{command_of};
ghost use Rattle.route_lines.specs.Reply.{next, reply};
ghost use Rattle.route_lines.specs.Run.{OnRead, OnTooLong, OnWrite};
ghost use Rattle.route_lines.specs.Text.{after_lines, answered, is_pack, lines, replies};
ghost use Rattle.route_lines.specs.Watched.{calls_of, failed_of, inner_of};
ghost use Rattle.route_lines.specs.Written.{AppendsBeginning};

use route_book::laws::packs_change_no_reply;
use route_book::{BookBacking, Counts, PtrCore, Refusal, RouteBook, RunFault, Shown, Watched, run};
use std::io;
use std::io::{Read, Write};

// Packs the store, or does not.
fn pack_if<P: PtrCore, B: BookBacking<P>>(
    packs: bool,
    book: &mut RouteBook<P, B>,
    counts: &mut Counts,
)
    ensures { book.new.state ≡ book.old.state }
{
    if packs {
        book.pack_counted(counts);
    }
}

/// Answers a line, after a pack if one is wanted.
pub fn answer<P: PtrCore, B: BookBacking<P>, W: Write>(
    packs: bool,
    book: &mut RouteBook<P, B>,
    line: &[u8],
    writer: &mut Watched<W>,
    counts: &mut Counts,
) -> io::Result<()>
    ensures state { book.new.state ≡ next book.old.state (command_of line.now) }
    ensures ok { OnOk result (Appends (W.contents (inner_of writer.old))
        (W.contents (inner_of writer.new)) (reply book.old.state (command_of line.now))) }
    ensures ok_failed { OnOk result (failed_of writer.new ≡ failed_of writer.old) }
    ensures err { OnErr result (AppendsBeginning (W.contents (inner_of writer.old))
        (W.contents (inner_of writer.new)) (reply book.old.state (command_of line.now))) }
    ensures err_failed { OnErr result (failed_of writer.new ≡ failed_of writer.old + 1) }
{
    pack_if(packs, book, counts);
    book.answer(line, writer, counts)
}

/// What a ticket names, after a pack if one is wanted.
pub fn show<P: PtrCore, B: BookBacking<P>>(
    packs: bool,
    book: &mut RouteBook<P, B>,
    ticket: u64,
) -> Result<Shown, Refusal>
    ensures result { result ≡ shown book.old.state ticket }
    ensures state { book.new.state ≡ book.old.state }
{
    pack_if(packs, book, &mut Counts::new());
    book.show(ticket)
}

/// Answers an input, after a pack. Its own lines that pack change no other reply, and the state at
/// its end is the one without them.
pub fn serve<P: PtrCore, B: BookBacking<P>, R: Read, W: Write>(
    book: &mut RouteBook<P, B>,
    reader: &mut Watched<R>,
    writer: &mut Watched<W>,
    counts: &mut Counts,
) -> Result<(), RunFault>
    ensures ok { OnOk result ((input : List ℕ)
        × Consumes (R.remaining (inner_of reader.old)) (R.remaining (inner_of reader.new)) input
        × IsAtEnd (R.remaining (inner_of reader.new))
        × Appends (W.contents (inner_of writer.old)) (W.contents (inner_of writer.new))
        (replies book.old.state (lines input))
        × (filter (λ a. not (is_pack a.0)) (answered book.old.state (lines input))
        ≡ answered book.old.state (filter (λ line. not (is_pack line)) (lines input)))
        × (book.new.state ≡ after_lines book.old.state
        (filter (λ line. not (is_pack line)) (lines input)))) }
    ensures read_failed { IfErr result
        (λ fault. OnRead fault (failed_of reader.new ≡ failed_of reader.old + 1)) }
    ensures write_failed { IfErr result
        (λ fault. OnWrite fault (failed_of writer.new ≡ failed_of writer.old + 1)) }
    ensures many_reads { IfErr result
        (λ fault. OnTooLong fault (calls_of reader.new ≡ calls_of reader.old + (2 ^ 64 - 1))) }
{
    packs_change_no_reply();
    book.pack_counted(counts);
    run(book, reader, writer, counts)
}
