//! Texts that are written whole.
ghost use Rattle.std.specs.Prelude.{◌≡◌, ℕ, ◌+◌, ◌++◌, List, OnOk, OnErr};
ghost use Rattle.std.specs.Io.KnownBytes.{Appends};
ghost use Rattle.route_lines.specs.ReplyText.{HasRoom};
ghost use Rattle.route_lines.specs.Watched.{inner_of, failed_of};
ghost use Rattle.route_lines.specs.Written.{AppendsBeginning, Writes};

use crate::reply_text::ReplyText;
use crate::watched::Watched;
use std::io;
use std::io::{ErrorKind, Write};

/// Writes all the bytes, by as many writes as that takes.
///
/// An `Err` is that of the write that failed, or `WriteZero` if one took nothing.
pub fn send<W: Write>(writer: &mut Watched<W>, bytes: &[u8]) -> io::Result<()>
    ensures ok { OnOk result (Appends (W.contents (inner_of writer.old))
        (W.contents (inner_of writer.new)) bytes.now) }
    ensures ok_failed { OnOk result (failed_of writer.new ≡ failed_of writer.old) }
    ensures err { OnErr result (AppendsBeginning (W.contents (inner_of writer.old))
        (W.contents (inner_of writer.new)) bytes.now) }
    ensures err_failed { OnErr result (failed_of writer.new ≡ failed_of writer.old + 1) }
{
    let mut rest = bytes;
    while !rest.is_empty() {
        let taken = writer.write(rest)?;
        if taken == 0 {
            return Err(io::Error::from(ErrorKind::WriteZero));
        }
        rest = &rest[taken..];
    }
    Ok(())
}

/// Makes room for one line more: if there is none, it writes what was gathered. An `Err` is that of
/// the write that failed, or `WriteZero` if one took nothing.
pub fn make_room<W: Write>(text: &mut ReplyText, writer: &mut Watched<W>) -> io::Result<()>
    ensures room { OnOk result (HasRoom text.new 59) }
    ensures ok { OnOk result ((sent : List ℕ) × (text.old ≡ sent ++ text.new)
        × Appends (W.contents (inner_of writer.old)) (W.contents (inner_of writer.new)) sent) }
    ensures ok_failed { OnOk result (failed_of writer.new ≡ failed_of writer.old) }
    ensures err { OnErr result (AppendsBeginning (W.contents (inner_of writer.old))
        (W.contents (inner_of writer.new)) text.old) }
    ensures err_failed { OnErr result (failed_of writer.new ≡ failed_of writer.old + 1) }
{
    if text.has_room() {
        return Ok(());
    }
    send(writer, text.as_slice())?;
    text.clear();
    Ok(())
}

/// Writes a line, and passes over a failure, of which nobody is left to hear.
pub fn tell<E: Write>(errors: &mut Watched<E>, line: &[u8])
    ensures { Writes (failed_of errors.old) (failed_of errors.new)
        (E.contents (inner_of errors.old)) (E.contents (inner_of errors.new)) line.now }
{
    match send(errors, line) {
        Ok(()) => {}
        Err(_) => {}
    }
}
