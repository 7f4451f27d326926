//! Lines that come in pieces.
ghost use Rattle.std.specs.Prelude.{◌≡◌, ℕ, ◌++◌, ◌∷◌, ◌↔◌, List, [], IfNone, IfSome, IsTrue};
ghost use Rattle.route_lines.specs.Unfinished.{HasNoLineEnd};

use crate::command::Command;
use crate::line::read_line;
use arrayvec::ArrayVec;

/// The beginning of a line whose LF has not come: its bytes, or that they are more than the 69 of
/// the longest command. No more than those are kept of any line.
#[derive(Drop)]
pub struct Unfinished {
    bytes: ArrayVec<u8, 69>,
    is_long: bool,
}

impl Unfinished {
    ghost use Rattle.route_lines.specs.Grammar.{command_of};
    ghost use Rattle.route_lines.specs.Unfinished.{StandsFor};

    /// No line has begun.
    pub fn new() -> Self
        ensures { StandsFor result [] }
    {
        Unfinished {
            bytes: ArrayVec::new(),
            is_long: false,
        }
    }

    /// Whether no line has begun.
    pub fn is_empty(&self) -> bool
        ensures is { (line : List ℕ) → StandsFor self.now line → IsTrue result ↔ (line ≡ []) }
        ensures empty { IsTrue result → StandsFor self.now [] }
    {
        !self.is_long && self.bytes.is_empty()
    }

    /// Adds more bytes of the line.
    pub fn extend(&mut self, piece: &[u8])
        ensures { (line : List ℕ) → StandsFor self.old line
            → StandsFor self.new (line ++ piece.now) }
    {
        if !self.is_long && self.bytes.try_extend_from_slice(piece).is_err() {
            self.is_long = true;
        }
    }

    /// The command of the line that ends with these bytes; `None` if it spells none. The next line
    /// begins.
    pub fn finish(&mut self, end: &[u8]) -> Option<Command>
        ensures command { (line : List ℕ) → StandsFor self.old line
            → result ≡ command_of (line ++ end.now) }
        ensures cleared { StandsFor self.new [] }
    {
        if self.is_empty() {
            return read_line(end);
        }
        self.extend(end);
        let command = self.command();
        self.bytes.clear();
        self.is_long = false;
        command
    }

    #[tactic(auto, using(crate::proofs::GrammarLemmas::long_line))]
    fn command(&self) -> Option<Command>
        ensures { (line : List ℕ) → StandsFor self.now line → result ≡ command_of line }
    {
        if self.is_long {
            return None;
        }
        read_line(self.bytes.as_slice())
    }
}

/// The bytes before the first LF, and those behind it.
pub fn split_line(bytes: &[u8]) -> Option<(&[u8], &[u8])>
    ensures found { IfSome result (λ cut. (bytes.now ≡ cut.0.now ++ 10 ∷ cut.1.now)
        × HasNoLineEnd cut.0.now) }
    ensures none { IfNone result (HasNoLineEnd bytes.now) }
{
    let end = memchr::memchr(b'\n', bytes)?;
    Some((&bytes[..end], &bytes[end + 1..]))
}
