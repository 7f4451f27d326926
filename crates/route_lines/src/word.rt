//! Words of a line.
ghost use Rattle.route_lines.specs.Word.{IsWord, is_word, is_word_byte, word_of};
ghost use Rattle.std.specs.Fmt.{padded};
ghost use Rattle.std.specs.Prelude.{◌≡◌, ◌↔◌, ⊤, IfSome, IsSome, List, ℕ, Some};

use arrayvec::ArrayVec;
use std::alloc::AllocError;
use std::fmt;
use std::marker::Model;

/// A word: 1 to 16 bytes, each of `a` to `z` or `0` to `9`. It takes no memory of its own.
#[derive(Debug, PartialEq, Eq, PartialOrd, Ord, Hash, Drop)]
pub struct Word {
    bytes: ArrayVec<u8, 16>,
}

impl Model for Word {
    ghost use Rattle.std.specs.Prelude.{ℕ, List};
    ghost use Rattle.route_lines.specs.Word.{IsWord};

    ghost Value = { List ℕ };

    ghost view = { λ w. w.bytes.items };

    ghost invariant = { λ w. IsWord w.bytes.items };

    ghost inverse = { λ bytes. record { bytes = record { items = bytes } } };
}

impl Word {
    /// The word that the bytes are; `None` exactly if they are none.
    pub fn new(bytes: &[u8]) -> Option<Word>
        ensures accepts { IsSome result ↔ IsWord bytes.now }
        ensures value { IfSome result (λ w. w ≡ bytes.now) }
        ensures exact { result ≡ word_of bytes.now }
    {
        if !is_word(bytes) {
            return None;
        }
        let bytes = ArrayVec::try_from(bytes).ok()?;
        Some(Word { bytes })
    }

    /// The bytes of the word.
    pub fn as_bytes(&self) -> &[u8]
        ensures value { result.now ≡ self.now }
        ensures word { IsWord self.now }
    {
        self.bytes.as_slice()
    }

    /// A copy of the word. Unlike `clone` it returns no `Result`: neither takes memory or can fail.
    pub fn copied(&self) -> Word
        ensures { result ≡ self.now }
    {
        match self.clone() {
            Ok(word) => word,
            Err(_) => unreachable!(),
        }
    }
}

impl fmt::Display for Word {
    ghost output = { λ w. Some w };

    ghost styled_output = { λ w spec. Some (padded spec w) };

    fn fmt<W: fmt::Write>(&self, f: &mut fmt::Formatter<W>) -> fmt::Result {
        match std::str::from_utf8(self.as_bytes()) {
            Ok(text) => f.pad(text),
            Err(_) => unreachable!(),
        }
    }
}

impl Clone for Word {
    ghost is_clone = { λ w copy. copy ≡ w };

    ghost is_infallible = { λ _. ⊤ };

    fn clone(&self) -> Result<Word, AllocError> {
        Ok(Word {
            bytes: self.bytes.clone()?,
        })
    }
}

fn is_word(bytes: &[u8]) -> bool
    ensures { result ≡ is_word bytes.now }
{
    match bytes.len() {
        1..=16 => bytes.iter().all(|&byte| is_word_byte(byte)),
        _ => false,
    }
}

fn is_word_byte(byte: u8) -> bool
    ensures { result ≡ is_word_byte byte }
{
    byte.is_ascii_lowercase() || byte.is_ascii_digit()
}
