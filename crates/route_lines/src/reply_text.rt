//! The text of a reply, gathered before it is written.
ghost use Rattle.std.specs.Prelude.{◌≡◌, ℕ, ◌+◌, ◌≤◌, ◌++◌, ◌↔◌, [], IsTrue, length};
ghost use Rattle.std.specs.Prelude.{decimal};
ghost use Rattle.route_lines.specs.Reply.{ended, refusal_line, reference_text, old_line};
ghost use Rattle.route_lines.specs.Reply.{shown_line, found_line, ticket_line, done_line};
ghost use Rattle.route_lines.specs.Reply.{neighbor_line, place_line, stop_line};
ghost use Rattle.route_lines.specs.ReplyText.{HasRoom};

use crate::refusal::Refusal;
use crate::shown::Shown;
use crate::word::Word;
use arrayvec::ArrayVec;
use itoa::Buffer;
use std::marker::Model;

/// The bytes of a reply that are still to be written, seen as their list. A line of a reply has at
/// most 59, its LF included.
#[derive(Drop)]
pub struct ReplyText {
    bytes: ArrayVec<u8, 4096>,
}

impl Model for ReplyText {
    ghost use Rattle.std.specs.Prelude.{ℕ, List};

    ghost Value = { List ℕ };

    ghost view = { λ t. t.bytes.items };
}

impl ReplyText {
    /// Nothing gathered yet.
    pub fn new() -> Self
        ensures { result ≡ [] }
    {
        ReplyText {
            bytes: ArrayVec::new(),
        }
    }

    /// Drops all that is gathered.
    pub fn clear(&mut self)
        ensures { self.new ≡ [] }
    {
        self.bytes.clear();
    }

    /// What is gathered.
    pub fn as_slice(&self) -> &[u8]
        ensures { result.now ≡ self.now }
    {
        self.bytes.as_slice()
    }

    /// Whether one more line fits, whatever it says.
    pub fn has_room(&self) -> bool
        ensures { IsTrue result ↔ HasRoom self.now 59 }
    {
        self.bytes.remaining_capacity() >= 59
    }

    fn push_bytes(&mut self, bytes: &[u8])
        requires { HasRoom self.old (length bytes.now) }
        ensures { self.new ≡ self.old ++ bytes.now }
    {
        if self.bytes.try_extend_from_slice(bytes).is_err() {
            unreachable!();
        }
    }

    fn push_number(&mut self, number: u64)
        requires { HasRoom self.old 20 }
        ensures text { self.new ≡ self.old ++ decimal number }
        ensures length { length self.new ≤ length self.old + 20 }
    {
        let mut buffer = Buffer::new();
        self.push_bytes(buffer.format(number).as_bytes());
    }

    /// Gathers a line, which is given without its LF, and an LF.
    pub fn push_line(&mut self, line: &[u8])
        requires { HasRoom self.old (length line.now + 1) }
        ensures { self.new ≡ self.old ++ ended line.now }
    {
        self.push_bytes(line);
        self.push_bytes(b"\n");
    }

    /// Gathers the line that says why a call was refused.
    pub fn push_refusal(&mut self, refusal: Refusal)
        requires { HasRoom self.old 59 }
        ensures { self.new ≡ self.old ++ ended (refusal_line refusal) }
    {
        self.push_line(match refusal {
            Refusal::Unknown => b"unknown",
            Refusal::Gone => b"gone",
            Refusal::Kind => b"kind",
            Refusal::No => b"no",
            Refusal::Full => b"full",
        });
    }

    fn push_ticket_line(&mut self, ticket: u64)
        requires { HasRoom self.old 59 }
        ensures { self.new ≡ self.old ++ ended (decimal ticket) }
    {
        self.push_number(ticket);
        self.push_bytes(b"\n");
    }

    /// Gathers the answer of `set_word`: the word that was replaced, or the refusal.
    pub fn push_old(&mut self, old: &Result<Word, Refusal>)
        requires { HasRoom self.old 59 }
        ensures { self.new ≡ self.old ++ ended (old_line old.now) }
    {
        match old {
            Ok(word) => {
                self.push_bytes(b"old ");
                self.push_word_line(word);
            }
            Err(refusal) => self.push_refusal(*refusal),
        }
    }

    fn push_word_line(&mut self, word: &Word)
        requires { HasRoom self.old 17 }
        ensures { self.new ≡ self.old ++ ended word.now }
    {
        self.push_line(word.as_bytes());
    }

    /// Gathers what `find` or `floor` answered.
    pub fn push_found(&mut self, found: Option<u64>)
        requires { HasRoom self.old 59 }
        ensures { self.new ≡ self.old ++ ended (found_line found) }
    {
        match found {
            Some(ticket) => self.push_ticket_line(ticket),
            None => self.push_line(b"none"),
        }
    }

    fn push_reference(&mut self, reference: Option<u64>)
        requires { HasRoom self.old 20 }
        ensures text { self.new ≡ self.old ++ reference_text reference }
        ensures length { length self.new ≤ length self.old + 20 }
    {
        match reference {
            Some(ticket) => self.push_number(ticket),
            None => self.push_bytes(b"gone"),
        }
    }

    /// Gathers what `show` answered.
    pub fn push_shown(&mut self, shown: &Result<Shown, Refusal>)
        requires { HasRoom self.old 59 }
        ensures { self.new ≡ self.old ++ ended (shown_line shown.now) }
    {
        match shown {
            Ok(Shown::Place { key, word }) => {
                self.push_number(*key);
                self.push_bytes(b" ");
                self.push_word_line(word);
            }
            Ok(Shown::Stop { place }) => {
                self.push_bytes(b"at ");
                self.push_reference(*place);
                self.push_bytes(b"\n");
            }
            Ok(Shown::Mark { place, stop }) => {
                self.push_reference(*place);
                self.push_bytes(b" ");
                self.push_reference(*stop);
                self.push_bytes(b"\n");
            }
            Err(refusal) => self.push_refusal(*refusal),
        }
    }

    /// Gathers the line of a place, as `all` lists it.
    pub fn push_place(&mut self, ticket: u64, key: u64, word: &Word)
        requires { HasRoom self.old 59 }
        ensures { self.new ≡ self.old ++ ended
            (place_line (record { ticket = ticket; key = key; word = word.now })) }
    {
        self.push_number(ticket);
        self.push_bytes(b" ");
        self.push_number(key);
        self.push_bytes(b" ");
        self.push_word_line(word);
    }

    /// Gathers what `place`, `start`, `extend` or `mark` answered: the new ticket, or the refusal.
    pub fn push_ticket(&mut self, ticket: Result<u64, Refusal>)
        requires { HasRoom self.old 59 }
        ensures { self.new ≡ self.old ++ ended (ticket_line ticket) }
    {
        match ticket {
            Ok(ticket) => self.push_ticket_line(ticket),
            Err(refusal) => self.push_refusal(refusal),
        }
    }

    /// Gathers what `remove`, `join`, `cut`, `swap` or `pack` answered.
    pub fn push_done(&mut self, done: Result<(), Refusal>)
        requires { HasRoom self.old 59 }
        ensures { self.new ≡ self.old ++ ended (done_line done) }
    {
        match done {
            Ok(()) => self.push_line(b"ok"),
            Err(refusal) => self.push_refusal(refusal),
        }
    }

    /// Gathers what `after` or `before` answered.
    pub fn push_neighbor(&mut self, neighbor: Result<Option<u64>, Refusal>)
        requires { HasRoom self.old 59 }
        ensures { self.new ≡ self.old ++ ended (neighbor_line neighbor) }
    {
        match neighbor {
            Ok(found) => self.push_found(found),
            Err(refusal) => self.push_refusal(refusal),
        }
    }

    /// Gathers the line of a stop, as `walk` lists it.
    pub fn push_stop(&mut self, ticket: u64, place: Option<u64>)
        requires { HasRoom self.old 59 }
        ensures { self.new ≡ self.old ++ ended
            (stop_line (record { ticket = ticket; place = place })) }
    {
        self.push_number(ticket);
        self.push_bytes(b" ");
        self.push_reference(place);
        self.push_bytes(b"\n");
    }
}
