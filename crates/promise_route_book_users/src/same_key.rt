//! Places that have one key: the first of them, and another word for one.
ghost use Rattle.std.specs.Prelude.{◌≡◌, IfErr};
ghost use Rattle.route_lines.specs.Calls.{after_word, found, worded};

use route_book::{BookBacking, PtrCore, Refusal, RouteBook, Word};

/// The smallest ticket of the places with a key.
pub fn first_with<P: PtrCore, B: BookBacking<P>>(book: &RouteBook<P, B>, key: u64) -> Option<u64>
    ensures { result ≡ found book.now.state key }
{
    book.find(key)
}

/// Another word for the place with a ticket, and for no other one of its key. A refusal changes
/// nothing.
pub fn rename<P: PtrCore, B: BookBacking<P>>(
    book: &mut RouteBook<P, B>,
    ticket: u64,
    word: Word,
) -> Result<Word, Refusal>
    ensures result { result ≡ worded book.old.state ticket }
    ensures state { book.new.state ≡ after_word book.old.state ticket word }
    ensures refused { IfErr result (λ _. book.new ≡ book.old) }
{
    book.set_word(ticket, word)
}
