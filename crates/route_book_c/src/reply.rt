//! Replies of one line.
ghost use Rattle.std.specs.Prelude.{◌≡◌, ◌≢◌, ◌≤◌, ℕ, [], Some, decimal, length};
ghost use Rattle.route_lines.specs.Reply.{done_line, ended, found_line, neighbor_line, next};
ghost use Rattle.route_lines.specs.Reply.{old_line, reference_text, reply, shown_line, ticket_line};
ghost use Rattle.route_lines.specs.declared.command.Command.{Command as Asked};
ghost use Rattle.route_book.specs.Book.{KeepsRooms};
ghost use Rattle.route_book.specs.Removals.{IsPacked};

use proof_marks::recall;
use route_book::{BookBacking, Command, PtrCore, Refusal, RouteBook, Shown, Word};
use route_lines::ReplyText;

// A number has at most 20 digits.
fn number_is_short(number: u64)
    ensures { length (decimal number) ≤ 20 }
{
    let _ = number;
}

fn reference_is_short(reference: Option<u64>)
    ensures { length (reference_text reference) ≤ 20 }
{
    if let Some(ticket) = reference {
        number_is_short(ticket);
    }
}

fn word_is_short(word: &Word)
    ensures { length word.now ≤ 16 }
{
    recall!(word.as_bytes());
}

fn put_ticket(text: &mut ReplyText, ticket: Result<u64, Refusal>)
    requires { text.old ≡ [] }
    ensures text { text.new ≡ ended (ticket_line ticket) }
    ensures short { length text.new ≤ 59 }
{
    match ticket {
        Ok(number) => {
            number_is_short(number);
            text.push_ticket(Ok(number));
        }
        Err(refusal) => text.push_refusal(refusal),
    }
}

fn put_old(text: &mut ReplyText, old: &Result<Word, Refusal>)
    requires { text.old ≡ [] }
    ensures text { text.new ≡ ended (old_line old.now) }
    ensures short { length text.new ≤ 59 }
{
    if let Ok(word) = old {
        word_is_short(word);
    }
    text.push_old(old);
}

fn put_shown(text: &mut ReplyText, shown: &Result<Shown, Refusal>)
    requires { text.old ≡ [] }
    ensures text { text.new ≡ ended (shown_line shown.now) }
    ensures short { length text.new ≤ 59 }
{
    shown_is_short(shown);
    text.push_shown(shown);
}

fn shown_is_short(shown: &Result<Shown, Refusal>)
    ensures { length (shown_line shown.now) ≤ 58 }
{
    match shown {
        Ok(Shown::Place { key, word }) => {
            number_is_short(*key);
            word_is_short(word);
        }
        Ok(Shown::Stop { place }) => reference_is_short(*place),
        Ok(Shown::Mark { place, stop }) => {
            reference_is_short(*place);
            reference_is_short(*stop);
        }
        Err(_) => {}
    }
}

fn put_found(text: &mut ReplyText, found: Option<u64>)
    requires { text.old ≡ [] }
    ensures text { text.new ≡ ended (found_line found) }
    ensures short { length text.new ≤ 59 }
{
    if let Some(ticket) = found {
        number_is_short(ticket);
    }
    text.push_found(found);
}

fn put_neighbor(text: &mut ReplyText, neighbor: Result<Option<u64>, Refusal>)
    requires { text.old ≡ [] }
    ensures text { text.new ≡ ended (neighbor_line neighbor) }
    ensures short { length text.new ≤ 59 }
{
    match neighbor {
        Ok(found) => put_found(text, found),
        Err(refusal) => text.push_refusal(refusal),
    }
}

fn put_done(text: &mut ReplyText, done: Result<(), Refusal>)
    requires { text.old ≡ [] }
    ensures text { text.new ≡ ended (done_line done) }
    ensures short { length text.new ≤ 59 }
{
    text.push_done(done);
}

// Carries out a command whose reply is one line, and gathers that. The two others do nothing here.
pub(crate) fn gather<P: PtrCore, B: BookBacking<P>>(
    book: &mut RouteBook<P, B>,
    command: Command,
    text: &mut ReplyText,
)
    requires { text.old ≡ [] }
    ensures state { book.new.state ≡ next book.old.state (Some command) }
    ensures text { command ≢ Asked.All → ((stop : ℕ) → command ≢ Asked.Walk stop)
        → text.new ≡ reply book.old.state (Some command) }
    ensures short { length text.new ≤ 59 }
    ensures rooms { KeepsRooms book.old book.new }
    ensures packed { command ≡ Asked.Pack → (looks : ℕ)
        × IsPacked P.Gen.last 0 looks book.old book.new }
{
    match command {
        Command::Place { key, word, near } => match near {
            None => put_ticket(text, book.place(key, word)),
            Some(near) => put_ticket(text, book.place_near(key, word, near)),
        },
        Command::Word { ticket, word } => put_old(text, &book.set_word(ticket, word)),
        Command::Show { ticket } => put_shown(text, &book.show(ticket)),
        Command::Find { key } => put_found(text, book.find(key)),
        Command::Floor { key } => put_found(text, book.floor(key)),
        Command::After { ticket } => put_neighbor(text, book.after(ticket)),
        Command::Before { ticket } => put_neighbor(text, book.before(ticket)),
        Command::Start { place } => put_ticket(text, book.start(place)),
        Command::Extend { stop, place } => put_ticket(text, book.extend(stop, place)),
        Command::Join { stop, next } => put_done(text, book.join(stop, next)),
        Command::Remove { ticket } => put_done(text, book.remove(ticket)),
        Command::Cut { stop } => put_done(text, book.cut(stop)),
        Command::Swap { stop, other } => put_done(text, book.swap(stop, other)),
        Command::Mark { place, stop } => put_ticket(text, book.mark(place, stop)),
        Command::Pack => {
            book.pack();
            put_done(text, Ok(()));
        }
        Command::All => {}
        Command::Walk { stop: _ } => {}
    }
}
