//! A store of places, routes and marks that answers lines, for C.
//!
//! A holder keeps a store, or none: `kept`. `route_book_run` carries out lines of the store's
//! language, and writes their replies into room of the caller: `Answers`. It stops at the first
//! line that lacks room for its reply: as much as a list takes, and 59 bytes for each other line.
//!
//! Each call answers a status: 0 it is done, 1 the memory was refused, 2 the rooms together are
//! more than there are indexes, 5 the holder keeps no store, 6 it keeps one already, 7 a line had
//! no room for its reply.
#![tactic(auto)]

ghost use Rattle.std.specs.Prelude.{◌≡◌, ◌≢◌, ◌⊎◌, ◌+◌, ◌-◌, ◌<◌, ◌≤◌, ◌↔◌, ℕ, Some, None, []};
ghost use Rattle.std.specs.Prelude.{length, take, drop};
ghost use Rattle.std.specs.Prelude.{map as list_map};
ghost use Rattle.std.specs.Int.NonZero.{non_zero_u32_get};
ghost use Rattle.route_lines.specs.Text.{after, lines, rest_of, text, whole, whole_lines};
ghost use Rattle.route_lines.specs.Unfinished.{HasNoLineEnd};
ghost use Rattle.route_book.specs.Book.{KeepsRooms};
ghost use Rattle.route_book.specs.Removals.{IsPacked};
ghost use Rattle.route_book.specs.Rooms.{HasRooms};
ghost use Rattle.route_book_c.specs.Held.{OnKept, marks as marks_in, places as places_in};
ghost use Rattle.route_book_c.specs.Held.{stops as stops_in};
ghost use Rattle.route_book_c.specs.Lines.{Answers, Lacks, opened};
ghost use Rattle.route_book_c.specs.Numbers.{greatest, growing, status_of};

mod answering;
mod holder;
mod listing;
mod reply;
mod room;
mod store;

pub use holder::Holder;
use route_book::RoomError;
use std::alloc::Global;
pub use store::Store;

// The status of rooms that are refused.
fn refused(refusal: RoomError) -> u8
    ensures { result ≡ status_of refusal }
{
    match refusal {
        RoomError::Memory => 1,
        _ => 2,
    }
}

/// Makes a store with room for so many places, stops and marks, which takes all its memory now, and
/// leaves it in the holder. It answers 0; or 1 if the memory was refused, 2 if the rooms together
/// are past 4,294,967,295, or 6 if the holder keeps a store already, and then nothing changes.
#[unsafe(no_mangle)]
pub extern "C" fn route_book_new(
    alloc: Global,
    book: &mut Holder,
    places: usize,
    stops: usize,
    marks: usize,
) -> u8
    ensures made { result ≡ 0 → OnKept book.new.kept
        (λ is. is.book.state ≡ opened places stops marks) }
    ensures rooms { result ≡ 0 → OnKept book.new.kept (λ is. HasRooms greatest growing
        (record { places = places; stops = stops; marks = marks }) is.book) }
    ensures index { result ≡ 2 ↔ ((book.old.kept ≡ None) × (greatest < places + stops + marks)) }
    ensures taken { result ≡ 6 ↔ (book.old.kept ≢ None) }
    ensures refused { result ≢ 0 → book.new.kept ≡ book.old.kept }
    ensures statuses { (result ≡ 0) ⊎ ((result ≡ 1) ⊎ ((result ≡ 2) ⊎ (result ≡ 6))) }
{
    if let Some(own) = book.take(alloc) {
        book.put(alloc, own);
        return 6;
    }
    match Store::new(alloc, places, stops, marks) {
        Ok(own) => {
            book.put(alloc, own);
            0
        }
        Err(refusal) => refused(refusal),
    }
}

/// Frees the store, if there is one, and its memory. The holder then keeps none.
#[unsafe(no_mangle)]
pub extern "C" fn route_book_free(alloc: Global, book: &mut Holder)
    ensures { book.new.kept ≡ None }
{
    drop(book.take(alloc));
}

/// Writes how many places live. It answers 0; or 5 if there is no store, and then it writes
/// nothing.
#[unsafe(no_mangle)]
pub extern "C" fn route_book_places(alloc: Global, book: &mut Holder, count: &mut usize) -> u8
    ensures live { result ≡ 0 → count.new ≡ places_in book.old.kept }
    ensures no_book { result ≡ 5 ↔ (book.old.kept ≡ None) }
    ensures unwritten { result ≢ 0 → count.new ≡ count.old }
    ensures kept { book.new.kept ≡ book.old.kept }
    ensures statuses { (result ≡ 0) ⊎ (result ≡ 5) }
{
    let Some(own) = book.take(alloc) else {
        return 5;
    };
    *count = own.place_count();
    book.put(alloc, own);
    0
}

/// Writes how many stops live. It answers 0; or 5 if there is no store, and then it writes nothing.
#[unsafe(no_mangle)]
pub extern "C" fn route_book_stops(alloc: Global, book: &mut Holder, count: &mut usize) -> u8
    ensures live { result ≡ 0 → count.new ≡ stops_in book.old.kept }
    ensures no_book { result ≡ 5 ↔ (book.old.kept ≡ None) }
    ensures unwritten { result ≢ 0 → count.new ≡ count.old }
    ensures kept { book.new.kept ≡ book.old.kept }
    ensures statuses { (result ≡ 0) ⊎ (result ≡ 5) }
{
    let Some(own) = book.take(alloc) else {
        return 5;
    };
    *count = own.stop_count();
    book.put(alloc, own);
    0
}

/// Writes how many marks live. It answers 0; or 5 if there is no store, and then it writes nothing.
#[unsafe(no_mangle)]
pub extern "C" fn route_book_marks(alloc: Global, book: &mut Holder, count: &mut usize) -> u8
    ensures live { result ≡ 0 → count.new ≡ marks_in book.old.kept }
    ensures no_book { result ≡ 5 ↔ (book.old.kept ≡ None) }
    ensures unwritten { result ≢ 0 → count.new ≡ count.old }
    ensures kept { book.new.kept ≡ book.old.kept }
    ensures statuses { (result ≡ 0) ⊎ (result ≡ 5) }
{
    let Some(own) = book.take(alloc) else {
        return 5;
    };
    *count = own.mark_count();
    book.put(alloc, own);
    0
}

/// Moves all items to the first indexes, as the line `pack` does. No reply and no later one
/// changes, and no memory is taken. It answers 0, or 5 if there is no store.
#[unsafe(no_mangle)]
pub extern "C" fn route_book_pack(alloc: Global, book: &mut Holder) -> u8
    ensures state { result ≡ 0 → OnKept book.old.kept (λ was. OnKept book.new.kept
        (λ is. is.book.state ≡ was.book.state)) }
    ensures packed { result ≡ 0 → OnKept book.old.kept (λ was. OnKept book.new.kept
        (λ is. (looks : ℕ) × IsPacked (Some greatest) 0 looks was.book is.book)) }
    ensures no_book { result ≡ 5 ↔ (book.old.kept ≡ None) }
    ensures unmade { book.old.kept ≡ None → book.new.kept ≡ None }
    ensures statuses { (result ≡ 0) ⊎ (result ≡ 5) }
{
    let Some(mut own) = book.take(alloc) else {
        return 5;
    };
    own.pack();
    book.put(alloc, own);
    0
}

/// Carries out the whole lines of the input one after another, and writes their replies into the
/// room from its front on. It writes to `taken` how many bytes of the input these lines are, and to
/// `written` how many bytes of the room their replies are. What follows the last LF is never taken:
/// give it again with what comes behind it. No memory is taken.
///
/// It answers 0 if no whole line is left, and what stands behind the replies in the room is as it
/// was. It answers 7 if the next line has no room for its reply. That line is not carried out, and
/// what stands behind the replies is not told; go on with the rest of the input in more room. If
/// there is no store it answers 5, and writes nothing.
#[unsafe(no_mangle)]
pub extern "C" fn route_book_run(
    alloc: Global,
    book: &mut Holder,
    input: &[u8],
    room: &mut [u8],
    taken: &mut usize,
    written: &mut usize,
) -> u8
    ensures answers { result ≢ 5 → OnKept book.old.kept (λ was. OnKept book.new.kept (λ is.
        Answers was.book.state input.now taken.new is.book.state (take written.new room.new))) }
    ensures rooms { result ≢ 5 → OnKept book.old.kept (λ was. OnKept book.new.kept
        (λ is. KeepsRooms was.book is.book)) }
    ensures within { result ≢ 5 → written.new ≤ length room.old }
    ensures all { result ≡ 0 → HasNoLineEnd (drop taken.new input.now) }
    ensures rest { result ≡ 0 → drop written.new room.new ≡ drop written.new room.old }
    ensures short { result ≡ 7 → OnKept book.new.kept (λ is. Lacks is.book.state
        (list_map whole (whole_lines (drop taken.new input.now)))
        (length room.old - written.new)) }
    ensures length { length room.new ≡ length room.old }
    ensures no_book { result ≡ 5 ↔ (book.old.kept ≡ None) }
    ensures unmade { book.old.kept ≡ None → book.new.kept ≡ None }
    ensures room_unwritten { result ≡ 5 → room.new ≡ room.old }
    ensures unwritten { result ≡ 5 → (taken.new ≡ taken.old) × (written.new ≡ written.old) }
    ensures statuses { (result ≡ 0) ⊎ ((result ≡ 5) ⊎ (result ≡ 7)) }
{
    let Some(mut own) = book.take(alloc) else {
        return 5;
    };
    let progress = own.run(input, room);
    *taken = progress.taken;
    *written = progress.written;
    book.put(alloc, own);
    if progress.is_short { 7 } else { 0 }
}

/// A new store with these rooms answers the whole input, and is gone: what the program does with
/// it. What follows the last LF is answered as a line that spells no command. `taken` and `written`
/// are as at `route_book_run`.
///
/// It answers 0 if all is answered, and what stands behind the replies in the room is as it was. It
/// answers 7 if a line has no room for its reply: the replies to the lines before it are written.
/// Or it answers 1 if the memory was refused, or 2 if the rooms together are past 4,294,967,295,
/// and writes nothing.
#[unsafe(no_mangle)]
pub extern "C" fn route_book_answer(
    alloc: Global,
    places: usize,
    stops: usize,
    marks: usize,
    input: &[u8],
    room: &mut [u8],
    taken: &mut usize,
    written: &mut usize,
) -> u8
    ensures replies { (result ≡ 0) ⊎ (result ≡ 7) → take written.new room.new
        ≡ text (opened places stops marks) (take taken.new input.now) }
    ensures within { (result ≡ 0) ⊎ (result ≡ 7)
        → (taken.new ≤ length input.now) × (written.new ≤ length room.old) }
    ensures all { result ≡ 0 → taken.new ≡ length input.now }
    ensures rest { result ≡ 0 → drop written.new room.new ≡ drop written.new room.old }
    ensures ends { result ≡ 7 → rest_of (take taken.new input.now) ≡ [] }
    ensures short { result ≡ 7
        → Lacks (after (opened places stops marks) (take taken.new input.now))
        (lines (drop taken.new input.now)) (length room.old - written.new) }
    ensures length { length room.new ≡ length room.old }
    ensures index { result ≡ 2 ↔ greatest < places + stops + marks }
    ensures room_unwritten { (result ≡ 1) ⊎ (result ≡ 2) → room.new ≡ room.old }
    ensures unwritten { (result ≡ 1) ⊎ (result ≡ 2)
        → (taken.new ≡ taken.old) × (written.new ≡ written.old) }
    ensures statuses { (result ≡ 0) ⊎ ((result ≡ 1) ⊎ ((result ≡ 2) ⊎ (result ≡ 7))) }
{
    match store::answer(alloc, places, stops, marks, input, room) {
        Ok(progress) => {
            *taken = progress.taken;
            *written = progress.written;
            if progress.is_short { 7 } else { 0 }
        }
        Err(refusal) => refused(refusal),
    }
}
