//! One line: what it does to a store, and its reply.
ghost use Rattle.std.specs.Prelude.{◌≡◌, ◌≢◌, ◌+◌, ℕ, [], Some, OnOk, OnErr};
ghost use Rattle.route_lines.specs.Grammar.{command_of};
ghost use Rattle.route_lines.specs.Calls.{walked};
ghost use Rattle.route_lines.specs.Reply.{reply, next, places_text, stops_text, walk_text};
ghost use Rattle.route_lines.specs.Searches.{CountsFor, CountsWithin, most_for};
ghost use Rattle.route_lines.specs.Watched.{failed_of};
ghost use Rattle.route_lines.specs.declared.command.Command.{Command as Asked};
ghost use Rattle.route_book.specs.Removals.{Spares, Stays, Steps};
ghost use Rattle.route_book.specs.Running.{AppendsBeginningTo, AppendsTo};

use crate::backing::BookBacking;
use crate::book::{RouteBook, Walk};
use crate::items::{Place, Stop};
use crate::places::Places;
use route_lines::{Command, Counts, ReplyText, Watched, make_room, read_line, send};
use std::io;
use std::io::Write;
use triple_arena_chain::ChainSlots;
use triple_arena_ord::OrdSlots;
use triple_arena_ptr::PtrCore;

impl<P: PtrCore, B: BookBacking<P>> RouteBook<P, B> {
    /// Carries out one line, given without its LF, and writes its reply.
    ///
    /// A line that asks, spells no command or is refused leaves the store as it was. One that puts
    /// in or rewords a place leaves stops and marks, one on routes places and marks, and `mark`
    /// places and stops.
    ///
    /// An `Err` is that of the write that failed, or `WriteZero` if one took nothing. The line is
    /// carried out all the same, and a beginning of its reply is written, at least a byte short.
    pub fn answer<W: Write>(
        &mut self,
        line: &[u8],
        writer: &mut Watched<W>,
        counts: &mut Counts,
    ) -> io::Result<()>
        ensures state { self.new.state ≡ next self.old.state (command_of line.now) }
        ensures steps { Steps P.Gen.last
            (command_of line.now) counts.old.looks counts.new.looks self.old self.new }
        ensures stays { Stays self.old.state (command_of line.now) self.old self.new }
        ensures others { Spares (command_of line.now) self.old self.new }
        ensures ok { OnOk result (AppendsTo W.contents writer.old writer.new
            (reply self.old.state (command_of line.now))) }
        ensures ok_failed { OnOk result (failed_of writer.new ≡ failed_of writer.old) }
        ensures err { OnErr result (AppendsBeginningTo W.contents writer.old writer.new
            (reply self.old.state (command_of line.now))) }
        ensures err_failed { OnErr result (failed_of writer.new ≡ failed_of writer.old + 1) }
        ensures counts { CountsFor self.old.state (command_of line.now) counts.old counts.new }
    {
        self.carry_out(read_line(line), &mut ReplyText::new(), writer, counts)
    }

    // Carries out a command, or answers a line that spells none. `text` is for the reply to be
    // gathered in.
    pub(crate) fn carry_out<W: Write>(
        &mut self,
        command: Option<Command>,
        text: &mut ReplyText,
        writer: &mut Watched<W>,
        counts: &mut Counts,
    ) -> io::Result<()>
        ensures state { self.new.state ≡ next self.old.state command }
        ensures steps { Steps P.Gen.last command counts.old.looks counts.new.looks
            self.old self.new }
        ensures stays { Stays self.old.state command self.old self.new }
        ensures others { Spares command self.old self.new }
        ensures ok { OnOk result (AppendsTo W.contents writer.old writer.new
            (reply self.old.state command)) }
        ensures ok_failed { OnOk result (failed_of writer.new ≡ failed_of writer.old) }
        ensures err { OnErr result (AppendsBeginningTo W.contents writer.old writer.new
            (reply self.old.state command)) }
        ensures err_failed { OnErr result (failed_of writer.new ≡ failed_of writer.old + 1) }
        ensures counts { CountsFor self.old.state command counts.old counts.new }
    {
        text.clear();
        let Some(command) = command else {
            text.push_line(b"bad");
            return send(writer, text.as_slice());
        };
        match command {
            Command::All => write_places(self.places(), text, writer),
            Command::Walk { stop } => self.write_walk(stop, text, writer, counts),
            command => {
                self.push_reply(command, text, counts);
                send(writer, text.as_slice())
            }
        }
    }

    // Carries out a command whose reply is one line, and gathers it. The two others do nothing
    // here.
    fn push_reply(&mut self, command: Command, text: &mut ReplyText, counts: &mut Counts)
        requires { text.old ≡ [] }
        ensures state { self.new.state ≡ next self.old.state (Some command) }
        ensures steps { Steps P.Gen.last
            (Some command) counts.old.looks counts.new.looks self.old self.new }
        ensures stays { Stays self.old.state (Some command) self.old self.new }
        ensures others { Spares (Some command) self.old self.new }
        ensures text { command ≢ Asked.All → ((stop : ℕ) → command ≢ Asked.Walk stop)
            → text.new ≡ reply self.old.state (Some command) }
        ensures counts { CountsFor self.old.state (Some command) counts.old counts.new }
    {
        match command {
            Command::Place { key, word, near } => match near {
                None => text.push_ticket(self.place_counted(key, word, counts)),
                Some(near) => text.push_ticket(self.place_near_counted(key, word, near, counts)),
            },
            Command::Word { ticket, word } => {
                text.push_old(&self.set_word_counted(ticket, word, counts));
            }
            Command::Show { ticket } => text.push_shown(&self.show_counted(ticket, counts)),
            Command::Find { key } => text.push_found(self.find_counted(key, counts)),
            Command::Floor { key } => text.push_found(self.floor_counted(key, counts)),
            Command::After { ticket } => text.push_neighbor(self.after_counted(ticket, counts)),
            Command::Before { ticket } => text.push_neighbor(self.before_counted(ticket, counts)),
            Command::Start { place } => text.push_ticket(self.start_counted(place, counts)),
            Command::Extend { stop, place } => {
                text.push_ticket(self.extend_counted(stop, place, counts));
            }
            Command::Join { stop, next } => text.push_done(self.join_counted(stop, next, counts)),
            Command::Remove { ticket } => text.push_done(self.remove_counted(ticket, counts)),
            Command::Cut { stop } => text.push_done(self.cut_counted(stop, counts)),
            Command::Swap { stop, other } => text.push_done(self.swap_counted(stop, other, counts)),
            Command::Mark { place, stop } => text.push_ticket(self.mark_counted(
                place, stop, counts,
            )),
            Command::Pack => {
                self.pack_counted(counts);
                text.push_done(Ok(()));
            }
            Command::All => {}
            Command::Walk { stop: _ } => {}
        }
    }

    // The stops of a walk, or why it is refused.
    fn write_walk<W: Write>(
        &self,
        stop: u64,
        text: &mut ReplyText,
        writer: &mut Watched<W>,
        counts: &mut Counts,
    ) -> io::Result<()>
        requires { text.old ≡ [] }
        ensures ok { OnOk result (AppendsTo W.contents writer.old writer.new
            (walk_text (walked self.now.state stop))) }
        ensures ok_failed { OnOk result (failed_of writer.new ≡ failed_of writer.old) }
        ensures err { OnErr result (AppendsBeginningTo W.contents writer.old writer.new
            (walk_text (walked self.now.state stop))) }
        ensures err_failed { OnErr result (failed_of writer.new ≡ failed_of writer.old + 1) }
        ensures counts { CountsWithin counts.old counts.new 0 (most_for self.now.state stop) 0 }
    {
        match self.walk_counted(stop, counts) {
            Ok(stops) => write_stops(stops, text, writer),
            Err(refusal) => {
                text.push_refusal(refusal);
                send(writer, text.as_slice())
            }
        }
    }
}

// A line for each place and `end`, in as few writes as the text's room allows.
fn write_places<P: PtrCore, S: OrdSlots<P, Place>, W: Write>(
    mut places: Places<'_, P, S>,
    text: &mut ReplyText,
    writer: &mut Watched<W>,
) -> io::Result<()>
    requires { text.old ≡ [] }
    ensures ok { OnOk result (AppendsTo W.contents writer.old writer.new
        (places_text places.entry)) }
    ensures ok_failed { OnOk result (failed_of writer.new ≡ failed_of writer.old) }
    ensures err { OnErr result (AppendsBeginningTo W.contents writer.old writer.new
        (places_text places.entry)) }
    ensures err_failed { OnErr result (failed_of writer.new ≡ failed_of writer.old + 1) }
{
    while let Some((ticket, key, word)) = places.next() {
        make_room(text, writer)?;
        text.push_place(ticket, key, word);
    }
    make_room(text, writer)?;
    text.push_line(b"end");
    send(writer, text.as_slice())
}

// A line for each stop of a walk and `end`, as for places.
fn write_stops<P: PtrCore, S: OrdSlots<P, Place>, C: ChainSlots<P, Stop<P>>, W: Write>(
    mut stops: Walk<'_, P, S, C>,
    text: &mut ReplyText,
    writer: &mut Watched<W>,
) -> io::Result<()>
    requires { text.old ≡ [] }
    ensures ok { OnOk result (AppendsTo W.contents writer.old writer.new (stops_text stops.entry)) }
    ensures ok_failed { OnOk result (failed_of writer.new ≡ failed_of writer.old) }
    ensures err { OnErr result (AppendsBeginningTo W.contents writer.old writer.new
        (stops_text stops.entry)) }
    ensures err_failed { OnErr result (failed_of writer.new ≡ failed_of writer.old + 1) }
{
    while let Some((ticket, place)) = stops.next() {
        make_room(text, writer)?;
        text.push_stop(ticket, place);
    }
    make_room(text, writer)?;
    text.push_line(b"end");
    send(writer, text.as_slice())
}
