//! The lines of a route book: which line spells which command, what a store of places, routes and
//! marks answers to it, and the state after it. There is no store here, and no arena: a state is
//! plain lists under tickets.
//!
//! [`read_line`] reads a command, a [`ReplyText`] gathers a reply, and [`Unfinished`] keeps a line
//! whose end has not come. [`Held`] is a state that a store carries for its proofs alone. `specs/`
//! has the grammar, the states, the replies and what a run over an input does.
#![tactic(auto)]

mod arguments;
mod change;
mod command;
mod counts;
mod fault;
mod held;
pub mod laws;
mod line;
mod number;
mod refusal;
mod reply_text;
mod sending;
mod shown;
mod unfinished;
mod watched;
mod word;

pub use arguments::{read_rooms, refused_line};
pub use change::Change;
pub use command::Command;
pub use counts::Counts;
pub use fault::RunFault;
pub use held::Held;
pub use line::read_line;
pub use number::read_number;
pub use refusal::{Refusal, RoomError};
pub use reply_text::ReplyText;
pub use sending::{make_room, send, tell};
pub use shown::Shown;
pub use unfinished::{Unfinished, split_line};
pub use watched::Watched;
pub use word::Word;
