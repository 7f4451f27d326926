//! Examples of what ordered arenas are for, each a page to copy from. Those of the other arenas are
//! in `example_chain`.
//!
//! - [`open_book`], [`add_order`], [`cancel_order`], [`best_ask`], [`best_bid`], [`next_order`]: an
//!   order book, in an ordered arena whose entries are in the order in which they are matched.
//! - [`move_orders`]: the orders of one book moved into another, as one over narrower pointers.
#![tactic(auto)]

mod order_book;
mod order_moves;

pub use order_book::{
    OrderBook, OrderSlot, add_order, best_ask, best_bid, cancel_order, next_order, open_book,
};
pub use order_moves::move_orders;
