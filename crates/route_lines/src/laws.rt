//! What holds of the definitions that the contracts cite. The functions do nothing: their contracts
//! are the laws.
mod calls;
mod grammar;
mod looks;
mod moves;
mod places;
mod removals;
mod replies;
mod routes;
mod states;

pub use calls::{new_tickets_come_next, refused_calls_change_nothing};
pub use grammar::{
    commands_have_one_line, lines_have_one_command, spellings_are_found, spellings_are_short_lines,
};
pub use looks::sweeps;
pub use moves::moves_change_no_reply;
pub use places::{finds_answer_the_smallest_ticket, hints_change_no_reply};
pub use rank_tree::laws::the_bound_is_the_greatest;
pub use removals::{
    removed_marks_leave_all_else, removed_places_leave_no_reference,
    removed_stops_join_their_neighbors, removed_tickets_are_gone,
};
pub use replies::{packs_change_no_reply, replies_have_short_lines};
pub use routes::{
    cuts_part_one_stop, cuts_undo_joins, extensions_add_one_stop, extensions_lead_through,
    joins_lead_on, lists_are_walked_both_ways, rings_are_walked_once, routes_lead_along,
    starts_lead_nowhere, stops_follow_their_previous_ones, stops_stay_as_routes_change,
    swaps_exchange_next_stops, swaps_undo_swaps,
};
pub use states::{
    changes_keep_states_sound, equal_states_answer_equally, states_are_numbered, states_are_sound,
};
