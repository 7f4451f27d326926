//! What holds of the definitions that the contracts cite. The functions do nothing: their contracts
//! are the laws.
mod sweep_steps;

pub use route_lines::laws::{
    changes_keep_states_sound, commands_have_one_line, cuts_part_one_stop, cuts_undo_joins,
    equal_states_answer_equally, extensions_add_one_stop, extensions_lead_through,
    finds_answer_the_smallest_ticket, hints_change_no_reply, joins_lead_on, lines_have_one_command,
    lists_are_walked_both_ways, moves_change_no_reply, new_tickets_come_next,
    packs_change_no_reply, refused_calls_change_nothing, removed_marks_leave_all_else,
    removed_places_leave_no_reference, removed_stops_join_their_neighbors,
    removed_tickets_are_gone, replies_have_short_lines, rings_are_walked_once, routes_lead_along,
    spellings_are_found, spellings_are_short_lines, starts_lead_nowhere, states_are_numbered,
    states_are_sound, stops_follow_their_previous_ones, stops_stay_as_routes_change,
    swaps_exchange_next_stops, swaps_undo_swaps, sweeps, the_bound_is_the_greatest,
};
pub use sweep_steps::lines_are_sweep_steps;
