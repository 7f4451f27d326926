//! What holds of a store that goes on in other rooms.
ghost use Rattle.std.specs.Prelude.{◌≡◌, ◌++◌, List};
ghost use Rattle.route_lines.specs.State.{Rooms, State, in_rooms};
ghost use Rattle.route_lines.specs.Text.{Line, NoneFull, after_lines, replies};

/// Lines, a move to other rooms, and further lines: they are answered as all of them are with no
/// move, if the further ones are answered `full` in neither room. The state at the end is the same
/// but for its rooms.
pub fn moves_change_no_reply()
    ensures text { (s : State) (rooms : Rooms) (before behind : List Line)
        → NoneFull (after_lines s before) behind
        → NoneFull (in_rooms rooms (after_lines s before)) behind
        → replies s (before ++ behind)
        ≡ replies s before ++ replies (in_rooms rooms (after_lines s before)) behind }
    ensures state { (s : State) (rooms : Rooms) (before behind : List Line)
        → NoneFull (after_lines s before) behind
        → NoneFull (in_rooms rooms (after_lines s before)) behind
        → after_lines (in_rooms rooms (after_lines s before)) behind
        ≡ in_rooms rooms (after_lines s (before ++ behind)) }
{}
