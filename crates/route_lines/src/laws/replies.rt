//! What holds of replies.
ghost use Rattle.std.specs.Prelude.{◌≡◌, ◌≤◌, List, Option, [], true, codes, filter, flat_map};
ghost use Rattle.std.specs.Prelude.{length, not};
ghost use Rattle.std.specs.List.{AllByRecursion};
ghost use Rattle.route_lines.specs.declared.command.Command.{Command};
ghost use Rattle.route_lines.specs.Reply.{ended, reply};
ghost use Rattle.route_lines.specs.Sound.{IsNumbered, IsSound};
ghost use Rattle.route_lines.specs.State.{State};
ghost use Rattle.route_lines.specs.Text.{Line, after_lines, answered, is_pack, replies, rest_of};
ghost use Rattle.route_lines.specs.Text.{whole_lines};

/// Every line of a reply ends with an LF and has at most 58 bytes before it. The longest is a
/// ticket, a key and a word.
pub fn replies_have_short_lines()
    ensures short { (s : State) (command : Option Command) → IsSound s → IsNumbered s
        → AllByRecursion (λ line. length line ≤ 58) (whole_lines (reply s command)) }
    ensures ended { (s : State) (command : Option Command) → IsSound s → IsNumbered s
        → rest_of (reply s command) ≡ [] }
{}

/// The text that answers lines is their replies, one after another. A `pack` line is answered `ok`.
/// Without those lines each other line has the same reply, and the state at the end is the same.
pub fn packs_change_no_reply()
    ensures text { (s : State) (lines : List Line)
        → replies s lines ≡ flat_map (λ a. a.1) (answered s lines) }
    ensures packs { (s : State) (lines : List Line)
        → AllByRecursion (λ a. is_pack a.0 ≡ true → a.1 ≡ ended (codes "ok")) (answered s lines) }
    ensures others { (s : State) (lines : List Line)
        → answered s (filter (λ line. not (is_pack line)) lines)
        ≡ filter (λ a. not (is_pack a.0)) (answered s lines) }
    ensures state { (s : State) (lines : List Line)
        → after_lines s (filter (λ line. not (is_pack line)) lines) ≡ after_lines s lines }
{}
