//! What holds of lines and commands.
ghost use Rattle.route_lines.specs.declared.command.Command.{Command};
ghost use Rattle.route_lines.specs.Grammar.{Spells, command_of};
ghost use Rattle.std.specs.Prelude.{◌≡◌, ◌≤◌, ◌<◌, ℕ, List, Some, Contains, length};

/// Each command has one line at most that spells it.
pub fn commands_have_one_line()
    ensures { (first second : List ℕ) (command : Command)
        → Spells first command → Spells second command → first ≡ second }
{}

/// Each line spells one command at most.
pub fn lines_have_one_command()
    ensures { (line : List ℕ) (first second : Command)
        → Spells line first → Spells line second → first ≡ second }
{}

/// A line that spells a command has 1 to 69 bytes, and no LF among them.
pub fn spellings_are_short_lines()
    ensures some { (line : List ℕ) (command : Command) → Spells line command → 0 < length line }
    ensures short { (line : List ℕ) (command : Command) → Spells line command → length line ≤ 69 }
    ensures one_line { (line : List ℕ) (command : Command) → Spells line command
        → ¬ Contains line 10 }
{}

/// `command_of` answers just the command that a line spells.
pub fn spellings_are_found()
    ensures found { (line : List ℕ) (command : Command) → command_of line ≡ Some command
        → Spells line command }
    ensures all { (line : List ℕ) (command : Command) → Spells line command
        → command_of line ≡ Some command }
{}
