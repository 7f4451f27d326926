//! The fields of a line.
ghost use Rattle.route_lines.specs.Grammar.{fields_of};
ghost use Rattle.std.specs.Prelude.{◌≡◌, ◌∷◌, [], MatchOption};

use std::marker::Model;

/// The fields of a line that are left, from the left: the parts between single spaces.
#[derive(Drop)]
pub(super) struct Fields<'a> {
    rest: Option<&'a [u8]>,
}

impl<'a> Model for Fields<'a> {
    ghost use Rattle.std.specs.Prelude.{List, ℕ};

    ghost Value = { List (List ℕ) };

    ghost use Rattle.std.specs.Prelude.{[]};
    ghost use Rattle.std.specs.Option.{option_map_or};
    ghost use Rattle.route_lines.specs.Grammar.{fields_of};

    ghost view = { λ f. option_map_or (λ rest. fields_of rest.now) f.rest [] };
}

impl<'a> Fields<'a> {
    pub(super) fn of(line: &'a [u8]) -> Self
        ensures { result ≡ fields_of line.now }
    {
        Fields { rest: Some(line) }
    }

    pub(super) fn next(&mut self) -> Option<&'a [u8]>
        ensures { MatchOption result ((self.old ≡ []) × (self.new ≡ []))
            (λ field. self.old ≡ field.now ∷ self.new) }
    {
        let rest = self.rest?;
        match rest.iter().position(|&byte| byte == b' ') {
            Some(end) => {
                self.rest = Some(&rest[end + 1..]);
                Some(&rest[..end])
            }
            None => {
                self.rest = None;
                Some(rest)
            }
        }
    }
}
