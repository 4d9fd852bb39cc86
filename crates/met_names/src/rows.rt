// Numbers that stand with places.
ghost use Rattle.std.specs.Prelude.{◌≡◌, true, IfSome};
ghost use Rattle.std.specs.List.{Contains};
ghost use Rattle.names_laws.specs.Rising.{Precedes, Rise, use_places};
ghost use Rattle.checks_model.specs.Ground.{number_at};

use chill_base::Pos;
use names_model::Resolved;
use std::marker::Model;

/// Places with their numbers; where it is known that the places rise, one is found by halving.
#[derive(Drop)]
pub struct Rows<'a> {
    rows: &'a [Resolved],
    rise: bool,
}

impl<'a> Model for Rows<'a> {
    ghost use Rattle.std.specs.Prelude.{◌≡◌, true, List};
    ghost use Rattle.names_laws.specs.Rising.{Rise, use_places};
    ghost use Rattle.names_model.specs.declared.names.Resolved.{Resolved as Row};

    ghost Value = { List Row };

    ghost view = { λ r. r.rows.now };

    ghost invariant = { λ r. r.rise ≡ true → Rise (use_places r.rows.now) };
}

// Whether a place stands before another.
fn precedes(first: Pos, second: Pos) -> bool
    ensures { result ≡ true → Precedes first second }
{
    first.line < second.line || (first.line == second.line && first.column < second.column)
}

// Whether places rise, behind the place that no token has.
fn rises(rows: &[Resolved]) -> bool
    ensures { result ≡ true → Rise (use_places rows.now) }
{
    let mut last = Pos { line: 0, column: 0 };
    for row in rows {
        if !precedes(last, row.at) {
            return false;
        }
        last = row.at;
    }
    true
}

// The number at a place, where it is found by halving, as it is if the places rise.
#[tactic(auto, using(crate::proofs::Rising::there_at))]
fn halved(rows: &[Resolved], at: Pos) -> Option<u32>
    ensures { IfSome result (λ number. Contains rows.now (record { at = at; to = number })) }
{
    let mut low = 0;
    let mut high = rows.len();
    while low < high {
        let middle = low + (high - low) / 2;
        let row = rows[middle];
        if row.at.line == at.line && row.at.column == at.column {
            return Some(row.to);
        }
        if precedes(row.at, at) {
            low = middle + 1;
        } else {
            high = middle;
        }
    }
    None
}

// The first number at a place.
fn searched(rows: &[Resolved], at: Pos) -> Option<u32>
    ensures { result ≡ number_at rows.now at }
{
    for row in rows {
        if row.at.line == at.line && row.at.column == at.column {
            return Some(row.to);
        }
    }
    None
}

impl<'a> Rows<'a> {
    /// These rows.
    pub fn of(rows: &'a [Resolved]) -> Rows<'a>
        ensures { result ≡ rows.now }
    {
        let rise = rises(rows);
        Rows { rows, rise }
    }

    /// The first number at a place. All used and all defined names of a program are found by halving.
    #[tactic(auto, using(crate::proofs::Rising::found_first))]
    pub fn number_at(&self, at: Pos) -> Option<u32>
        ensures { result ≡ number_at self.now at }
    {
        if self.rise {
            if let Some(number) = halved(self.rows, at) {
                return Some(number);
            }
        }
        searched(self.rows, at)
    }
}
