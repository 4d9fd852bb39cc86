// The expressions in written modes: bounds, lengths and places. They are constants, of which the phase of modes told
// already; what is left are the indices behind UPPER, LOWER and SIZE, and values that are too large.
ghost use Rattle.std.specs.Prelude.{◌≡◌, ◌++◌, OnOk, map, option_map};
ghost use Rattle.chill_tree.specs.ExprTree.{boxed_expr};
ghost use Rattle.chill_tree.specs.ModeTree.{mode_tree, base_tree, discrete_tree, index_tree, field_tree, field_trees, field_nodes, place_tree, spread_tree};
ghost use Rattle.checks_model.specs.Sites.{at_mode};
ghost use Rattle.checks_model.specs.Phases.{some_expr, exprs_of_discrete, exprs_of_index, exprs_of_place, exprs_of_some_place, exprs_of_spread, exprs_of_base, exprs_of_fields, exprs_of_mode, exprs_of_some_mode};
ghost use Rattle.statement_laws.specs.Steps.{told_at_all};
ghost use Rattle.statement_rules.specs.Grounds.{ground_at, IsGrounded};
ghost use Rattle.statement_rules.specs.Steps.{told_in_exprs};

use crate::walk::Statements;
use chill_base::Memory;
use chill_tree::tree::{Base, Discrete, Expr, Field, Index, Mode, Place, Spread};
use definition_origins::Told;

impl<'a, 'b> Statements<'a, 'b> {
    /// What is told of the expressions in some modes.
    #[tactic(auto, using(crate::proofs::Lists::lists))]
    pub fn tell_in_modes(&self, modes: &[Mode], told: &mut Told) -> Result<(), Memory>
        ensures { IsGrounded self.now → OnOk result (told.new ≡ told.old ++ told_at_all (ground_at self.now) (map at_mode (map mode_tree modes.now))) }
    {
        for mode in modes {
            self.tell_in_mode(mode, told)?;
        }
        Ok(())
    }

    /// What is told of the expressions in a mode, where there is one.
    pub fn tell_in_some_mode(&self, mode: &Option<Mode>, told: &mut Told) -> Result<(), Memory>
        ensures { IsGrounded self.now → OnOk result (told.new ≡ told.old ++ told_in_exprs (ground_at self.now) (exprs_of_some_mode (option_map mode_tree mode.now))) }
    {
        match mode {
            None => Ok(()),
            Some(mode) => self.tell_in_mode(mode, told),
        }
    }

    // An expression that goes nowhere, where there is one.
    #[tactic(auto, using(crate::proofs::Lists::lists))]
    fn tell_some_alone(&self, expr: &Option<Box<Expr>>, told: &mut Told) -> Result<(), Memory>
        ensures { IsGrounded self.now → OnOk result (told.new ≡ told.old ++ told_in_exprs (ground_at self.now) (some_expr (option_map boxed_expr expr.now))) }
    {
        match expr {
            None => Ok(()),
            Some(expr) => self.tell_alone(expr, told),
        }
    }

    /// What is told of the expressions in a mode.
    #[tactic(auto, using(crate::proofs::Lists::lists))]
    pub fn tell_in_mode(&self, mode: &Mode, told: &mut Told) -> Result<(), Memory>
        ensures { IsGrounded self.now → OnOk result (told.new ≡ told.old ++ told_in_exprs (ground_at self.now) (exprs_of_mode (mode_tree mode.now))) }
    {
        match mode {
            Mode::Base(base) => self.tell_in_base(base, told),
            Mode::Read { base, .. } => self.tell_in_base(base, told),
            Mode::Event { length, .. } => self.tell_some_alone(length, told),
            Mode::Buffer {
                length,
                element,
                ..
            } => {
                self.tell_some_alone(length, told)?;
                self.tell_in_base(element, told)
            }
        }
    }

    #[tactic(auto, using(crate::proofs::Lists::mode_views))]
    #[cycle(base)]
    fn tell_in_base(&self, base: &Base, told: &mut Told) -> Result<(), Memory>
        ensures { IsGrounded self.now → OnOk result (told.new ≡ told.old ++ told_in_exprs (ground_at self.now) (exprs_of_base (base_tree base.now))) }
    {
        match base {
            Base::Discrete(own) => self.tell_in_discrete(own, told),
            Base::Powerset { member, .. } => self.tell_in_discrete(member, told),
            Base::Chars { length, .. } => self.tell_alone(length, told),
            Base::Struct { fields, .. } => self.tell_in_fields(fields.as_slice(), told),
            Base::Array {
                index,
                element,
                spread,
                ..
            } => {
                self.tell_in_index(index, told)?;
                self.tell_in_base(element, told)?;
                self.tell_in_spread(spread, told)
            }
        }
    }

    #[tactic(auto, using(crate::proofs::Lists::mode_views))]
    #[cycle(base)]
    fn tell_in_field(&self, field: &Field, told: &mut Told) -> Result<(), Memory>
        ensures { IsGrounded self.now → OnOk result (told.new ≡ told.old ++ (told_in_exprs (ground_at self.now) (exprs_of_base (field_tree field.now).base) ++ told_in_exprs (ground_at self.now) (exprs_of_some_place (field_tree field.now).place))) }
    {
        self.tell_in_base(&field.base, told)?;
        self.tell_in_some_place(&field.place, told)
    }

    #[tactic(auto, using(crate::proofs::Lists::lists))]
    #[cycle(base)]
    fn tell_in_fields(&self, fields: &[Field], told: &mut Told) -> Result<(), Memory>
        ensures { IsGrounded self.now → OnOk result (told.new ≡ told.old ++ told_in_exprs (ground_at self.now) (exprs_of_fields (field_nodes (field_trees fields.now)))) }
    {
        for field in fields {
            self.tell_in_field(field, told)?;
        }
        Ok(())
    }

    // Two bounds.
    #[tactic(auto, using(crate::proofs::Lists::lists))]
    fn tell_in_discrete(&self, own: &Discrete, told: &mut Told) -> Result<(), Memory>
        ensures { IsGrounded self.now → OnOk result (told.new ≡ told.old ++ told_in_exprs (ground_at self.now) (exprs_of_discrete (discrete_tree own.now))) }
    {
        match own {
            Discrete::Named(_) | Discrete::Set { .. } => Ok(()),
            Discrete::Range { low, high, .. } => {
                self.tell_alone(low, told)?;
                self.tell_alone(high, told)
            }
        }
    }

    #[tactic(auto, using(crate::proofs::Lists::lists))]
    fn tell_in_index(&self, index: &Index, told: &mut Told) -> Result<(), Memory>
        ensures { IsGrounded self.now → OnOk result (told.new ≡ told.old ++ told_in_exprs (ground_at self.now) (exprs_of_index (index_tree index.now))) }
    {
        match index {
            Index::Named(_) => Ok(()),
            Index::Range { low, high } => {
                self.tell_alone(low, told)?;
                self.tell_alone(high, told)
            }
        }
    }

    #[tactic(auto, using(crate::proofs::Lists::lists))]
    fn tell_in_spread(&self, spread: &Option<Spread>, told: &mut Told) -> Result<(), Memory>
        ensures { IsGrounded self.now → OnOk result (told.new ≡ told.old ++ told_in_exprs (ground_at self.now) (exprs_of_spread (option_map spread_tree spread.now))) }
    {
        match spread {
            None | Some(Spread::Packing(_)) => Ok(()),
            Some(Spread::Step(step)) => {
                self.tell_in_place(&step.place, told)?;
                self.tell_alone(&step.distance, told)
            }
        }
    }

    fn tell_in_some_place(&self, place: &Option<Place>, told: &mut Told) -> Result<(), Memory>
        ensures { IsGrounded self.now → OnOk result (told.new ≡ told.old ++ told_in_exprs (ground_at self.now) (exprs_of_some_place (option_map place_tree place.now))) }
    {
        match place {
            None => Ok(()),
            Some(place) => self.tell_in_place(place, told),
        }
    }

    #[tactic(auto, using(crate::proofs::Lists::lists))]
    fn tell_in_place(&self, place: &Place, told: &mut Told) -> Result<(), Memory>
        ensures { IsGrounded self.now → OnOk result (told.new ≡ told.old ++ told_in_exprs (ground_at self.now) (exprs_of_place (place_tree place.now))) }
    {
        self.tell_alone(&place.word, told)?;
        self.tell_alone(&place.start, told)?;
        self.tell_alone(&place.bound, told)
    }
}
