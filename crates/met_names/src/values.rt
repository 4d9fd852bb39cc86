// What is told of the names from which expressions and modes receive: rule P3 of each.
ghost use Rattle.std.specs.Prelude.{◌≡◌, ◌++◌, OnOk, option_map, map};
ghost use Rattle.chill_tree.specs.ExprTree.{expr_tree, boxed_expr, expr_trees, range_tree, range_trees};
ghost use Rattle.chill_tree.specs.ModeTree.{discrete_tree, index_tree, place_tree, spread_tree, base_tree, field_tree, field_trees, field_nodes, mode_tree};
ghost use Rattle.met_names.specs.Facts.{told_source};
ghost use Rattle.met_names.specs.Sources.{over_expr, over_all, over_range, over_labels, over_some, over_some_all, over_discrete, over_index, over_place, over_some_place, over_spread, over_base, over_fields, over_mode, over_some_mode};

use crate::meetings::Meetings;
use crate::purpose::Purpose;
use chill_base::{List, Memory};
use chill_tree::tree::{Base, Discrete, Expr, Field, Index, Mode, Place, Spread, ValueRange};
use definition_origins::Told;

impl<'a> Meetings<'a> {
    /// What is told in an expression.
    #[tactic(auto, using(crate::proofs::Views::expr_views))]
    #[cycle(expr)]
    pub fn tell_in(&self, expr: &Expr, told: &mut Told) -> Result<(), Memory>
        ensures { OnOk result (told.new ≡ told.old ++ over_expr (told_source self.now) (expr_tree expr.now)) }
    {
        match expr {
            Expr::Whole { .. }
            | Expr::Char { .. }
            | Expr::Text { .. }
            | Expr::This { .. }
            | Expr::Name(_) => Ok(()),
            Expr::Receive { buffer, .. } => self.tell_misfit(Purpose::Messages, buffer, told),
            Expr::Start { args, .. } => self.tell_in_all(args.as_slice(), told),
            Expr::Tuple { parts, .. } => self.tell_in_ranges(parts.as_slice(), told),
            Expr::Apply { of, args, .. } => {
                self.tell_in(of, told)?;
                self.tell_in_all(args.as_slice(), told)
            }
            Expr::Paren { inner, .. } => self.tell_in(inner, told),
            Expr::Uniform { value, .. } => self.tell_in(value, told),
            Expr::Field { of, .. } => self.tell_in(of, told),
            Expr::Prefixed { operand, .. } => self.tell_in(operand, told),
            Expr::Binary { left, right, .. } => {
                self.tell_in(left, told)?;
                self.tell_in(right, told)
            }
        }
    }

    /// What is told in expressions.
    #[cycle(expr)]
    pub fn tell_in_all(&self, exprs: &[Expr], told: &mut Told) -> Result<(), Memory>
        ensures { OnOk result (told.new ≡ told.old ++ over_all (told_source self.now) (expr_trees exprs.now)) }
    {
        for expr in exprs {
            self.tell_in(expr, told)?;
        }
        Ok(())
    }

    /// What is told in the values and ranges of a tuple or a list of labels.
    #[cycle(expr)]
    pub fn tell_in_ranges(&self, ranges: &[ValueRange], told: &mut Told) -> Result<(), Memory>
        ensures { OnOk result (told.new ≡ told.old ++ over_labels (told_source self.now) (range_trees ranges.now)) }
    {
        for range in ranges {
            self.tell_in_range(range, told)?;
        }
        Ok(())
    }

    #[cycle(expr)]
    #[tactic(auto, using(crate::proofs::Views::expr_views))]
    fn tell_in_range(&self, range: &ValueRange, told: &mut Told) -> Result<(), Memory>
        ensures { OnOk result (told.new ≡ told.old ++ over_range (told_source self.now) (range_tree range.now)) }
    {
        self.tell_in(&range.first, told)?;
        if let Some(last) = &range.last {
            self.tell_in(last, told)?;
        }
        Ok(())
    }

    /// What is told in an expression that may be missing.
    pub fn tell_in_some(&self, expr: &Option<Box<Expr>>, told: &mut Told) -> Result<(), Memory>
        ensures { OnOk result (told.new ≡ told.old ++ over_some (told_source self.now) (option_map boxed_expr expr.now)) }
    {
        match expr {
            None => Ok(()),
            Some(expr) => self.tell_in(expr, told),
        }
    }

    /// What is told in arguments that may be missing.
    pub fn tell_in_some_all(&self, args: &Option<List<Expr>>, told: &mut Told) -> Result<(), Memory>
        ensures { OnOk result (told.new ≡ told.old ++ over_some_all (told_source self.now) (option_map expr_trees args.now)) }
    {
        match args {
            None => Ok(()),
            Some(args) => self.tell_in_all(args.as_slice(), told),
        }
    }

    // What is told in the bounds of a discrete mode.
    fn tell_in_discrete(&self, own: &Discrete, told: &mut Told) -> Result<(), Memory>
        ensures { OnOk result (told.new ≡ told.old ++ over_discrete (told_source self.now) (discrete_tree own.now)) }
    {
        match own {
            Discrete::Named(_) | Discrete::Set { .. } => Ok(()),
            Discrete::Range { low, high, .. } => {
                self.tell_in(low, told)?;
                self.tell_in(high, told)
            }
        }
    }

    fn tell_in_index(&self, own: &Index, told: &mut Told) -> Result<(), Memory>
        ensures { OnOk result (told.new ≡ told.old ++ over_index (told_source self.now) (index_tree own.now)) }
    {
        match own {
            Index::Named(_) => Ok(()),
            Index::Range { low, high } => {
                self.tell_in(low, told)?;
                self.tell_in(high, told)
            }
        }
    }

    fn tell_in_place(&self, place: &Place, told: &mut Told) -> Result<(), Memory>
        ensures { OnOk result (told.new ≡ told.old ++ over_place (told_source self.now) (place_tree place.now)) }
    {
        self.tell_in(&place.word, told)?;
        self.tell_in(&place.start, told)?;
        self.tell_in(&place.bound, told)
    }

    fn tell_in_some_place(&self, place: &Option<Place>, told: &mut Told) -> Result<(), Memory>
        ensures { OnOk result (told.new ≡ told.old ++ over_some_place (told_source self.now) (option_map place_tree place.now)) }
    {
        match place {
            None => Ok(()),
            Some(place) => self.tell_in_place(place, told),
        }
    }

    fn tell_in_spread(&self, spread: &Option<Spread>, told: &mut Told) -> Result<(), Memory>
        ensures { OnOk result (told.new ≡ told.old ++ over_spread (told_source self.now) (option_map spread_tree spread.now)) }
    {
        match spread {
            None | Some(Spread::Packing(_)) => Ok(()),
            Some(Spread::Step(step)) => {
                self.tell_in_place(&step.place, told)?;
                self.tell_in(&step.distance, told)
            }
        }
    }

    #[tactic(auto, using(crate::proofs::Views::mode_views))]
    #[cycle(base)]
    fn tell_in_base(&self, base: &Base, told: &mut Told) -> Result<(), Memory>
        ensures { OnOk result (told.new ≡ told.old ++ over_base (told_source self.now) (base_tree base.now)) }
    {
        match base {
            Base::Discrete(own) => self.tell_in_discrete(own, told),
            Base::Powerset { member, .. } => self.tell_in_discrete(member, told),
            Base::Chars { length, .. } => self.tell_in(length, told),
            Base::Struct { fields, .. } => self.tell_in_fields(fields.as_slice(), told),
            Base::Array {
                index,
                element,
                spread,
                ..
            } => {
                self.tell_in_index(index, told)?;
                self.tell_in_base(element, told)?;
                self.tell_in_spread(spread, told)
            }
        }
    }

    #[cycle(base)]
    fn tell_in_fields(&self, fields: &[Field], told: &mut Told) -> Result<(), Memory>
        ensures { OnOk result (told.new ≡ told.old ++ over_fields (told_source self.now) (field_nodes (field_trees fields.now))) }
    {
        for field in fields {
            self.tell_in_field(field, told)?;
        }
        Ok(())
    }

    #[tactic(auto, using(crate::proofs::Views::mode_views))]
    #[cycle(base)]
    fn tell_in_field(&self, field: &Field, told: &mut Told) -> Result<(), Memory>
        ensures { OnOk result (told.new ≡ told.old ++ (over_base (told_source self.now) (field_tree field.now).base ++ over_some_place (told_source self.now) (field_tree field.now).place)) }
    {
        self.tell_in_base(&field.base, told)?;
        self.tell_in_some_place(&field.place, told)
    }

    /// What is told in the expressions of a mode.
    pub fn tell_in_mode(&self, mode: &Mode, told: &mut Told) -> Result<(), Memory>
        ensures { OnOk result (told.new ≡ told.old ++ over_mode (told_source self.now) (mode_tree mode.now)) }
    {
        match mode {
            Mode::Base(base) => self.tell_in_base(base, told),
            Mode::Read { base, .. } => self.tell_in_base(base, told),
            Mode::Event { length, .. } => self.tell_in_some(length, told),
            Mode::Buffer {
                length,
                element,
                ..
            } => {
                self.tell_in_some(length, told)?;
                self.tell_in_base(element, told)
            }
        }
    }

    pub fn tell_in_some_mode(&self, mode: &Option<Mode>, told: &mut Told) -> Result<(), Memory>
        ensures { OnOk result (told.new ≡ told.old ++ over_some_mode (told_source self.now) (option_map mode_tree mode.now)) }
    {
        match mode {
            None => Ok(()),
            Some(mode) => self.tell_in_mode(mode, told),
        }
    }
}
