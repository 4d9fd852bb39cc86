// Predefined routines in constants (Z.200, chapter on values).
ghost use Rattle.std.specs.Prelude.{◌≡◌, Option, IfOk, IsTrue, option_map};
ghost use Rattle.chill_tree.specs.ExprTree.{expr_tree};
ghost use Rattle.modes.specs.ModeTree.{ClassTree};
ghost use Rattle.class_operators.specs.Predefined.{predefined_tree};
ghost use Rattle.checks_model.specs.Ground.{origin_of};
ghost use Rattle.checks_model.specs.ValueTrees.{ValueTree};
ghost use Rattle.checks_model.specs.Constants as constants;
ghost use Rattle.constant_operators.specs.Grounds.{ground_of, predefined_named, predefined_of, HasGround};
ghost use Rattle.constant_operators.specs.Known.{IsKnown, IsComputed, routine_misfits, routine_raises, routine_class, routine_value};

use crate::evaluation::Evaluation;
use crate::known::Known;
use crate::operators::{Computed, with_value};
use chill_base::Memory;
use chill_tree::tree::{Expr, Name};
use class_operators::class_of_routine;
use constant_values::{some_single, value_of_routine};
use definition_origins::{Origin, Predefined};

impl<'a> Evaluation<'a> {
    /// What comes of a routine of one value, which is a constant.
    pub fn computed_routine(&self, own: Predefined, arg: &Known) -> Result<Computed, Memory>
        ensures { (c : Option ClassTree) (v : Option ValueTree) → IsKnown c v arg.now → IsTrue (constants.is_value_routine (predefined_tree own)) →
            IfOk result (IsComputed (routine_misfits (predefined_tree own) c) (routine_raises (predefined_tree own) c v) (routine_class (predefined_tree own) c) (routine_value (predefined_tree own) c v)) }
    {
        let Some(of) = &arg.class else {
            return Ok(Computed::Known(Known::unknown_constant()));
        };
        let Some(class) = class_of_routine(self.alloc, own, of)? else {
            return Ok(Computed::Misfit);
        };
        let Some(value) = &arg.value else {
            return Ok(Computed::Known(Known::constant_of_class(class)));
        };
        let value = some_single(self.alloc, value_of_routine(own, of, value))?;
        Ok(with_value(class, value))
    }

    /// The predefined name that is called, where it is one.
    #[tactic(auto, using(chill_tree::proofs::ExprViews::expr_built))]
    pub fn routine_called(&self, of: &Expr) -> Option<Predefined>
        ensures { HasGround self.now → option_map predefined_tree result ≡ predefined_named (ground_of self.now) (expr_tree of.now) }
    {
        match of {
            Expr::Name(name) => self.predefined_used(name),
            Expr::Apply { .. }
            | Expr::Field { .. }
            | Expr::Whole { .. }
            | Expr::Char { .. }
            | Expr::Text { .. }
            | Expr::This { .. }
            | Expr::Paren { .. }
            | Expr::Receive { .. }
            | Expr::Start { .. }
            | Expr::Tuple { .. }
            | Expr::Uniform { .. }
            | Expr::Prefixed { .. }
            | Expr::Binary { .. } => None,
        }
    }

    // The predefined name that a name is.
    fn predefined_used(&self, name: &Name) -> Option<Predefined>
        ensures { HasGround self.now → option_map predefined_tree result ≡ predefined_of (origin_of (ground_of self.now) name.now) }
    {
        match self.origin_used(name.at) {
            Some(Origin::Predefined(own)) => Some(own),
            Some(Origin::Synonym { .. })
            | Some(Origin::SynMode(_))
            | Some(Origin::NewMode(_))
            | Some(Origin::Element(_))
            | Some(Origin::Location { .. })
            | Some(Origin::Parameter { .. })
            | Some(Origin::Counter(_))
            | Some(Origin::Received { .. })
            | Some(Origin::Procedure(_))
            | Some(Origin::Process(_))
            | Some(Origin::Signal(_))
            | Some(Origin::Modulion(_))
            | None => None,
        }
    }
}
