// Locations: what they are of, their modes, and whether they can be written (Z.200, chapter on locations).
ghost use Rattle.std.specs.Prelude.{◌≡◌, ◌++◌, Some, None, IfOk, OnOk, option_map, option_and_then};
ghost use Rattle.chill_tree.specs.ExprTree.{expr_tree, expr_trees, expr_nodes, name as name_tree};
ghost use Rattle.modes.specs.ModeTree.{value, nothing};
ghost use Rattle.modes.specs.Form.{form_of};
ghost use Rattle.checks_model.specs.Operations.{element_of_form, field_of_form};
ghost use Rattle.checks_model.specs.Classes.{callee_of};
ghost use Rattle.checks_model.specs.ValueRules as model;
ghost use Rattle.checks_model.specs.ActionRules.{path_class, told_in_indices, told_target, target_mode, measures, cannot_be_written};
ghost use Rattle.expr_rules.specs.Grounds.{ground_in, HasItsGround};
ghost use Rattle.expr_rules.specs.Known.{IsOwn};
ghost use Rattle.expr_rules.specs.Views.{own_class, own_mode, receiver_tree, located_tree, access_tree};

use crate::classed::Classed;
use crate::classes::Callee;
use crate::receiving::Receiver;
use crate::surroundings::Walk;
use crate::telling::tell_if;
use chill_base::Memory;
use chill_tree::tree::{Expr, Name};
use class_operators::{field_in, is_measuring};
use constant_operators::shared;
use definition_origins::{CheckRule, Origin, Told};
use modes::{Class, Mode, holds_read, is_read};
use std::rc::Rc;

/// What may be done with what stands where a location is needed.
#[derive(Clone, Copy, PartialEq, Eq)]
pub enum Access {
    /// It is a location or parameter, or a part of one, and can be written.
    Free,
    /// It is one, and is only read: its own mode, that of what it is a part of, or that of a part of it is READ.
    ReadOnly,
    /// It is a counter, a received name, no location, or a part that doesn't fit.
    NoLocation,
}

/// What stands where a location is needed.
pub struct Located {
    /// The number of the definition that it begins with.
    pub definition: Option<u32>,
    /// Its mode, also that of a counter or received name with its parts; none of anything else, and where something in it
    /// is broken.
    pub mode: Option<Rc<Mode>>,
    pub access: Access,
}

// Dropped by hand, so that whoever drops one makes one call.
impl Drop for Located {
    fn drop(self) {
        let Located {
            definition: _,
            mode,
            access: _,
        } = self;
        drop(mode);
    }
}

impl Located {
    /// What receives a value for it.
    pub fn receiver(&self) -> Receiver<'_>
        ensures { receiver_tree result ≡ model.of_mode (own_mode self.now.mode) }
    {
        Receiver::Mode(self.mode.as_ref())
    }

    /// Its class: the value of its mode, for an operator with it.
    pub fn class(&self) -> Result<Option<Class>, Memory>
        ensures { IfOk result (λ c. own_class c ≡ option_map value (own_mode self.now.mode)) }
    {
        match &self.mode {
            None => Ok(None),
            Some(mode) => Ok(Some(Class::Value(mode.clone()?))),
        }
    }

    // The same, where something in it is broken.
    fn without_mode(self) -> Located
        ensures { located_tree result ≡ model.located (access_tree self.access) None }
    {
        Located {
            definition: self.definition,
            mode: None,
            access: self.access,
        }
    }

    // The part of this mode, none where it doesn't fit. What is part of something READ is only read.
    fn part(self, mode: Option<Rc<Mode>>) -> Located
        ensures { located_tree result ≡ model.place_part_of (access_tree self.access) (own_mode mode) }
    {
        let access = match (&mode, self.access) {
            (None, _) | (_, Access::NoLocation) => Access::NoLocation,
            (Some(part), Access::Free) if !is_read(part) => Access::Free,
            _ => Access::ReadOnly,
        };
        Located {
            definition: self.definition,
            mode,
            access,
        }
    }
}

impl<'a, 'b> Walk<'a, 'b> {
    /// What stands where a value is to be put; tells what its indices break, and rule S3.
    #[tactic(auto, using(crate::proofs::Gates::gates))]
    pub fn target(&self, expr: &Expr, told: &mut Told) -> Result<Located, Memory>
        ensures told { HasItsGround self.now → OnOk result (told.new ≡ told.old ++ told_target (ground_in self.now) (expr_tree expr.now)) }
        ensures mode { HasItsGround self.now → IfOk result (λ l. own_mode l.mode ≡ target_mode (ground_in self.now) (expr_tree expr.now)) }
    {
        let indices = self.indices(expr, told)?;
        let located = self.place(expr)?;
        if !indices.is_clean {
            return Ok(located.without_mode());
        }
        let _ = tell_if(cannot_be_written(&located), CheckRule::S3, expr.at(), told)?;
        Ok(located)
    }

    /// Tells what the indices of a location break.
    pub fn tell_in_location(&self, expr: &Expr, told: &mut Told) -> Result<(), Memory>
        ensures { HasItsGround self.now → OnOk result (told.new ≡ told.old ++ told_in_indices (ground_in self.now) (expr_tree expr.now)) }
    {
        let _ = self.indices(expr, told)?;
        Ok(())
    }

    // Whether an expression is a routine that measures what stands in the brackets behind it: that is no value here either.
    fn is_measuring(&self, of: &Expr) -> bool
        ensures { HasItsGround self.now → result ≡ measures (callee_of (ground_in self.now) (expr_tree of.now)) }
    {
        match self.callee(of) {
            Callee::Routine(own) => is_measuring(own),
            Callee::Procedure(_) | Callee::Nothing => false,
        }
    }

    // What the indices of a location break, and its class. Brackets behind a name call nothing here.
    #[tactic(auto, using(crate::proofs::Gates::gates, crate::proofs::Gates::mapped, crate::proofs::Indices::indices, chill_tree::proofs::ExprViews::expr_built))]
    #[cycle(location)]
    fn indices(&self, expr: &Expr, told: &mut Told) -> Result<Classed, Memory>
        ensures told { HasItsGround self.now → OnOk result (told.new ≡ told.old ++ told_in_indices (ground_in self.now) (expr_tree expr.now)) }
        ensures known { HasItsGround self.now → IfOk result (IsOwn (told_in_indices (ground_in self.now) (expr_tree expr.now)) (path_class (ground_in self.now) (expr_tree expr.now))) }
    {
        match expr {
            Expr::Name(name) => Ok(Classed::clean(self.class_of_name(name)?)),
            Expr::Apply { of, args, .. } => {
                if self.is_measuring(of) {
                    return self.tell_in_measured(args.as_slice(), told);
                }
                let base = self.indices(of, told)?;
                self.indexed(args.as_slice(), of.at(), &base, told)
            }
            Expr::Field { of, field, .. } => {
                let base = self.indices(of, told)?;
                self.field(&base, field)
            }
            Expr::Whole { .. }
            | Expr::Char { .. }
            | Expr::Text { .. }
            | Expr::This { .. }
            | Expr::Paren { .. }
            | Expr::Receive { .. }
            | Expr::Start { .. }
            | Expr::Tuple { .. }
            | Expr::Uniform { .. }
            | Expr::Prefixed { .. }
            | Expr::Binary { .. } => Ok(Classed::clean(None)),
        }
    }

    // What is told in what UPPER, LOWER or SIZE measures where a location is needed: it is none.
    #[tactic(auto, using(crate::proofs::Gates::gates))]
    fn tell_in_measured(&self, args: &[Expr], told: &mut Told) -> Result<Classed, Memory>
        ensures told { HasItsGround self.now → OnOk result (told.new ≡ told.old ++ model.told_inside_each (ground_in self.now) (expr_nodes (expr_trees args.now))) }
        ensures known { HasItsGround self.now → IfOk result (IsOwn (model.told_inside_each (ground_in self.now) (expr_nodes (expr_trees args.now))) (Some nothing)) }
    {
        if !self.tell_inside(args, told)? {
            return Ok(Classed::broken());
        }
        Ok(Classed::clean(Some(Class::Nothing)))
    }

    /// What an expression is as a location. It tells nothing.
    pub fn place(&self, expr: &Expr) -> Result<Located, Memory>
        ensures { HasItsGround self.now → IfOk result (λ l. located_tree l ≡ model.place (ground_in self.now) (expr_tree expr.now)) }
    {
        let mut located = self.path(expr)?;
        located.access = whole_access(located.access, &located.mode);
        Ok(located)
    }

    // The same, where the modes of its own parts aren't asked.
    #[tactic(auto, using(chill_tree::proofs::ExprViews::expr_built))]
    fn path(&self, expr: &Expr) -> Result<Located, Memory>
        ensures { HasItsGround self.now → IfOk result (λ l. located_tree l ≡ model.path_of (ground_in self.now) (expr_tree expr.now)) }
    {
        match expr {
            Expr::Name(name) => self.place_of_name(name),
            Expr::Apply { of, .. } => {
                let base = self.path(of)?;
                let mode = self.element_of_some(&base.mode)?;
                Ok(base.part(mode))
            }
            Expr::Field { of, field, .. } => {
                let base = self.path(of)?;
                let mode = field_of_some(&base.mode, field.text.as_slice())?;
                Ok(base.part(mode))
            }
            Expr::Whole { .. }
            | Expr::Char { .. }
            | Expr::Text { .. }
            | Expr::This { .. }
            | Expr::Paren { .. }
            | Expr::Receive { .. }
            | Expr::Start { .. }
            | Expr::Tuple { .. }
            | Expr::Uniform { .. }
            | Expr::Prefixed { .. }
            | Expr::Binary { .. } => Ok(no_location(None)),
        }
    }

    // The mode of an element of what is of a mode, where it has one.
    fn element_of_some(&self, of: &Option<Rc<Mode>>) -> Result<Option<Rc<Mode>>, Memory>
        ensures { HasItsGround self.now → IfOk result (λ m. own_mode m ≡ option_and_then (λ m. element_of_form (form_of m)) (own_mode of.now)) }
    {
        match of {
            None => Ok(None),
            Some(own) => shared(self.evaluation.element_in(own)),
        }
    }

    // What a name is as a location.
    #[tactic(auto, using(constant_operators::proofs::Grounds::looked_up))]
    fn place_of_name(&self, name: &Name) -> Result<Located, Memory>
        ensures { HasItsGround self.now → IfOk result (λ l. located_tree l ≡ model.path_of (ground_in self.now) (name_tree name.now)) }
    {
        let Some(number) = self.evaluation.used_at(name.at) else {
            return Ok(no_location(None));
        };
        let Some(mode) = self.mode_of(number) else {
            return Ok(no_location(Some(number)));
        };
        let access = match self.evaluation.origin(number) {
            Some(Origin::Location { .. }) | Some(Origin::Parameter { .. }) => {
                if is_read(mode) {
                    Access::ReadOnly
                } else {
                    Access::Free
                }
            }
            Some(Origin::Synonym { .. })
            | Some(Origin::SynMode(_))
            | Some(Origin::NewMode(_))
            | Some(Origin::Element(_))
            | Some(Origin::Counter(_))
            | Some(Origin::Received { .. })
            | Some(Origin::Procedure(_))
            | Some(Origin::Process(_))
            | Some(Origin::Signal(_))
            | Some(Origin::Modulion(_))
            | Some(Origin::Predefined(_))
            | None => Access::NoLocation,
        };
        Ok(Located {
            definition: Some(number),
            mode: Some(mode.clone()?),
            access,
        })
    }
}

// The mode of a field of what is of a mode, where it has one of that name.
fn field_of_some(of: &Option<Rc<Mode>>, name: &[u8]) -> Result<Option<Rc<Mode>>, Memory>
    ensures { IfOk result (λ m. own_mode m ≡ option_and_then (λ m. field_of_form name.now (form_of m)) (own_mode of.now)) }
{
    match of {
        None => Ok(None),
        Some(own) => shared(field_in(own, name)),
    }
}

// What may be done with a whole location of a mode: it is only read, too, where a part of its mode is READ.
fn whole_access(access: Access, mode: &Option<Rc<Mode>>) -> Access
    ensures { access_tree result ≡ model.whole_access (access_tree access) (own_mode mode.now) }
{
    match (access, mode) {
        (Access::Free, Some(mode)) => {
            if holds_read(mode) {
                Access::ReadOnly
            } else {
                Access::Free
            }
        }
        (Access::Free, None) => Access::Free,
        (Access::ReadOnly, _) => Access::ReadOnly,
        (Access::NoLocation, _) => Access::NoLocation,
    }
}

// What is no location.
fn no_location(definition: Option<u32>) -> Located
    ensures { located_tree result ≡ model.located model.no_location None }
{
    Located {
        definition,
        mode: None,
        access: Access::NoLocation,
    }
}

// Rule S3: the target is only read, a counter, a received name, or no location.
fn cannot_be_written(target: &Located) -> bool
    ensures { result ≡ cannot_be_written (located_tree target.now) }
{
    target.access != Access::Free
}
