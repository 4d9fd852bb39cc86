// The class of a node of an expression by the classes of its parts (Z.200, chapters on values and on operations). Nothing is
// told here, so the elaborated program asks the same functions.
ghost use Rattle.std.specs.Prelude.{◌≡◌, Some, IfOk, length, option_map};
ghost use Rattle.chill_tree.specs.ExprTree.{expr_tree};
ghost use Rattle.modes.specs.ModeTree.{mode_tree, class_tree, value, derived, nothing, int, char, chars, instance};
ghost use Rattle.modes.specs.Form.{form_of};
ghost use Rattle.class_operators.specs.Predefined.{predefined_tree};
ghost use Rattle.checks_model.specs.Ground.{a_predefined, origin_of, entry_of, mode_of_entry, class_of_entry, buffer_element};
ghost use Rattle.checks_model.specs.Operations.{part_class, part_of_class, element_of_form, field_of_form, index_of_form};
ghost use Rattle.checks_model.specs.Classes.{class_of_origin, class_of_name, callee_named, callee_of};
ghost use Rattle.checks_model.specs.ValueRules.{index_mode, returns_none};
ghost use Rattle.expr_rules.specs.Grounds.{ground_in, HasItsGround};
ghost use Rattle.expr_rules.specs.Views.{some_mode, some_class, own_class, callee_tree};
ghost use Rattle.expr_rules.specs.Steps.{class_without};

use crate::surroundings::Walk;
use chill_base::{Memory, Text};
use chill_tree::tree::{Expr, Name};
use class_operators::{copied, field_in, is_routine, mode_in};
use definition_origins::{Origin, Predefined};
use modes::{Class, Form, Mode, form_of};
use std::rc::Rc;

/// What a name with brackets behind it calls, if it does.
#[derive(Clone, Copy)]
pub enum Callee<'e> {
    /// The procedure of that name.
    Procedure(&'e Name),
    Routine(Predefined),
    /// Nothing: the brackets hold an index.
    Nothing,
}

impl<'a, 'b> Walk<'a, 'b> {
    /// The class of a whole number.
    pub fn class_of_whole(&self) -> Result<Class, Memory>
        ensures { HasItsGround self.now → IfOk result (λ c. class_tree c ≡ derived int) }
    {
        Ok(Class::Derived(self.evaluation.plain.int.clone()?))
    }

    /// The class of a character.
    pub fn class_of_character(&self) -> Result<Class, Memory>
        ensures { HasItsGround self.now → IfOk result (λ c. class_tree c ≡ derived char) }
    {
        Ok(Class::Derived(self.evaluation.plain.char.clone()?))
    }

    /// The class of a text.
    #[tactic(auto, using(modes::proofs::ModeViews::mode_built))]
    pub fn class_of_text(&self, text: &Text) -> Result<Class, Memory>
        ensures { IfOk result (λ c. class_tree c ≡ derived (chars (length text.now))) }
    {
        let Ok(length) = u32::try_from(text.len()) else {
            return Err(Memory);
        };
        let mode = Rc::new(self.evaluation.alloc, Mode::Chars { length })?;
        Ok(Class::Derived(mode))
    }

    /// The class of THIS, and of what START gives.
    pub fn class_of_instance(&self) -> Result<Class, Memory>
        ensures { HasItsGround self.now → IfOk result (λ c. class_tree c ≡ derived instance) }
    {
        Ok(Class::Derived(self.evaluation.plain.instance.clone()?))
    }

    /// The class of what RECEIVE gives of a buffer; none where the name is of none.
    pub fn class_of_received(&self, buffer: &Name) -> Result<Option<Class>, Memory>
        ensures { HasItsGround self.now → IfOk result (λ c. own_class c ≡ option_map value (buffer_element (ground_in self.now) buffer.now)) }
    {
        value_of_mode(self.element_of_buffer(buffer))
    }

    /// The class of a name alone. One that is called stands for no value.
    pub fn class_of_name(&self, name: &Name) -> Result<Option<Class>, Memory>
        ensures { HasItsGround self.now → IfOk result (λ c. own_class c ≡ class_of_name (ground_in self.now) name.now) }
    {
        let Some(origin) = self.evaluation.origin_used(name.at) else {
            return Ok(None);
        };
        match origin {
            Origin::Synonym { .. } | Origin::Element(_) => self.class_of_constant(name),
            Origin::Location { .. }
            | Origin::Parameter { .. }
            | Origin::Counter(_)
            | Origin::Received { .. } => value_of_mode(self.evaluation.mode_used(name.at)),
            Origin::Procedure(_) => Ok(Some(Class::Nothing)),
            Origin::Predefined(own) => self.class_of_predefined(own),
            // No name of these stands as a value.
            Origin::SynMode(_)
            | Origin::NewMode(_)
            | Origin::Process(_)
            | Origin::Signal(_)
            | Origin::Modulion(_) => Ok(None),
        }
    }

    // The class of a synonym or an element.
    fn class_of_constant(&self, name: &Name) -> Result<Option<Class>, Memory>
        ensures { HasItsGround self.now → IfOk result (λ c. own_class c ≡ class_of_entry (entry_of (ground_in self.now) name.now)) }
    {
        match self.entry_used(name.at) {
            None => Ok(None),
            Some(entry) => match &entry.class {
                None => Ok(None),
                Some(class) => Ok(Some(copied(class)?)),
            },
        }
    }

    // The class of a predefined name.
    fn class_of_predefined(&self, own: Predefined) -> Result<Option<Class>, Memory>
        ensures { HasItsGround self.now → IfOk result (λ c. own_class c ≡ class_of_origin None (Some (a_predefined (predefined_tree own)))) }
    {
        match own {
            Predefined::True | Predefined::False => Ok(Some(Class::Derived(
                self.evaluation.plain.bool.clone()?,
            ))),
            Predefined::Null => Ok(Some(Class::Null)),
            Predefined::Int | Predefined::Bool | Predefined::Char | Predefined::Instance => {
                Ok(None)
            }
            Predefined::Num
            | Predefined::Succ
            | Predefined::Pred
            | Predefined::Abs
            | Predefined::Card
            | Predefined::Min
            | Predefined::Max
            | Predefined::Upper
            | Predefined::Lower
            | Predefined::Size
            | Predefined::PutInt
            | Predefined::PutText
            | Predefined::PutLine
            | Predefined::GetInt => Ok(Some(Class::Nothing)),
        }
    }

    /// The mode that an index of something of a class has to go with, where it has elements.
    pub fn index_mode<'k>(&'k self, of: Option<&'k Class>) -> Option<&'k Rc<Mode>>
        ensures { HasItsGround self.now → some_mode result ≡ index_mode (some_class of.entry) }
    {
        self.index_in(mode_in(of?)?)
    }

    // The mode that the indices of an array or a text have to go with.
    fn index_in<'k>(&'k self, of: &'k Mode) -> Option<&'k Rc<Mode>>
        ensures { HasItsGround self.now → some_mode result ≡ index_of_form (form_of (mode_tree of.now)) }
    {
        match form_of(of) {
            Form::Array { index, .. } => Some(index),
            Form::Chars(_) => Some(&self.evaluation.plain.int),
            Form::Int
            | Form::Bool
            | Form::Char
            | Form::Instance
            | Form::Set { .. }
            | Form::Powerset(_)
            | Form::Struct { .. }
            | Form::Meeting => None,
        }
    }

    /// The class of an element of something: Nothing where it has none.
    pub fn class_of_element(&self, of: &Class) -> Result<Class, Memory>
        ensures { HasItsGround self.now → IfOk result (λ c. class_tree c ≡ part_of_class element_of_form (class_tree of.now)) }
    {
        match mode_in(of) {
            None => Ok(Class::Nothing),
            Some(mode) => part_class(self.evaluation.element_in(mode)),
        }
    }

    /// The class of a field of something: Nothing where it has none of that name.
    pub fn class_of_field(&self, of: &Class, name: &[u8]) -> Result<Class, Memory>
        ensures { IfOk result (λ c. class_tree c ≡ part_of_class (field_of_form name.now) (class_tree of.now)) }
    {
        match mode_in(of) {
            None => Ok(Class::Nothing),
            Some(mode) => part_class(field_in(mode, name)),
        }
    }

    /// What the brackets behind an expression do.
    #[tactic(auto, using(chill_tree::proofs::ExprViews::expr_built))]
    pub fn callee<'e>(&self, of: &'e Expr) -> Callee<'e>
        ensures { HasItsGround self.now → callee_tree result ≡ callee_of (ground_in self.now) (expr_tree of.now) }
    {
        match of {
            Expr::Name(name) => self.callee_named(name),
            Expr::Whole { .. }
            | Expr::Char { .. }
            | Expr::Text { .. }
            | Expr::This { .. }
            | Expr::Paren { .. }
            | Expr::Receive { .. }
            | Expr::Start { .. }
            | Expr::Tuple { .. }
            | Expr::Uniform { .. }
            | Expr::Apply { .. }
            | Expr::Field { .. }
            | Expr::Prefixed { .. }
            | Expr::Binary { .. } => Callee::Nothing,
        }
    }

    /// What a name calls, where it is one of a procedure or a routine.
    pub fn callee_named<'e>(&self, name: &'e Name) -> Callee<'e>
        ensures { HasItsGround self.now → callee_tree result ≡ callee_named (ground_in self.now) name.now }
    {
        match self.evaluation.origin_used(name.at) {
            Some(Origin::Procedure(_)) => Callee::Procedure(name),
            Some(Origin::Predefined(own)) => {
                if is_routine(own) {
                    Callee::Routine(own)
                } else {
                    Callee::Nothing
                }
            }
            Some(Origin::Synonym { .. })
            | Some(Origin::SynMode(_))
            | Some(Origin::NewMode(_))
            | Some(Origin::Element(_))
            | Some(Origin::Location { .. })
            | Some(Origin::Parameter { .. })
            | Some(Origin::Counter(_))
            | Some(Origin::Received { .. })
            | Some(Origin::Process(_))
            | Some(Origin::Signal(_))
            | Some(Origin::Modulion(_))
            | None => Callee::Nothing,
        }
    }

    /// The class of what a call of the procedure of that name gives; none where it returns nothing.
    pub fn class_of_result(&self, name: &Name) -> Result<Option<Class>, Memory>
        ensures { HasItsGround self.now → IfOk result (λ c. own_class c ≡ option_map value (mode_of_entry (entry_of (ground_in self.now) name.now))) }
    {
        value_of_mode(self.evaluation.mode_used(name.at))
    }

    /// Whether a name is that of a procedure that returns nothing.
    pub fn returns_none(&self, name: &Name) -> bool
        ensures { HasItsGround self.now → result ≡ returns_none (origin_of (ground_in self.now) name.now) }
    {
        match self.evaluation.origin_used(name.at) {
            Some(Origin::Procedure(procedure)) => procedure.returns.is_none(),
            Some(Origin::Synonym { .. })
            | Some(Origin::SynMode(_))
            | Some(Origin::NewMode(_))
            | Some(Origin::Element(_))
            | Some(Origin::Location { .. })
            | Some(Origin::Parameter { .. })
            | Some(Origin::Counter(_))
            | Some(Origin::Received { .. })
            | Some(Origin::Process(_))
            | Some(Origin::Signal(_))
            | Some(Origin::Modulion(_))
            | Some(Origin::Predefined(_))
            | None => false,
        }
    }

    /// The class of what a routine gives without an argument, where that is a value.
    pub(crate) fn class_without_argument(&self, own: Predefined) -> Result<Option<Class>, Memory>
        ensures { HasItsGround self.now → IfOk result (λ c. own_class c ≡ class_without (predefined_tree own)) }
    {
        if own != Predefined::GetInt {
            return Ok(None);
        }
        Ok(Some(Class::Value(self.evaluation.plain.int.clone()?)))
    }
}

// The class of a part of this mode: Nothing where it doesn't fit what it is a part of.
fn part_class(mode: Option<&Rc<Mode>>) -> Result<Class, Memory>
    ensures { IfOk result (λ c. class_tree c ≡ part_class (some_mode mode.entry)) }
{
    match mode {
        None => Ok(Class::Nothing),
        Some(mode) => Ok(Class::Value(mode.clone()?)),
    }
}

// The class of a value of a mode, where that is known.
fn value_of_mode(mode: Option<&Rc<Mode>>) -> Result<Option<Class>, Memory>
    ensures { IfOk result (λ c. own_class c ≡ option_map value (some_mode mode.entry)) }
{
    match mode {
        None => Ok(None),
        Some(mode) => Ok(Some(Class::Value(mode.clone()?))),
    }
}
