// What expressions are asked against: the evaluated definitions of a program, counters and received names among them.
ghost use Rattle.std.specs.Prelude.{◌≡◌, option_map, slice_get, length};
ghost use Rattle.modes.specs.ModeTree.{mode_tree};
ghost use Rattle.checks_model.specs.Ground.{element_of, origin_of, entry_of, buffer_element, message_parts};
ghost use Rattle.statement_laws.specs.Steps.{parts_by};
ghost use Rattle.constant_operators.specs.Grounds.{entry_tree, entry_at};
ghost use Rattle.expr_rules.specs.Grounds.{ground_in, HasItsGround};
ghost use Rattle.expr_rules.specs.Views.{some_mode, part_modes};
ghost use Rattle.expr_rules.specs.Steps.{mode_placed};

use chill_base::Pos;
use chill_tree::tree::Name;
use constant_operators::{Entry, Evaluation};
use definition_origins::Origin;
use modes::Mode;
use std::rc::Rc;

/// The evaluated definitions of a program that breaks no rule on modes and constants, with the modes of its counters and
/// received names.
#[derive(Clone, Copy)]
pub struct Walk<'a, 'b> {
    pub evaluation: &'b Evaluation<'a>,
}

impl<'a, 'b> Walk<'a, 'b> {
    /// The mode of a location, parameter, counter or received name, by its number.
    #[tactic(auto, using(constant_operators::proofs::Grounds::looked_up))]
    pub fn mode_of(&self, number: u32) -> Option<&'b Rc<Mode>>
        ensures { some_mode result ≡ mode_placed (slice_get (ground_in self.now).origins number) (slice_get (ground_in self.now).entries number) }
    {
        match self.evaluation.origin(number)? {
            Origin::Location { .. }
            | Origin::Parameter { .. }
            | Origin::Counter(_)
            | Origin::Received { .. } => self.evaluation.entry(number)?.mode.as_ref(),
            Origin::Synonym { .. }
            | Origin::SynMode(_)
            | Origin::NewMode(_)
            | Origin::Element(_)
            | Origin::Procedure(_)
            | Origin::Process(_)
            | Origin::Signal(_)
            | Origin::Modulion(_)
            | Origin::Predefined(_) => None,
        }
    }

    /// The mode that a buffer's values have, where the name is one of a buffer.
    pub fn element_of_buffer(&self, name: &Name) -> Option<&'b Rc<Mode>>
        ensures { HasItsGround self.now → some_mode result ≡ buffer_element (ground_in self.now) name.now }
    {
        element_in(self.evaluation.mode_used(name.at)?)
    }

    /// The modes of a signal's parts, where the name is one of a signal.
    pub fn parts_of_signal(&self, name: &Name) -> Option<&'b [Option<Rc<Mode>>]>
        ensures { HasItsGround self.now → option_map (λ ps. part_modes ps.now) result ≡ parts_by (entry_of (ground_in self.now) name.now) (origin_of (ground_in self.now) name.now) }
    {
        match self.evaluation.origin_used(name.at)? {
            Origin::Signal(_) => Some(self.entry_used(name.at)?.parts.as_slice()),
            Origin::Synonym { .. }
            | Origin::SynMode(_)
            | Origin::NewMode(_)
            | Origin::Element(_)
            | Origin::Location { .. }
            | Origin::Parameter { .. }
            | Origin::Counter(_)
            | Origin::Received { .. }
            | Origin::Procedure(_)
            | Origin::Process(_)
            | Origin::Modulion(_)
            | Origin::Predefined(_) => None,
        }
    }

    /// How many parts the messages of a buffer or signal have, where the name is one of those.
    #[tactic(auto, using(statement_laws::proofs::Arguments::messages))]
    pub fn number_of_parts(&self, source: &Name) -> Option<usize>
        ensures { HasItsGround self.now → result ≡ option_map (λ ms. length ms) (message_parts (ground_in self.now) source.now) }
    {
        match self.parts_of_signal(source) {
            Some(parts) => Some(parts.len()),
            None => {
                let _ = self.element_of_buffer(source)?;
                Some(1)
            }
        }
    }

    /// What is known of the definition that the name used at a place stands for.
    #[tactic(auto, using(constant_operators::proofs::Grounds::looked_up))]
    pub fn entry_used(&self, at: Pos) -> Option<&'b Entry>
        ensures { HasItsGround self.now → option_map (λ e. entry_tree e.now) result ≡ entry_at (ground_in self.now) at }
    {
        self.evaluation.entry(self.evaluation.used_at(at)?)
    }
}

// The mode of a buffer's values, where the mode is one of a buffer. Names and READ are looked through.
#[tactic(auto, using(modes::proofs::ModeViews::mode_built))]
fn element_in(mode: &Mode) -> Option<&Rc<Mode>>
    ensures { some_mode result ≡ element_of (mode_tree mode.now) }
{
    match mode {
        Mode::Buffer { element, .. } => Some(element),
        Mode::Read { of } | Mode::Named { of, .. } => element_in(of),
        Mode::Int
        | Mode::Bool
        | Mode::Char
        | Mode::Instance
        | Mode::Set { .. }
        | Mode::Range { .. }
        | Mode::Powerset { .. }
        | Mode::Chars { .. }
        | Mode::Array { .. }
        | Mode::Struct { .. }
        | Mode::Event { .. } => None,
    }
}
