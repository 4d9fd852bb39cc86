// The modes of received names: that of a buffer's values, or of a part of a signal.
ghost use Rattle.std.specs.Prelude.{◌≡◌, Some, ◌∷◌, [], IfOk, option_map, option_and_then};
ghost use Rattle.chill_tree.specs.StatementTree.{receive_tree};
ghost use Rattle.modes.specs.ModeTree.{mode_tree};
ghost use Rattle.checks_model.specs.Ground as model;
ghost use Rattle.checks_model.specs.Table.{received_mode};
ghost use Rattle.definition_origins.specs.OriginTrees.{count_received, origin_tree, received_tree};
ghost use Rattle.constant_operators.specs.Grounds.{entry_at, entry_tree, ground_of, HasGround};
ghost use Rattle.written_modes.specs.Wholes.{tree_there};
ghost use Rattle.definition_table.specs.Entries.{IsEntryOf};

use crate::given::of_mode;
use chill_base::{List, Memory, Pos};
use chill_tree::tree::{Name, ReceiveAlternative};
use constant_operators::{Entry, Evaluation, shared};
use definition_origins::Origin;
use modes::Mode;
use std::rc::Rc;

// The mode of a buffer's values, names and READ looked through.
#[cycle(element)]
#[tactic(auto, using(modes::proofs::ModeViews::mode_built))]
fn element_of(mode: &Mode) -> Option<&Rc<Mode>>
    ensures { option_map (λ m. mode_tree m.now.value) result ≡ model.element_of (mode_tree mode.now) }
{
    match mode {
        Mode::Buffer { element, .. } => Some(element),
        Mode::Read { of } | Mode::Named { of, .. } => element_of(of),
        Mode::Int
        | Mode::Bool
        | Mode::Char
        | Mode::Instance
        | Mode::Set { .. }
        | Mode::Range { .. }
        | Mode::Powerset { .. }
        | Mode::Chars { .. }
        | Mode::Array { .. }
        | Mode::Struct { .. }
        | Mode::Event { .. } => None,
    }
}

// How many names are received.
fn count_of(received: &Option<List<Name>>) -> usize
    ensures { result ≡ count_received received.now }
{
    match received {
        None => 0,
        Some(names) => names.len(),
    }
}

// The mode of a part of a signal, where so many names are received as it has parts.
fn signal_part(entry: Option<&Entry>, count: usize, part: usize) -> Result<Option<Rc<Mode>>, Memory>
    ensures { IfOk result (λ m. tree_there m ≡ received_mode (option_map (λ e. e.parts) (option_map (λ e. entry_tree e.now) entry.entry)) count part) }
{
    let Some(entry) = entry else {
        return Ok(None);
    };
    if entry.parts.len() != count {
        return Ok(None);
    }
    match entry.parts.as_slice().get(part) {
        None => Ok(None),
        Some(mode) => shared(mode.as_ref()),
    }
}

// The mode of the values of a buffer, where one name is received.
fn buffer_part(of: Option<&Rc<Mode>>, count: usize, part: usize) -> Result<Option<Rc<Mode>>, Memory>
    ensures { IfOk result (λ m. tree_there m ≡ received_mode (option_map (λ m. Some m ∷ []) (option_and_then model.element_of (option_map (λ m. mode_tree m.now.value) of.entry))) count part) }
{
    if count != 1 || part != 0 {
        return Ok(None);
    }
    match of {
        None => Ok(None),
        Some(mode) => shared(element_of(mode)),
    }
}

// The mode of what is known of a definition.
fn mode_in(entry: Option<&Entry>) -> Option<&Rc<Mode>>
    ensures { option_map (λ m. mode_tree m.now.value) result ≡ model.mode_of_entry (option_map (λ e. entry_tree e.now) entry.entry) }
{
    match entry {
        None => None,
        Some(entry) => match &entry.mode {
            None => None,
            Some(mode) => Some(mode),
        },
    }
}

// The mode of a part of the message that is received from what is defined so.
fn part_of_message(
    origin: Option<Origin<'_>>,
    entry: Option<&Entry>,
    count: usize,
    part: usize,
) -> Result<Option<Rc<Mode>>, Memory>
    ensures { IfOk result (λ m. tree_there m ≡ received_mode (model.message_of (option_map (λ e. entry_tree e.now) entry.entry) (option_map origin_tree origin.entry)) count part) }
{
    match origin {
        Some(Origin::Signal(_)) => signal_part(entry, count, part),
        Some(Origin::Synonym { .. })
        | Some(Origin::SynMode(_))
        | Some(Origin::NewMode(_))
        | Some(Origin::Element(_))
        | Some(Origin::Location { .. })
        | Some(Origin::Parameter { .. })
        | Some(Origin::Counter(_))
        | Some(Origin::Received { .. })
        | Some(Origin::Procedure(_))
        | Some(Origin::Process(_))
        | Some(Origin::Modulion(_))
        | Some(Origin::Predefined(_))
        | None => buffer_part(mode_in(entry), count, part),
    }
}

// What is known of what the name used at a place stands for.
#[tactic(auto, using(constant_operators::proofs::Grounds::looked_up))]
fn entry_used<'g>(ground: &'g Evaluation<'_>, at: Pos) -> Option<&'g Entry>
    ensures { HasGround ground.now → option_map (λ e. entry_tree e.now) result ≡ entry_at (ground_of ground.now) at }
{
    match ground.used_at(at) {
        None => None,
        Some(number) => ground.entry(number),
    }
}

/// A received name has the mode of its part of the message.
pub(crate) fn received_entry(
    ground: &Evaluation<'_>,
    alternative: &ReceiveAlternative,
    part: usize,
) -> Result<Entry, Memory>
    ensures { HasGround ground.now → IfOk result (IsEntryOf (ground_of ground.now) (received_tree (receive_tree alternative.now) part)) }
{
    let at = alternative.source.at;
    let origin = ground.origin_used(at);
    let entry = entry_used(ground, at);
    let count = count_of(&alternative.received);
    let mode = part_of_message(origin, entry, count, part)?;
    Ok(of_mode(ground, mode))
}
