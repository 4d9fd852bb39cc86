// What is known of a definition, all that it depends on being evaluated.
ghost use Rattle.std.specs.Prelude.{◌≡◌, ◌++◌, Bool, true, false, IfOk, OnOk, map, option_map};
ghost use Rattle.chill_tree.specs.ExprTree.{expr_tree};
ghost use Rattle.chill_tree.specs.ModeTree as written;
ghost use Rattle.chill_tree.specs.LocalTree.{synonym_tree, declaration_tree};
ghost use Rattle.chill_tree.specs.ItemTree.{procedure_tree, signal_tree};
ghost use Rattle.modes.specs.ModeTree.{class_tree, value};
ghost use Rattle.checks_model.specs.Ground as model;
ghost use Rattle.checks_model.specs.ConstantRules.{told_needed, told_of_synonym_value};
ghost use Rattle.checks_model.specs.Table.{told_of_synonym, parts_of_signal};
ghost use Rattle.checks_model.specs.WrittenModes.{mode_of, some_mode_of, told_of_mode, told_of_some_mode};
ghost use Rattle.elaborated_laws.specs.Table.{IsDefinedSo};
ghost use Rattle.definition_origins.specs.OriginTrees.{origin_tree};
ghost use Rattle.constant_operators.specs.Grounds.{ground_of, HasGround};
ghost use Rattle.laid_laws.specs.Few.{AreFew};
ghost use Rattle.written_modes.specs.Wholes.{is_whole, tree_there};
ghost use Rattle.definition_table.specs.Entries.{IsEntryOf, IsModeAlone, IsPlainSynonym, IsSynonymOf};

use crate::given::{element_entry, of_mode, predefined_entry};
use crate::received::received_entry;
use chill_base::{List, Memory};
use chill_tree::tree::{
    Declaration, Expr, Mode as WrittenMode, ModeDefinition, Procedure, Signal, Synonym,
};
use constant_operators::{Entry, Evaluation};
use constant_rules::{needed, synonym_value};
use definition_origins::{Origin, Told};
use modes::{Class, Mode};
use std::rc::Rc;
use written_modes::{Standing, written_mode};

// What is known of a definition that has a written mode.
fn entry_of_mode(
    ground: &Evaluation<'_>,
    mode: &WrittenMode,
    standing: Standing,
    told: &mut Told,
) -> Result<Entry, Memory>
    ensures { HasGround ground.now → AreFew (ground_of ground.now) → IfOk result (IsModeAlone (mode_of (ground_of ground.now) (is_whole standing) (written.mode_tree mode.now))) }
{
    let mode = written_mode(ground, mode, standing, told)?;
    Ok(of_mode(ground, mode))
}

// A synonym without a written mode: the class and the value of its expression.
fn plain_synonym(ground: &Evaluation<'_>, value: &Expr, told: &mut Told) -> Result<Entry, Memory>
    ensures told { HasGround ground.now → OnOk result (told.new ≡ told.old ++ told_needed (ground_of ground.now) (expr_tree value.now)) }
    ensures entry { HasGround ground.now → IfOk result (IsPlainSynonym (ground_of ground.now) (expr_tree value.now)) }
{
    let mut entry = Entry::unknown(ground.alloc);
    if let Some(known) = needed(ground, value, told)? {
        let (class, value) = known.into_parts();
        entry.class = class;
        entry.value = value;
    }
    Ok(entry)
}

// The class of a value of a mode.
fn class_of(mode: &Option<Rc<Mode>>) -> Result<Option<Class>, Memory>
    ensures { IfOk result (λ c. option_map class_tree c ≡ option_map value (tree_there mode.now)) }
{
    match mode {
        None => Ok(None),
        Some(mode) => Ok(Some(Class::Value(mode.clone()?))),
    }
}

// A synonym with a written mode: it has this mode, also where its value misfits.
fn synonym_of_mode(
    ground: &Evaluation<'_>,
    own: &WrittenMode,
    value: &Expr,
    told: &mut Told,
) -> Result<Entry, Memory>
    ensures told { HasGround ground.now → AreFew (ground_of ground.now) → OnOk result (told.new ≡ told.old ++ (told_of_mode (ground_of ground.now) false (written.mode_tree own.now) ++ told_of_synonym_value (ground_of ground.now) true (mode_of (ground_of ground.now) false (written.mode_tree own.now)) (expr_tree value.now))) }
    ensures entry { HasGround ground.now → AreFew (ground_of ground.now) → IfOk result (IsSynonymOf (ground_of ground.now) (mode_of (ground_of ground.now) false (written.mode_tree own.now)) (expr_tree value.now)) }
{
    let mut entry = Entry::unknown(ground.alloc);
    let mode = written_mode(ground, own, Standing::Part, told)?;
    entry.value = synonym_value(ground, value, &mode, told)?;
    entry.class = class_of(&mode)?;
    entry.mode = mode;
    Ok(entry)
}

/// A synonym has the class of its written mode, else that of its expression.
#[tactic(auto, using(crate::proofs::Synonyms::synonym_views))]
pub fn synonym_entry(
    ground: &Evaluation<'_>,
    own: &Synonym,
    told: &mut Told,
) -> Result<Entry, Memory>
    ensures told { HasGround ground.now → AreFew (ground_of ground.now) → OnOk result (told.new ≡ told.old ++ (told_of_some_mode (ground_of ground.now) (synonym_tree own.now).mode ++ told_of_synonym (ground_of ground.now) (synonym_tree own.now))) }
    ensures entry { HasGround ground.now → AreFew (ground_of ground.now) → IfOk result (IsEntryOf (ground_of ground.now) (model.a_synonym (synonym_tree own.now))) }
{
    match &own.mode {
        None => {
            let entry = plain_synonym(ground, &own.value, told)?;
            Ok(entry)
        }
        Some(mode) => {
            let entry = synonym_of_mode(ground, mode, &own.value, told)?;
            Ok(entry)
        }
    }
}

// A mode's name has the mode.
fn mode_entry(
    ground: &Evaluation<'_>,
    own: &ModeDefinition,
    told: &mut Told,
) -> Result<Entry, Memory>
    ensures { HasGround ground.now → AreFew (ground_of ground.now) → (novel : Bool) → IfOk result (IsEntryOf (ground_of ground.now) (model.a_mode novel (written.mode_tree own.now.mode))) }
{
    let entry = entry_of_mode(ground, &own.mode, Standing::Whole, told)?;
    Ok(entry)
}

// A location has its mode.
fn location_entry(
    ground: &Evaluation<'_>,
    own: &Declaration,
    told: &mut Told,
) -> Result<Entry, Memory>
    ensures { HasGround ground.now → AreFew (ground_of ground.now) → IfOk result (IsEntryOf (ground_of ground.now) (model.a_location (declaration_tree own.now))) }
{
    let entry = entry_of_mode(ground, &own.mode, Standing::Whole, told)?;
    Ok(entry)
}

// A parameter has its mode.
fn parameter_entry(
    ground: &Evaluation<'_>,
    mode: &WrittenMode,
    told: &mut Told,
) -> Result<Entry, Memory>
    ensures { HasGround ground.now → AreFew (ground_of ground.now) → IfOk result (IsEntryOf (ground_of ground.now) (model.a_parameter (written.mode_tree mode.now))) }
{
    let entry = entry_of_mode(ground, mode, Standing::Part, told)?;
    Ok(entry)
}

// The mode of what a procedure returns.
fn result_entry(
    ground: &Evaluation<'_>,
    returns: &Option<WrittenMode>,
    told: &mut Told,
) -> Result<Entry, Memory>
    ensures { HasGround ground.now → AreFew (ground_of ground.now) → IfOk result (IsModeAlone (some_mode_of (ground_of ground.now) (option_map written.mode_tree returns.now))) }
{
    match returns {
        None => Ok(Entry::unknown(ground.alloc)),
        Some(mode) => entry_of_mode(ground, mode, Standing::Part, told),
    }
}

// A procedure has the mode of what it returns.
fn procedure_entry(
    ground: &Evaluation<'_>,
    own: &Procedure,
    told: &mut Told,
) -> Result<Entry, Memory>
    ensures { HasGround ground.now → AreFew (ground_of ground.now) → IfOk result (IsEntryOf (ground_of ground.now) (model.a_procedure (procedure_tree own.now))) }
{
    let entry = result_entry(ground, &own.returns, told)?;
    Ok(entry)
}

// The modes of the parts of a signal.
fn modes_of(
    ground: &Evaluation<'_>,
    parts: &[WrittenMode],
    told: &mut Told,
) -> Result<List<Option<Rc<Mode>>>, Memory>
    ensures { HasGround ground.now → AreFew (ground_of ground.now) → IfOk result (λ found. map tree_there found ≡ map (mode_of (ground_of ground.now) false) (map written.mode_tree parts.now)) }
{
    let mut found = List::new(ground.alloc);
    for mode in parts {
        let mode = written_mode(ground, mode, Standing::Part, told)?;
        found.push(mode)?;
    }
    Ok(found)
}

// The modes of the parts that a signal may have.
fn some_modes_of(
    ground: &Evaluation<'_>,
    parts: &Option<List<WrittenMode>>,
    told: &mut Told,
) -> Result<List<Option<Rc<Mode>>>, Memory>
    ensures { HasGround ground.now → AreFew (ground_of ground.now) → IfOk result (λ found. map tree_there found ≡ parts_of_signal (ground_of ground.now) (option_map (map written.mode_tree) parts.now)) }
{
    match parts {
        None => Ok(List::new(ground.alloc)),
        Some(parts) => modes_of(ground, parts.as_slice(), told),
    }
}

// A signal has the modes of its parts.
fn signal_entry(ground: &Evaluation<'_>, own: &Signal, told: &mut Told) -> Result<Entry, Memory>
    ensures { HasGround ground.now → AreFew (ground_of ground.now) → IfOk result (IsEntryOf (ground_of ground.now) (model.a_signal (signal_tree own.now))) }
{
    let parts = some_modes_of(ground, &own.parts, told)?;
    let mut entry = Entry::unknown(ground.alloc);
    entry.parts = parts;
    Ok(entry)
}

/// What is known of what is defined so.
pub(crate) fn entry_by(
    ground: &Evaluation<'_>,
    origin: Origin<'_>,
    told: &mut Told,
) -> Result<Entry, Memory>
    ensures { HasGround ground.now → AreFew (ground_of ground.now) → IsDefinedSo (ground_of ground.now) (origin_tree origin.entry) →
        IfOk result (IsEntryOf (ground_of ground.now) (origin_tree origin.entry)) }
{
    match origin {
        Origin::Synonym { synonym, .. } => synonym_entry(ground, synonym, told),
        Origin::SynMode(own) | Origin::NewMode(own) => mode_entry(ground, own, told),
        Origin::Element(own) => element_entry(ground, own),
        Origin::Location { declaration, .. } => location_entry(ground, declaration, told),
        Origin::Parameter { mode, .. } => parameter_entry(ground, mode, told),
        Origin::Received { alternative, part } => received_entry(ground, alternative, part),
        Origin::Procedure(own) => procedure_entry(ground, own, told),
        Origin::Signal(own) => signal_entry(ground, own, told),
        Origin::Predefined(own) => predefined_entry(ground, own),
        Origin::Counter(_) | Origin::Process(_) | Origin::Modulion(_) => Ok(Entry::unknown(
            ground.alloc,
        )),
    }
}
