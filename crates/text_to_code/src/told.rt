// What is told of a text: its program with the code, or why it is refused.
ghost use Rattle.std.specs.Prelude.{◌≡◌, [], ◌∷◌, IfOk, IfErr};
ghost use Rattle.rules_model.specs.TokensCut.{first_place};
ghost use Rattle.rules_model.specs.Diagnoses.{HasTree, plain};
ghost use Rattle.chill_tree.specs.ItemTree.{program_tree};
ghost use Rattle.diagnostics.specs.declared.rule.Rule.TheVariants as rules;
ghost use Rattle.text_to_code.specs.Telling.{BreaksNone, HasNamesOf, IsNoTree, Tells, TellsExactly, TellsWhere};
ghost use Rattle.text_to_code.specs.declared.told.Told.TheVariants as tellings;

use crate::build::{BuildRefusal, Built, build};
use crate::grammar::{FIRST_PLACE, NoTree, plainly, tokens_of, tree_of};
use chill_base::Memory;
use chill_tree::tree::Tree;
use diagnostics::{Diagnostic, Diagnostics, Rule};
use names_model::Names;
use std::alloc::Global;
use text_checks::{Evaluation, check_text, evaluate};
use text_size::size_of_program;
use visibility::{Refusal, resolve};

/// The greatest size of a text that has a code.
const GREATEST_SIZE: u32 = 65_536;

/// What is told of a text.
#[derive(Drop)]
pub enum Told {
    /// Why it is refused.
    Refused(Diagnostics),
    /// Its program, and the code of that.
    Accepted(Box<Built>),
}

// The list of one diagnostic.
pub(crate) fn only(alloc: Global, told: Diagnostic) -> Result<Diagnostics, Memory>
    ensures { IfOk result (λ list. list ≡ told ∷ []) }
{
    let mut list = Diagnostics::new(alloc);
    list.push(told)?;
    Ok(list)
}

/// What is told of a text that has a tree, and no run for a reason which is none of the language.
pub fn not_built(alloc: Global) -> Result<Diagnostics, Memory>
    ensures { IfOk result (λ list. list ≡ plain first_place rules.B1 ∷ []) }
{
    only(alloc, plainly(alloc, FIRST_PLACE, Rule::B1))
}

// One diagnostic is told.
fn refuse(alloc: Global, told: Diagnostic) -> Result<Told, Memory>
    ensures { IfOk result (λ t. t ≡ tellings.Refused (told ∷ [])) }
{
    Ok(Told::Refused(only(alloc, told)?))
}

// A rule on the whole text is told, at its first byte.
fn refuse_plainly(alloc: Global, rule: Rule) -> Result<Told, Memory>
    ensures { IfOk result (λ t. t ≡ tellings.Refused (plain first_place rule ∷ [])) }
{
    refuse(alloc, plainly(alloc, FIRST_PLACE, rule))
}

// What is told of a tree of which the checks tell nothing.
fn tell_of_code(alloc: Global, tree: &Tree, evaluation: &Evaluation<'_>) -> Result<Told, Memory>
    ensures { TellsWhere (λ text. BreaksNone text (program_tree tree.now)) result }
{
    if size_of_program(tree) > GREATEST_SIZE {
        return refuse_plainly(alloc, Rule::L8);
    }
    match build(alloc, tree, evaluation) {
        Ok(built) => Ok(Told::Accepted(Box::new(alloc, built)?)),
        Err(BuildRefusal::NotBuilt) => refuse_plainly(alloc, Rule::B1),
        Err(BuildRefusal::Memory) => Err(Memory),
    }
}

// What is told of a tree that breaks no rule on names.
fn tell_of_checks(alloc: Global, tree: &Tree, names: &Names) -> Result<Told, Memory>
    ensures { TellsWhere (HasNamesOf (program_tree tree.now) names.now) result }
{
    let mut evaluation = evaluate(alloc, tree, names)?;
    match check_text(&mut evaluation, tree) {
        Ok(()) => tell_of_code(alloc, tree, &evaluation),
        Err(Refusal::Broken(told)) => Ok(Told::Refused(told)),
        Err(Refusal::Memory) => Err(Memory),
    }
}

// What is told of a text with a tree.
fn tell_of_tree(alloc: Global, tree: &Tree) -> Result<Told, Memory>
    ensures { TellsWhere (λ text. HasTree text (program_tree tree.now)) result }
{
    match resolve(alloc, tree) {
        Ok(names) => tell_of_checks(alloc, tree, &names),
        Err(Refusal::Broken(misnamed)) => Ok(Told::Refused(misnamed)),
        Err(Refusal::Memory) => Err(Memory),
    }
}

// What is told of a text that has a tree.
fn tell_of_text(alloc: Global, text: &[u8]) -> Result<Told, NoTree>
    ensures tells { IfOk result (λ told. Tells text.now told) }
    ensures breaks { IfErr result (IsNoTree text.now) }
{
    let tokens = tokens_of(alloc, text)?;
    let tree = tree_of(alloc, text, tokens.as_slice())?;
    let told = tell_of_tree(alloc, &tree)?;
    Ok(told)
}

/// What is told of a text: exactly the rules that it breaks of the first phase in which it breaks some; or its program and the
/// code of that; or, by B1, that this compiler gives no code for it.
pub fn tell(alloc: Global, text: &[u8]) -> Result<Told, Memory>
    ensures told { IfOk result (λ told. Tells text.now told) }
    ensures exact { IfOk result (λ told. TellsExactly text.now told) }
{
    match tell_of_text(alloc, text) {
        Ok(told) => Ok(told),
        Err(NoTree::Breaks(told)) => refuse(alloc, told),
        Err(NoTree::Memory) => Err(Memory),
    }
}
