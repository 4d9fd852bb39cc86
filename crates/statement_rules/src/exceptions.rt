// Handlers' lists of exceptions (Z.200, chapter on exception handling).
ghost use Rattle.std.specs.Prelude.{◌≡◌, ◌++◌, ◌∷◌, [], ◌||◌, IfOk, OnOk};
ghost use Rattle.std.specs.Str.{bytes_eq};
ghost use Rattle.diagnostics.specs.declared.rule.Rule.TheVariants as rules;
ghost use Rattle.names_model.specs.NameRules.{tell};
ghost use Rattle.checks_model.specs.Told.{told_if};
ghost use Rattle.checks_model.specs.ActionRules.{one_spelling, is_listed, told_exceptions};
ghost use Rattle.statement_rules.specs.Spelled.{has_text, is_spelled, HasAdded};

use chill_base::{List, Memory};
use chill_tree::tree::Name;
use definition_origins::{CheckRule, Told};
use exception_names::one_spelling;
use std::alloc::Global;
use std::collections::HashSet;
use std::marker::Model;

/// The exceptions that a handler lists so far: contracts see their names.
#[derive(Drop)]
pub struct Listed<'a> {
    names: List<&'a Name>,
    spellings: HashSet<Vec<u8>>,
}

impl<'a> Model for Listed<'a> {
    ghost use Rattle.std.specs.Prelude.{List, map};
    ghost use Rattle.chill_tree.specs.declared.tree.name.Name.{Name as Found};
    ghost use Rattle.statement_rules.specs.Spelled.{Spells};

    ghost Value = { List Found };

    ghost view = { λ l. map (λ n. n.now) l.names };

    ghost invariant = { λ l. Spells l.spellings (map (λ n. n.now) l.names) };
}

impl<'a> Listed<'a> {
    /// None yet.
    #[tactic(auto, using(crate::proofs::Texts::texts))]
    pub fn new(alloc: Global) -> Listed<'a>
        ensures { result ≡ [] }
    {
        Listed {
            names: List::new(alloc),
            spellings: HashSet::new(alloc),
        }
    }

    // Whether one of them has the spelling.
    fn has(&self, spelling: &[u8]) -> bool
        ensures { result ≡ is_spelled self.now spelling.now }
    {
        self.spellings.contains(spelling)
    }

    /// Those, and one more.
    #[tactic(auto, using(crate::proofs::Texts::texts))]
    pub fn with(self, name: &'a Name) -> Result<Listed<'a>, Memory>
        ensures { IfOk result (λ more. more ≡ self.entry ++ name.now ∷ []) }
    {
        let Listed {
            mut names,
            mut spellings,
        } = self;
        add_text(
            names.allocator(),
            one_spelling(name.text.as_slice()),
            &mut spellings,
        )?;
        names.push(name)?;
        Ok(Listed { names, spellings })
    }
}

// Adds a text to a set.
#[tactic(auto, using(crate::proofs::Texts::text_there, crate::proofs::Texts::text_added))]
fn add_text(alloc: Global, text: &[u8], texts: &mut HashSet<Vec<u8>>) -> Result<(), Memory>
    ensures { OnOk result (HasAdded text.now texts.old texts.new) }
{
    if texts.contains(text) {
        return Ok(());
    }
    texts.insert(Vec::from_slice(alloc, text)?)?;
    Ok(())
}

// Rule S12: the handler lists an exception before, in whichever spelling.
fn is_listed(earlier: &Listed<'_>, name: &Name) -> bool
    ensures { result ≡ is_listed earlier.now name.now }
{
    earlier.has(one_spelling(name.text.as_slice()))
}

fn tell_exception(earlier: &Listed<'_>, name: &Name, told: &mut Told) -> Result<(), Memory>
    ensures { OnOk result (told.new ≡ told.old ++ told_if (is_listed earlier.now name.now) (tell name.now.at rules.S12 name.now.text)) }
{
    if !is_listed(earlier, name) {
        return Ok(());
    }
    told.tell_name(CheckRule::S12, name.at, name.text.as_slice())
}

/// What is told of exceptions behind those that the handler lists before; all that it lists so far.
#[tactic(auto, using(crate::proofs::Lists::lists))]
pub fn tell_exceptions<'a>(
    names: &'a [Name],
    earlier: Listed<'a>,
    told: &mut Told,
) -> Result<Listed<'a>, Memory>
    ensures told { OnOk result (told.new ≡ told.old ++ told_exceptions earlier.entry names.now) }
    ensures listed { IfOk result (λ listed. listed ≡ earlier.entry ++ names.now) }
{
    let mut listed = earlier;
    for name in names {
        tell_exception(&listed, name, told)?;
        listed = listed.with(name)?;
    }
    Ok(listed)
}
