// How many scalars the locals of a body have (our own limit).
ghost use Rattle.std.specs.Prelude.{◌≡◌, ◌++◌, OnOk, IfOk, min, nat_lt, sum_by};
ghost use Rattle.chill_tree.specs.ItemTree.{procedure_tree, process_tree, program_tree};
ghost use Rattle.diagnostics.specs.declared.rule.Rule.TheVariants as rules;
ghost use Rattle.checks_model.specs.Told.{tell_at, told_if};
ghost use Rattle.checks_model.specs.Limits.{scalars_named};
ghost use Rattle.checks_model.specs.Sites.{at_body};
ghost use Rattle.checks_model.specs.Phases.{statements_told_at};
ghost use Rattle.local_names.specs.Found.{names_found};
ghost use Rattle.statement_rules.specs.Grounds.{ground_at, IsGrounded};
ghost use Rattle.statement_rules.specs.Steps.{site_of_procedure, site_of_process, site_of_outermost};

use crate::walk::Statements;
use chill_base::{Memory, Pos};
use chill_tree::tree::{Name, Procedure, Process, Tree};
use definition_origins::{CheckRule, Told};
use expr_rules::tell_if;
use local_names::{locals_of_procedure, locals_of_process, outermost_locals};
use modes::number_of_scalars;

// How many scalars the locals of a body may have.
const LOCALS: u64 = 512;

// Where the outermost process is told of: it has no name.
const OUTERMOST: Pos = Pos { line: 1, column: 1 };

impl<'a, 'b> Statements<'a, 'b> {
    /// Whether a procedure has too many local scalars.
    pub fn tell_locals_of_procedure(&self, own: &Procedure, told: &mut Told) -> Result<(), Memory>
        ensures { IsGrounded self.now → OnOk result (told.new ≡ told.old ++ statements_told_at (ground_at self.now) (site_of_procedure (procedure_tree own.now))) }
    {
        let locals = locals_of_procedure(self.walk.evaluation.alloc, own)?;
        self.tell_locals(own.name.at, locals.as_slice(), told)
    }

    /// Whether a process has too many local scalars.
    pub fn tell_locals_of_process(&self, own: &Process, told: &mut Told) -> Result<(), Memory>
        ensures { IsGrounded self.now → OnOk result (told.new ≡ told.old ++ statements_told_at (ground_at self.now) (site_of_process (process_tree own.now))) }
    {
        let locals = locals_of_process(self.walk.evaluation.alloc, own)?;
        self.tell_locals(own.name.at, locals.as_slice(), told)
    }

    /// Whether the outermost process has too many local scalars.
    pub fn tell_outermost_locals(&self, tree: &Tree, told: &mut Told) -> Result<(), Memory>
        ensures { IsGrounded self.now → OnOk result (told.new ≡ told.old ++ statements_told_at (ground_at self.now) (site_of_outermost (program_tree tree.now))) }
    {
        let locals = outermost_locals(self.walk.evaluation.alloc, tree)?;
        self.tell_locals(OUTERMOST, locals.as_slice(), told)
    }

    // Rule L4 of a body with these locals, which is told of at a place.
    fn tell_locals(&self, at: Pos, locals: &[&Name], told: &mut Told) -> Result<(), Memory>
        ensures { IsGrounded self.now → OnOk result (told.new ≡ told.old ++ told_if (nat_lt 512 (sum_by (scalars_named (ground_at self.now)) (names_found locals.now))) (tell_at rules.L4 at)) }
    {
        let _ = tell_if(self.has_too_many(locals), CheckRule::L4, at, told)?;
        Ok(())
    }

    // Whether some locals have more scalars than those of a body may.
    #[tactic(auto, using(crate::proofs::Sums::sums))]
    fn has_too_many(&self, locals: &[&Name]) -> bool
        ensures { IsGrounded self.now → result ≡ nat_lt 512 (sum_by (scalars_named (ground_at self.now)) (names_found locals.now)) }
    {
        let mut sum = 0_u64;
        for local in locals {
            sum += u64::from(self.scalars_of(local));
            if sum > LOCALS {
                return true;
            }
        }
        false
    }

    // How many scalars a local has, or 4,097 where it has more than 4,096.
    fn scalars_of(&self, local: &Name) -> u32
        ensures { IsGrounded self.now → result ≡ min (scalars_named (ground_at self.now) local.now) 4097 }
    {
        match self.walk.evaluation.mode_defined(local) {
            None => 0,
            Some(mode) => number_of_scalars(mode),
        }
    }
}
