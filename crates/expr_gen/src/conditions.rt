// Conditions: control goes on behind them or jumps, by what they are. No Boolean is made where a jump tells it.
#![tactic(auto, using(crate::proofs::Appending::keeping))]

ghost use Rattle.std.specs.Prelude.{◌≡◌, ◌+◌, ◌++◌, not, length, IfOk, OnOk, if◌then◌else◌};
ghost use Rattle.program_trees.specs.ExprTree.{expr_tree};
ghost use Rattle.code_scheme.specs.Pieces.{capped, branch_code, branch_size, decided_by, straight, is_turned, turned};
ghost use Rattle.code_scheme.specs.ExprSizes.{expr_size, condition_size};
ghost use Rattle.code_scheme.specs.ExprCode.{expr_code, condition_code, first_target};
ghost use Rattle.expr_gen.specs.Trees.{compared_code, compared_size, plain_condition, plain_size};
ghost use Rattle.expr_gen.specs.Putting.{Appends, Keeps, layout_of};
ghost use Rattle.expr_gen.specs.Puts.{PutsJump, PutsPlain, operands_size, PutsTest, PutsBranch, first_branch};

use crate::bounds::bounds_of_value;
use crate::building::{Draft, uncapped};
use crate::frames::Site;
use crate::operators::{put_behind, put_between, size_behind, size_between};
use crate::refusal::PartRefusal;
use crate::sizes::expr_size;
use crate::values::put_expr;
use checked_program::{Binary, Expr, Operation, Prefix};
use code_types::Instr;

/// Where control goes by a condition: to the target where it has this value, else on.
#[derive(Clone, Copy)]
pub struct Branch {
    pub when: bool,
    pub target: u32,
}

impl Branch {
    // The same target for the other value.
    fn opposite(self) -> Branch
        ensures { result ≡ record self { when = not self.when } }
    {
        Branch {
            when: !self.when,
            target: self.target,
        }
    }

    // Whether control goes to the target where the condition has this value.
    fn jumps_at(self, value: bool) -> bool
        ensures { result ≡ (if value then self.when else not self.when) }
    {
        self.when == value
    }

    // The same for a value that is turned round, where it is.
    fn turned(self, is_turned: bool) -> Branch
        ensures { result ≡ record self { when = if is_turned then not self.when else self.when } }
    {
        if is_turned { self.opposite() } else { self }
    }
}

// An operator with its operands.
#[derive(Clone, Copy)]
struct Operands<'a> {
    operator: Binary,
    left: &'a Expr,
    right: &'a Expr,
}

/// Appends the code of a condition, which leaves nothing on the stack.
#[tactic(auto, using(crate::proofs::Views::tree_built, crate::proofs::Appending::keeping))]
#[cycle(condition)]
pub fn put_condition(
    condition: &Expr,
    branch: Branch,
    site: &Site,
    free: u32,
    draft: &mut Draft,
) -> Result<(), PartRefusal>
    ensures puts { OnOk result (PutsJump site.now free condition.now branch draft.old draft.new) }
    ensures keeps { Keeps draft.old.code draft.new.code }
{
    match &condition.operation {
        Operation::Prefixed { operator, operand } => match operator {
            Prefix::Not => put_condition(operand, branch.opposite(), site, free, draft),
            Prefix::Minus | Prefix::Complement { .. } => {
                put_plain(condition, branch, site, free, draft)
            }
        },
        Operation::Binary {
            operator,
            left,
            right,
        } => match decided_by(*operator) {
            Some(value) => {
                let first = deciding(left, right, value, branch, draft)?;
                put_condition(left, first, site, free, draft)?;
                put_condition(right, branch, site, free, draft)
            }
            None => {
                let operands = Operands {
                    operator: *operator,
                    left,
                    right,
                };
                put_compared(operands, branch, site, free, draft)
            }
        },
        Operation::Constant(_) | Operation::This | Operation::Contents(_) => {
            put_plain(condition, branch, site, free, draft)
        }
        Operation::PartOf { .. } | Operation::Receive { .. } | Operation::Start(_) => {
            put_plain(condition, branch, site, free, draft)
        }
        Operation::Call(_) | Operation::Powerset { .. } | Operation::Parts(_) => {
            put_plain(condition, branch, site, free, draft)
        }
        Operation::Uniform { .. } => put_plain(condition, branch, site, free, draft),
        Operation::Routine { .. } | Operation::GetInt => {
            put_plain(condition, branch, site, free, draft)
        }
    }
}

// A condition that is an expression like others.
fn put_plain(
    condition: &Expr,
    branch: Branch,
    site: &Site,
    free: u32,
    draft: &mut Draft,
) -> Result<(), PartRefusal>
    ensures puts { OnOk result (PutsPlain site.now free condition.now branch draft.old draft.new) }
    ensures keeps { Keeps draft.old.code draft.new.code }
{
    put_expr(condition, site, free, draft)?;
    put_branch(branch, draft)
}

// The value of a first operand that decides the whole, so that the second one isn't evaluated.
fn decided_by(operator: Binary) -> Option<bool>
    ensures { result ≡ decided_by operator }
{
    match operator {
        Binary::AndIf => Some(false),
        Binary::OrIf => Some(true),
        _ => None,
    }
}

// Where control goes by the first of two conditions, of which one value decides the whole: to the target or behind both.
fn deciding(
    left: &Expr,
    right: &Expr,
    value: bool,
    branch: Branch,
    draft: &Draft,
) -> Result<Branch, PartRefusal>
    ensures { IfOk result (λ to. to ≡ first_branch left.now right.now value branch draft.now) }
{
    let target = if branch.jumps_at(value) {
        branch.target
    } else {
        let size = condition_size(left, value).saturating_add(condition_size(right, branch.when));
        draft.target_behind(size)?
    };
    Ok(Branch {
        when: value,
        target,
    })
}

// An operator other than ANDIF and ORIF.
fn put_compared(
    operands: Operands,
    branch: Branch,
    site: &Site,
    free: u32,
    draft: &mut Draft,
) -> Result<(), PartRefusal>
    ensures puts { OnOk result (PutsTest site.now free operands.entry branch draft.old draft.new) }
    ensures keeps { Keeps draft.old.code draft.new.code }
{
    let Operands {
        operator,
        left,
        right,
    } = operands;
    put_expr(left, site, free, draft)?;
    put_between(operator, bounds_of_value(left), expr_size(right), draft)?;
    put_expr(right, site, free, draft)?;
    put_behind(straight(operator), left.count, draft)?;
    put_branch(branch.turned(is_turned(operator)), draft)
}

// The operator itself, or the one whose value it turns round.
fn straight(operator: Binary) -> Binary
    ensures { result ≡ straight operator }
{
    match operator {
        Binary::NotEqual => Binary::Equal,
        Binary::GreaterOrEqual => Binary::Less,
        Binary::LessOrEqual => Binary::Greater,
        _ => operator,
    }
}

// Whether the operator turns round the value of another one.
fn is_turned(operator: Binary) -> bool
    ensures { result ≡ is_turned operator }
{
    matches!(
        operator,
        Binary::NotEqual | Binary::GreaterOrEqual | Binary::LessOrEqual
    )
}

/// Jumps by the Boolean on top.
pub fn put_branch(branch: Branch, draft: &mut Draft) -> Result<(), PartRefusal>
    ensures puts { OnOk result (PutsBranch branch draft.old draft.new) }
    ensures keeps { Keeps draft.old.code draft.new.code }
{
    if !branch.when {
        return draft.put(Instr::Unless(branch.target));
    }
    let on = draft.target_behind(2)?;
    draft.put(Instr::Unless(on))?;
    draft.put(Instr::Jump(branch.target))
}

/// How many instructions the code of a condition has that jumps where it has this value.
#[tactic(auto, using(crate::proofs::Views::tree_built))]
#[cycle(condition_size)]
pub fn condition_size(condition: &Expr, when: bool) -> u32
    ensures { result ≡ capped (condition_size (expr_tree condition.now) when) }
{
    match &condition.operation {
        Operation::Prefixed { operator, operand } => match operator {
            Prefix::Not => condition_size(operand, !when),
            Prefix::Minus | Prefix::Complement { .. } => plain_size(condition, when),
        },
        Operation::Binary {
            operator,
            left,
            right,
        } => match decided_by(*operator) {
            Some(value) => {
                condition_size(left, value).saturating_add(condition_size(right, when))
            }
            None => {
                let operands = Operands {
                    operator: *operator,
                    left,
                    right,
                };
                compared_size(operands, when)
            }
        },
        Operation::Constant(_) | Operation::This | Operation::Contents(_) => {
            plain_size(condition, when)
        }
        Operation::PartOf { .. } | Operation::Receive { .. } | Operation::Start(_) => {
            plain_size(condition, when)
        }
        Operation::Call(_) | Operation::Powerset { .. } | Operation::Parts(_) => {
            plain_size(condition, when)
        }
        Operation::Uniform { .. } => plain_size(condition, when),
        Operation::Routine { .. } | Operation::GetInt => plain_size(condition, when),
    }
}

// How many instructions a condition has that is an expression like others.
fn plain_size(condition: &Expr, when: bool) -> u32
    ensures { result ≡ capped (plain_size (expr_tree condition.now) when) }
{
    expr_size(condition).saturating_add(branch_size(when))
}

// How many instructions an operator other than ANDIF and ORIF has, with the jump.
fn compared_size(operands: Operands, when: bool) -> u32
    ensures { result ≡ capped (operands_size operands.entry when) }
{
    let Operands {
        operator,
        left,
        right,
    } = operands;
    expr_size(left)
        .saturating_add(size_between(operator, bounds_of_value(left)))
        .saturating_add(expr_size(right))
        .saturating_add(size_behind(straight(operator)))
        .saturating_add(branch_size(when != is_turned(operator)))
}

/// How many instructions jump by the Boolean on top, where it has this value.
pub fn branch_size(when: bool) -> u32
    ensures { result ≡ branch_size when }
{
    if when { 2 } else { 1 }
}
