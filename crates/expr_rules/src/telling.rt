// How rules are told, and whether they are.
ghost use Rattle.std.specs.Prelude.{◌≡◌, ◌++◌, ◌==◌, not, IfOk, OnOk};
ghost use Rattle.checks_model.specs.Told.{tell_at, told_if};
ghost use Rattle.checks_model.specs.ValueRules.{told_number};
ghost use Rattle.definition_origins.specs.CheckRules.{rule_of};

use chill_base::{Memory, Pos};
use definition_origins::{CheckRule, Told};

/// Tells a rule at a place where it is broken; whether nothing is told.
pub fn tell_if(is_broken: bool, rule: CheckRule, at: Pos, told: &mut Told) -> Result<bool, Memory>
    ensures told { OnOk result (told.new ≡ told.old ++ told_if is_broken (tell_at (rule_of rule) at)) }
    ensures clean { IfOk result (λ is_clean. is_clean ≡ not is_broken) }
{
    if !is_broken {
        return Ok(true);
    }
    told.tell(rule, at)?;
    Ok(false)
}

/// Rule S5 at a place: there are more or fewer parts than there should be. Whether nothing is told.
pub fn tell_wrong_number(
    parts: usize,
    needed: usize,
    at: Pos,
    told: &mut Told,
) -> Result<bool, Memory>
    ensures told { OnOk result (told.new ≡ told.old ++ told_number at parts needed) }
    ensures clean { IfOk result (λ is_clean. is_clean ≡ (parts == needed)) }
{
    tell_if(parts != needed, CheckRule::S5, at, told)
}
