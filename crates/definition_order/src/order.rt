// The order in which definitions are evaluated: each behind those that it needs.
ghost use Rattle.std.specs.Prelude.{◌<◌, ℕ, List, [], IfOk, length};
ghost use Rattle.std.specs.List.{Contains};
ghost use Rattle.checks_model.specs.Ground.{Ground};
ghost use Rattle.table_laws.specs.OneTable.{EachOnce, IsOrder};
ghost use Rattle.graph_order.specs.Needs.{NeedsBefore};
ghost use Rattle.definition_order.specs.Needs.{needs_in, IsGroundWith};

use crate::needs::needs_of_all;
use chill_base::{Memory, Numbers};
use definition_origins::Origins;
use graph_order::ordered;
use names_model::Names;
use std::alloc::Global;

/// The numbers of all definitions, each once. Where there is an order in which each stands behind those that it needs, this is
/// one; and each stands behind the first of its clause, and behind the predefined names that it looks up. It answers `Memory`
/// also where no `u32` numbers all definitions.
pub fn in_order(alloc: Global, names: &Names, origins: &Origins<'_>) -> Result<Numbers, Memory>
    ensures once { IfOk result (EachOnce []) }
    ensures all { IfOk result (λ order. (d : ℕ) → d < length origins.now → Contains order d) }
    ensures earlier { (g : Ground) (o : List ℕ) → IsGroundWith g names.now.uses origins.now → IsOrder g o → IfOk result (IsOrder g) }
    ensures waits { (g : Ground) (o : List ℕ) → IsGroundWith g names.now.uses origins.now → IsOrder g o → IfOk result (NeedsBefore (needs_in names.now.uses origins.now) []) }
{
    let needs = needs_of_all(alloc, names.uses.as_slice(), origins.as_slice())?;
    let order = ordered(alloc, &needs)?;
    Ok(order)
}
