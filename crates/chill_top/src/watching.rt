// The watchers are shown the journal of a run.
ghost use Rattle.std.specs.Prelude.{◌≡◌, ◌<◌, ◌^◌, ◌++◌, false, length, map, IfOk, OnOk, OnErr};
ghost use Rattle.chill_top.specs.Outcomes.{IsPartlyShown, dropped_of, shown_of, told_by, watchers_after};

use crate::plan::Plan;
use chill_base::{Memory, Numbers, Text};
use outside_ports::Watcher;
use std::alloc::Global;
use watchers::{show_all, tell_all};

/// Shows the watchers the journal of a plan's run, where there is one that is watched, and appends the texts of those that
/// stayed to the report. It answers the places of those that were dropped.
pub(crate) fn show(
    alloc: Global,
    watch: bool,
    plan: &Plan,
    watchers: &mut Vec<Box<dyn Watcher>>,
    report: &mut Text,
) -> Result<Numbers, Memory>
    requires few { length watchers.old.items < 2 ^ 32 }
    ensures dropped { IfOk result (λ dropped. dropped
        ≡ dropped_of (shown_of watch plan.now) (map (λ b. watching b) watchers.old.items)) }
    ensures stayed { OnOk result (map (λ b. watching b) watchers.new.items
        ≡ watchers_after (shown_of watch plan.now) (map (λ b. watching b) watchers.old.items)) }
    ensures told { OnOk result (report.new ≡ report.old
        ++ told_by (shown_of watch plan.now) (map (λ b. watching b) watchers.old.items)) }
    ensures partly { OnErr result (IsPartlyShown (shown_of watch plan.now)
        (map (λ b. watching b) watchers.old.items) (map (λ b. watching b) watchers.new.items)) }
    ensures unwatched { watch ≡ false → watchers.new ≡ watchers.old }
{
    if !watch {
        return Ok(Numbers::new(alloc));
    }
    match plan {
        Plan::Ran(ran) => {
            let shown = show_all(watchers, ran.driven.events.as_slice())?;
            tell_all(watchers, report)?;
            Ok(shown.dropped)
        }
        Plan::Usage
        | Plan::Refused(_)
        | Plan::Accepted
        | Plan::Listed(_)
        | Plan::Formatted(_)
        | Plan::InputTooLong
        | Plan::JournalTooLong
        | Plan::Judged(_) => Ok(Numbers::new(alloc)),
    }
}
