// Statements: one recursion over them, with the handlers and the alternatives in them.
ghost use Rattle.std.specs.Prelude.{◌≡◌, true, false, OnOk};
ghost use Rattle.program_trees.specs.StatementTree.{action_tree};
ghost use Rattle.action_gen.specs.Putting.{holds_statements};
ghost use Rattle.stmt_gen.specs.Kinds.{is_structured};
ghost use Rattle.stmt_gen.specs.Appending.{KeepsFront};
ghost use Rattle.stmt_gen.specs.Holding.{PutsStatements, PutsStatement, PutsGuarded, PutsAction, PutsActionTo, PutsHandler, PutsHandled, PutsJoining, PutsChosen, PutsChoice, PutsChoices, PutsCases, PutsDo, PutsDelays, PutsReceives, PutsReceiveCase};

use crate::again::Span;
use crate::going_on::{action_goes_on, go_on, goes_on};
use crate::handlers::put_rows;
use crate::joining::{leaving_size, next_place, put_leaving};
use crate::kinds::{holds_statements, is_structured};
use crate::sizes::{
    action_size, choice_size, chosen_size, handled_size, otherwise_size, statement_size,
    statements_size,
};
use action_gen::{
    Around, Receives, chosen_local, control_size, locals_kept, put_before_turns, put_delay_wait,
    put_is_chosen, put_labels, put_plain, put_receive_wait, put_selector, put_turn_test, with_exit,
};
use checked_program::{
    Action, CaseAlternative, Choice, Control, DelayAlternative, Handler, HandlerAlternative,
    Location, ReceiveAlternative, Statement,
};
use chill_base::List;
use code_types::Instr;
use expr_gen::{Branch, Draft, PartRefusal, put_condition};

/// The number of RANGEFAIL.
const RANGEFAIL: u32 = 1;

/// Appends the code of statements, as far as control comes.
#[tactic(auto, using(crate::proofs::Front::keeping_front))]
#[cycle(statement)]
pub fn put_statements(
    statements: &[Statement],
    around: &Around,
    draft: &mut Draft,
) -> Result<(), PartRefusal>
    ensures puts { OnOk result (PutsStatements around.now statements.now draft.old draft.new) }
    ensures keeps { KeepsFront draft.old.code draft.new.code }
{
    for statement in statements {
        put_statement(statement, around, draft)?;
        if !goes_on(statement) {
            return Ok(());
        }
    }
    Ok(())
}

/// Appends the code of a statement, whose label encloses its handler too.
#[tactic(auto, using(crate::proofs::Front::keeping_front))]
#[cycle(statement)]
pub fn put_statement(
    statement: &Statement,
    around: &Around,
    draft: &mut Draft,
) -> Result<(), PartRefusal>
    ensures puts { OnOk result (PutsStatement around.now statement.now draft.old draft.new) }
    ensures keeps { KeepsFront draft.old.code draft.new.code }
{
    if !statement.labelled {
        return put_guarded(statement, around, draft);
    }
    let behind = draft.target_behind(statement_size(statement, &around.site))?;
    let exits = with_exit(draft.allocator(), around.exits, behind)?;
    let inside = Around {
        site: around.site,
        free: around.free,
        exits: &exits,
    };
    put_guarded(statement, &inside, draft)
}

// An action with its handler.
#[tactic(auto, using(crate::proofs::Front::keeping_front))]
#[cycle(statement)]
fn put_guarded(statement: &Statement, around: &Around, draft: &mut Draft) -> Result<(), PartRefusal>
    ensures puts { OnOk result (PutsGuarded around.now statement.now draft.old draft.new) }
    ensures keeps { KeepsFront draft.old.code draft.new.code }
{
    let from = draft.target_behind(0)?;
    put_action(&statement.action, around, draft)?;
    match &statement.handler {
        Some(handler) => {
            let comes = action_goes_on(&statement.action);
            put_handler(handler, from, comes, around, draft)
        }
        None => Ok(()),
    }
}

/// Appends a handler of what stands from this place up to the present one, and control goes on behind it. It is told
/// whether control comes from there.
#[tactic(auto, using(crate::proofs::Front::keeping_front))]
#[cycle(statement)]
pub fn put_handler(
    handler: &Handler,
    from: u32,
    comes: bool,
    around: &Around,
    draft: &mut Draft,
) -> Result<(), PartRefusal>
    ensures puts { OnOk result (PutsHandler around.now handler.now from comes draft.old draft.new) }
    ensures keeps { KeepsFront draft.old.code draft.new.code }
{
    let until = draft.target_behind(0)?;
    let size = handled_size(handler, &around.site);
    let jump = leaving_size(comes, size);
    let behind = draft.target_behind(jump.saturating_add(size))?;
    let span = Span {
        from,
        until,
        target: draft.target_behind(jump)?,
    };
    put_rows(handler, span, behind, &around.site, draft)?;
    put_leaving(comes, behind, draft)?;
    put_handled(handler.alternatives.as_slice(), behind, around, draft)?;
    match &handler.otherwise {
        Some(actions) => put_statements(actions.as_slice(), around, draft),
        None => Ok(()),
    }
}

// The alternatives of a handler. ELSE is left to who holds the handler, whose depth bounds both.
#[tactic(auto, using(crate::proofs::Front::keeping_front))]
#[cycle(statement)]
fn put_handled(
    alternatives: &[HandlerAlternative],
    behind: u32,
    around: &Around,
    draft: &mut Draft,
) -> Result<(), PartRefusal>
    ensures puts { OnOk result
        (PutsHandled around.now alternatives.now behind draft.old draft.new) }
    ensures keeps { KeepsFront draft.old.code draft.new.code }
{
    for alternative in alternatives {
        put_joining(alternative.actions.as_slice(), behind, around, draft)?;
    }
    Ok(())
}

// Actions, behind which control goes on at a place.
#[tactic(auto, using(crate::proofs::Front::keeping_front))]
#[cycle(statement)]
fn put_joining(
    actions: &[Statement],
    behind: u32,
    around: &Around,
    draft: &mut Draft,
) -> Result<(), PartRefusal>
    ensures puts { OnOk result (PutsJoining around.now actions.now behind draft.old draft.new) }
    ensures keeps { KeepsFront draft.old.code draft.new.code }
{
    put_statements(actions, around, draft)?;
    put_leaving(go_on(actions), behind, draft)
}

// Actions that are done where the Boolean on top is TRUE, and behind which control goes on at a place.
#[tactic(auto, using(crate::proofs::Front::keeping_front))]
#[cycle(statement)]
fn put_chosen(
    actions: &[Statement],
    behind: u32,
    around: &Around,
    draft: &mut Draft,
) -> Result<(), PartRefusal>
    ensures puts { OnOk result (PutsChosen around.now actions.now behind draft.old draft.new) }
    ensures keeps { KeepsFront draft.old.code draft.new.code }
{
    let size = chosen_size(actions, &around.site);
    draft.put(Instr::Unless(next_place(size, go_on(actions), behind, draft)))?;
    put_joining(actions, behind, around, draft)
}

// The code of an action.
#[tactic(auto, using(crate::proofs::Front::keeping_front))]
#[cycle(statement)]
fn put_action(action: &Action, around: &Around, draft: &mut Draft) -> Result<(), PartRefusal>
    ensures puts { OnOk result (PutsAction around.now action.now draft.old draft.new) }
    ensures keeps { KeepsFront draft.old.code draft.new.code }
{
    if !holds_statements(action) {
        return put_plain(action, around, draft);
    }
    let behind = draft.target_behind(action_size(action, &around.site))?;
    if is_structured(action) {
        put_structured(action, behind, around, draft)
    } else {
        put_waiting(action, behind, around, draft)
    }
}

// The code of IF, CASE, DO or BEGIN, behind which is this place.
#[tactic(auto, using(crate::proofs::Front::keeping_front, action_gen::proofs::Views::statement_built))]
#[cycle(statement)]
fn put_structured(
    action: &Action,
    behind: u32,
    around: &Around,
    draft: &mut Draft,
) -> Result<(), PartRefusal>
    requires { is_structured (action_tree action.now) ≡ true }
    ensures puts { OnOk result (PutsActionTo around.now action.now behind draft.old draft.new) }
    ensures keeps { KeepsFront draft.old.code draft.new.code }
{
    match action {
        Action::If { choices, otherwise } => {
            put_choices(choices.as_slice(), behind, around, draft)?;
            put_statements(otherwise.as_slice(), around, draft)
        }
        Action::Do { control, actions } => {
            put_do(actions.as_slice(), control, behind, around, draft)
        }
        Action::Begin { actions } => put_statements(actions.as_slice(), around, draft),
        Action::Case {
            selector,
            alternatives,
            otherwise,
        } => {
            put_selector(selector, around, draft)?;
            put_cases(alternatives.as_slice(), behind, around, draft)?;
            match otherwise {
                Some(actions) => put_statements(actions.as_slice(), around, draft),
                None => draft.put(Instr::Raise(RANGEFAIL)),
            }
        }
        // These aren't structured.
        Action::DelayCase { .. } => Ok(()),
        Action::ReceiveBuffers { .. } | Action::ReceiveSignals { .. } => Ok(()),
        Action::Nothing | Action::Declare { .. } | Action::Lowest { .. } => Ok(()),
        Action::Module { .. } | Action::Region { .. } | Action::Assign { .. } => Ok(()),
        Action::Update { .. } | Action::Call(_) | Action::Routine { .. } => Ok(()),
        Action::Evaluate(_) | Action::PutInt(_) | Action::PutText(_) | Action::PutLine => Ok(()),
        Action::Exit { .. } | Action::Return { .. } | Action::Result { .. } => Ok(()),
        Action::Assert(_) | Action::Cause { .. } | Action::Stop | Action::Start(_) => Ok(()),
        Action::Delay { .. } | Action::Continue { .. } | Action::Send { .. } => Ok(()),
    }
}

// The code of an action that waits for one of several, behind which is this place.
#[tactic(auto, using(crate::proofs::Front::keeping_front, action_gen::proofs::Views::statement_built))]
#[cycle(statement)]
fn put_waiting(
    action: &Action,
    behind: u32,
    around: &Around,
    draft: &mut Draft,
) -> Result<(), PartRefusal>
    requires holds { holds_statements (action_tree action.now) ≡ true }
    requires waits { is_structured (action_tree action.now) ≡ false }
    ensures puts { OnOk result (PutsActionTo around.now action.now behind draft.old draft.new) }
    ensures keeps { KeepsFront draft.old.code draft.new.code }
{
    match action {
        Action::DelayCase {
            set,
            priority,
            alternatives,
        } => {
            put_delay_wait(alternatives.as_slice(), set, *priority, around, draft)?;
            let chosen = chosen_local(set, around)?;
            put_delays(alternatives.as_slice(), chosen, behind, around, draft)
        }
        Action::ReceiveBuffers {
            set,
            alternatives,
            otherwise,
        } => {
            let wait = Wait {
                set,
                receives: Receives::Buffers(otherwise.is_some()),
                behind,
            };
            put_receive_case(alternatives.as_slice(), otherwise, wait, around, draft)?;
            match otherwise {
                Some(actions) => put_statements(actions.as_slice(), around, draft),
                None => Ok(()),
            }
        }
        Action::ReceiveSignals {
            set,
            alternatives,
            otherwise,
        } => {
            let wait = Wait {
                set,
                receives: Receives::Signals(otherwise.is_some()),
                behind,
            };
            put_receive_case(alternatives.as_slice(), otherwise, wait, around, draft)?;
            match otherwise {
                Some(actions) => put_statements(actions.as_slice(), around, draft),
                None => Ok(()),
            }
        }
        // These don't wait for one of several.
        Action::If { .. } | Action::Case { .. } | Action::Do { .. } | Action::Begin { .. } => Ok(
            (),
        ),
        Action::Nothing | Action::Declare { .. } | Action::Lowest { .. } => Ok(()),
        Action::Module { .. } | Action::Region { .. } | Action::Assign { .. } => Ok(()),
        Action::Update { .. } | Action::Call(_) | Action::Routine { .. } => Ok(()),
        Action::Evaluate(_) | Action::PutInt(_) | Action::PutText(_) | Action::PutLine => Ok(()),
        Action::Exit { .. } | Action::Return { .. } | Action::Result { .. } => Ok(()),
        Action::Assert(_) | Action::Cause { .. } | Action::Stop | Action::Start(_) => Ok(()),
        Action::Delay { .. } | Action::Continue { .. } | Action::Send { .. } => Ok(()),
    }
}

// What a RECEIVE CASE waits for: the location after SET, which instruction it has, and the place behind it.
#[derive(Clone, Copy)]
struct Wait<'a> {
    set: &'a Option<Box<Location>>,
    receives: Receives,
    behind: u32,
}

// A RECEIVE CASE: the wait and the alternatives. ELSE is left to who holds the action.
#[tactic(auto, using(crate::proofs::Front::keeping_front))]
#[cycle(statement)]
fn put_receive_case(
    alternatives: &[ReceiveAlternative],
    otherwise: &Option<List<Statement>>,
    wait: Wait,
    around: &Around,
    draft: &mut Draft,
) -> Result<(), PartRefusal>
    ensures puts { OnOk result
        (PutsReceiveCase around.now alternatives.now otherwise.now wait.entry draft.old draft.new) }
    ensures keeps { KeepsFront draft.old.code draft.new.code }
{
    let last = otherwise_size(otherwise, 0, &around.site);
    let nothing = wait.behind.saturating_sub(last);
    put_receive_wait(
        alternatives,
        wait.set,
        wait.receives,
        nothing,
        around,
        draft,
    )?;
    let chosen = chosen_local(wait.set, around)?;
    put_receives(
        alternatives,
        Kept {
            chosen,
            behind: wait.behind,
        },
        around,
        draft,
    )
}

// The scratch local that keeps the number of the chosen alternative, and the place behind all alternatives.
#[derive(Clone, Copy)]
struct Kept {
    chosen: u32,
    behind: u32,
}

// The conditions of an IF with their actions.
#[tactic(auto, using(crate::proofs::Front::keeping_front))]
#[cycle(statement)]
fn put_choices(
    choices: &[Choice],
    behind: u32,
    around: &Around,
    draft: &mut Draft,
) -> Result<(), PartRefusal>
    ensures puts { OnOk result (PutsChoices around.now choices.now behind draft.old draft.new) }
    ensures keeps { KeepsFront draft.old.code draft.new.code }
{
    for choice in choices {
        put_choice(choice, behind, around, draft)?;
    }
    Ok(())
}

// A condition, and the actions that are done where it is TRUE.
#[tactic(auto, using(crate::proofs::Front::keeping_front))]
#[cycle(statement)]
fn put_choice(
    choice: &Choice,
    behind: u32,
    around: &Around,
    draft: &mut Draft,
) -> Result<(), PartRefusal>
    ensures puts { OnOk result (PutsChoice around.now choice.now behind draft.old draft.new) }
    ensures keeps { KeepsFront draft.old.code draft.new.code }
{
    let actions = choice.actions.as_slice();
    let size = choice_size(choice, &around.site);
    let branch = Branch {
        when: false,
        target: next_place(size, go_on(actions), behind, draft),
    };
    put_condition(&choice.condition, branch, &around.site, around.free, draft)?;
    put_joining(actions, behind, around, draft)
}

// The alternatives of a CASE, whose selector is kept.
#[tactic(auto, using(crate::proofs::Front::keeping_front))]
#[cycle(statement)]
fn put_cases(
    alternatives: &[CaseAlternative],
    behind: u32,
    around: &Around,
    draft: &mut Draft,
) -> Result<(), PartRefusal>
    ensures puts { OnOk result (PutsCases around.now alternatives.now behind draft.old draft.new) }
    ensures keeps { KeepsFront draft.old.code draft.new.code }
{
    for alternative in alternatives {
        put_labels(alternative.labels.as_slice(), around.free, draft)?;
        put_chosen(alternative.actions.as_slice(), behind, around, draft)?;
    }
    Ok(())
}

// A loop, behind which is this place.
#[tactic(auto, using(crate::proofs::Front::keeping_front))]
#[cycle(statement)]
fn put_do(
    actions: &[Statement],
    control: &Control,
    behind: u32,
    around: &Around,
    draft: &mut Draft,
) -> Result<(), PartRefusal>
    ensures puts { OnOk result (PutsDo around.now control.now actions.now behind draft.old draft.new) }
    ensures keeps { KeepsFront draft.old.code draft.new.code }
{
    let inside = around.taking(locals_kept(control))?;
    put_before_turns(control, behind, around, draft)?;
    let again = draft.target_behind(0)?;
    put_turn_test(control, behind, around, draft)?;
    put_statements(actions, &inside, draft)?;
    if go_on(actions) {
        draft.put(Instr::Again(again))
    } else {
        Ok(())
    }
}

// The alternatives of a DELAY CASE, of which the chosen one's number is kept.
#[tactic(auto, using(crate::proofs::Front::keeping_front))]
#[cycle(statement)]
fn put_delays(
    alternatives: &[DelayAlternative],
    chosen: u32,
    behind: u32,
    around: &Around,
    draft: &mut Draft,
) -> Result<(), PartRefusal>
    ensures puts { OnOk result (PutsDelays around.now alternatives.now chosen behind draft.old draft.new) }
    ensures keeps { KeepsFront draft.old.code draft.new.code }
{
    for number in 0..alternatives.len() {
        put_is_chosen(chosen, number, draft)?;
        put_chosen(
            alternatives[number].actions.as_slice(),
            behind,
            around,
            draft,
        )?;
    }
    Ok(())
}

// The alternatives of a RECEIVE CASE, of which the chosen one's number is kept.
#[tactic(auto, using(crate::proofs::Front::keeping_front))]
#[cycle(statement)]
fn put_receives(
    alternatives: &[ReceiveAlternative],
    kept: Kept,
    around: &Around,
    draft: &mut Draft,
) -> Result<(), PartRefusal>
    ensures puts { OnOk result
        (PutsReceives around.now alternatives.now kept draft.old draft.new) }
    ensures keeps { KeepsFront draft.old.code draft.new.code }
{
    for number in 0..alternatives.len() {
        put_is_chosen(kept.chosen, number, draft)?;
        put_chosen(
            alternatives[number].actions.as_slice(),
            kept.behind,
            around,
            draft,
        )?;
    }
    Ok(())
}
