// How many instructions statements have: what the targets of jumps are found from.
ghost use Rattle.std.specs.Prelude.{◌≡◌};
ghost use Rattle.program_trees.specs.StatementTree.{statement_tree, action_tree, handler_tree, statements_of};
ghost use Rattle.code_scheme.specs.Pieces.{capped};
ghost use Rattle.code_scheme.specs.StatementSize.{statements_size, statement_size, handler_size, handled_size, action_size, choices_size, cases_size, delays_size, receives_size};
ghost use Rattle.action_gen.specs.Trees.{choices_of, cases_of, delays_of, receives_of, handled_of};
ghost use Rattle.action_gen.specs.Putting.{site_tree};
ghost use Rattle.stmt_gen.specs.Puts.{IsCaseSize, IsChoosingSize, IsElseSize, IsHandledSize, IsReceiveSize, Joins, JoinsAll, choice_size, chosen_size};

use crate::going_on::{action_goes_on, go_on, goes_on};
use crate::joining::Joined;
use action_gen::{control_size, delay_wait_size, labels_size, plain_size, receive_wait_size};
use checked_program::{
    Action, CaseAlternative, Choice, DelayAlternative, Expr, Handler, HandlerAlternative, Location,
    ReceiveAlternative, Statement,
};
use chill_base::List;
use expr_gen::{Site, condition_size, expr_size};

/// How many instructions statements have, as far as control comes.
#[cycle(extent)]
pub fn statements_size(statements: &[Statement], site: &Site) -> u32
    ensures { result ≡ capped (statements_size (site_tree site.now) (statements_of statements.now)) }
{
    let mut size = 0u32;
    for statement in statements {
        size = size.saturating_add(statement_size(statement, site));
        if !goes_on(statement) {
            return size;
        }
    }
    size
}

/// How many instructions a statement has, with its handler.
#[tactic(auto, using(action_gen::proofs::Views::statement_built))]
#[cycle(extent)]
pub fn statement_size(statement: &Statement, site: &Site) -> u32
    ensures { result ≡ capped (statement_size (site_tree site.now) (statement_tree statement.now)) }
{
    let size = action_size(&statement.action, site);
    match &statement.handler {
        Some(handler) => Joined::none()
            .then(size, action_goes_on(&statement.action))
            .then(handled_size(handler, site), false)
            .size,
        None => size,
    }
}

/// How many instructions the alternatives of a handler have.
#[tactic(auto, using(action_gen::proofs::Views::statement_built))]
#[cycle(extent)]
pub fn handled_size(handler: &Handler, site: &Site) -> u32
    ensures { result ≡ capped (handler_size (site_tree site.now) (handler_tree handler.now)) }
{
    let alternatives = handler.alternatives.as_slice();
    match &handler.otherwise {
        Some(actions) => {
            let last = statements_size(actions.as_slice(), site);
            alternatives_size(alternatives, last, site)
        }
        None => alternatives_size(alternatives, 0, site),
    }
}

// How many instructions alternatives of a handler have, with so many behind them.
#[cycle(extent)]
fn alternatives_size(alternatives: &[HandlerAlternative], last: u32, site: &Site) -> u32
    ensures { IsHandledSize site.now alternatives.now last result }
{
    handled_joined(alternatives, site).then(last, false).size
}

#[tactic(auto, using(action_gen::proofs::Views::statement_built))]
#[cycle(extent)]
fn handled_joined(alternatives: &[HandlerAlternative], site: &Site) -> Joined
    ensures { Joins result (handled_size (site_tree site.now) (handled_of alternatives.now)) }
{
    let mut joined = Joined::none();
    for alternative in alternatives {
        let actions = alternative.actions.as_slice();
        joined = joined.then(statements_size(actions, site), go_on(actions));
    }
    joined
}

/// How many instructions an action has. A modulion counts nothing.
#[tactic(auto, using(action_gen::proofs::Views::statement_built))]
#[cycle(extent)]
pub fn action_size(action: &Action, site: &Site) -> u32
    ensures { result ≡ capped (action_size (site_tree site.now) (action_tree action.now)) }
{
    match action {
        Action::If { choices, otherwise } => choices_joined(choices.as_slice(), site)
            .then(statements_size(otherwise.as_slice(), site), false)
            .size,
        Action::Do { control, actions } => control_size(control)
            .saturating_add(statements_size(actions.as_slice(), site))
            .saturating_add(u32::from(go_on(actions.as_slice()))),
        Action::Begin { actions } => statements_size(actions.as_slice(), site),
        Action::Case { .. } | Action::DelayCase { .. } => choosing_size(action, site),
        Action::ReceiveBuffers { .. } | Action::ReceiveSignals { .. } => choosing_size(
            action, site,
        ),
        Action::Nothing | Action::Declare { .. } | Action::Lowest { .. } => plain_size(
            action, site,
        ),
        Action::Assign { .. } | Action::Update { .. } | Action::Call(_) => plain_size(action, site),
        Action::Routine { .. } | Action::Evaluate(_) | Action::PutInt(_) => plain_size(
            action, site,
        ),
        Action::PutText(_) | Action::PutLine | Action::Exit { .. } => plain_size(action, site),
        Action::Return { .. } | Action::Result { .. } => plain_size(action, site),
        Action::Assert(_) | Action::Cause { .. } | Action::Stop => plain_size(action, site),
        Action::Start(_) | Action::Delay { .. } | Action::Continue { .. } => plain_size(
            action, site,
        ),
        Action::Send { .. } => plain_size(action, site),
        Action::Module { .. } | Action::Region { .. } => plain_size(action, site),
    }
}

// How many instructions an action has that chooses among alternatives.
#[tactic(auto, using(action_gen::proofs::Views::statement_built))]
#[cycle(extent)]
fn choosing_size(action: &Action, site: &Site) -> u32
    ensures { IsChoosingSize site.now action.now result }
{
    match action {
        Action::Case {
            selector,
            alternatives,
            otherwise,
        } => match otherwise {
            Some(actions) => {
                let last = statements_size(actions.as_slice(), site);
                case_size(alternatives.as_slice(), selector, last, site)
            }
            // what no label holds raises
            None => case_size(alternatives.as_slice(), selector, 1, site),
        },
        Action::DelayCase {
            set,
            alternatives,
            ..
        } => delay_wait_size(alternatives.as_slice(), set).saturating_add(
            delays_joined(alternatives.as_slice(), site).size,
        ),
        Action::ReceiveBuffers {
            set,
            alternatives,
            otherwise,
        }
        | Action::ReceiveSignals {
            set,
            alternatives,
            otherwise,
        } => match otherwise {
            Some(actions) => {
                let last = statements_size(actions.as_slice(), site);
                receive_case_size(alternatives.as_slice(), set, true, last, site)
            }
            None => receive_case_size(alternatives.as_slice(), set, false, 0, site),
        },
        // These choose among none.
        Action::If { .. } | Action::Do { .. } | Action::Begin { .. } => 0,
        Action::Nothing | Action::Declare { .. } | Action::Lowest { .. } => 0,
        Action::Assign { .. } | Action::Update { .. } | Action::Call(_) => 0,
        Action::Routine { .. } | Action::Evaluate(_) | Action::PutInt(_) => 0,
        Action::PutText(_) | Action::PutLine | Action::Exit { .. } => 0,
        Action::Return { .. } | Action::Result { .. } | Action::Assert(_) => 0,
        Action::Cause { .. } | Action::Stop | Action::Start(_) => 0,
        Action::Delay { .. } | Action::Continue { .. } | Action::Send { .. } => 0,
        Action::Module { .. } | Action::Region { .. } => 0,
    }
}

// How many instructions a CASE has, with so many behind its alternatives.
#[cycle(extent)]
fn case_size(alternatives: &[CaseAlternative], selector: &Expr, last: u32, site: &Site) -> u32
    ensures { IsCaseSize site.now selector.now alternatives.now last result }
{
    expr_size(selector)
        .saturating_add(1)
        .saturating_add(cases_joined(alternatives, site).then(last, false).size)
}

// How many instructions a RECEIVE CASE has, with so many behind its alternatives.
#[cycle(extent)]
fn receive_case_size(
    alternatives: &[ReceiveAlternative],
    set: &Option<Box<Location>>,
    has_else: bool,
    last: u32,
    site: &Site,
) -> u32
    ensures { IsReceiveSize site.now set.now has_else alternatives.now last result }
{
    receive_wait_size(alternatives, set, has_else).saturating_add(
        receives_joined(alternatives, site).then(last, false).size,
    )
}

/// How many instructions actions have that are chosen by a Boolean, without the jump behind them.
#[cycle(extent)]
pub fn chosen_size(actions: &[Statement], site: &Site) -> u32
    ensures { result ≡ capped (chosen_size site.now actions.now) }
{
    statements_size(actions, site).saturating_add(1)
}

/// How many instructions a condition and its actions have, without the jump behind them.
#[tactic(auto, using(action_gen::proofs::Views::statement_built))]
#[cycle(extent)]
pub fn choice_size(choice: &Choice, site: &Site) -> u32
    ensures { result ≡ capped (choice_size site.now choice.now) }
{
    condition_size(&choice.condition, false).saturating_add(statements_size(
        choice.actions.as_slice(),
        site,
    ))
}

#[tactic(auto, using(action_gen::proofs::Views::statement_built))]
#[cycle(extent)]
fn choices_joined(choices: &[Choice], site: &Site) -> Joined
    ensures { Joins result (choices_size (site_tree site.now) (choices_of choices.now)) }
{
    let mut joined = Joined::none();
    for choice in choices {
        joined = joined.then(choice_size(choice, site), go_on(choice.actions.as_slice()));
    }
    joined
}

#[tactic(auto, using(action_gen::proofs::Views::statement_built))]
#[cycle(extent)]
fn cases_joined(alternatives: &[CaseAlternative], site: &Site) -> Joined
    ensures { Joins result (cases_size (site_tree site.now) (cases_of alternatives.now)) }
{
    let mut joined = Joined::none();
    for alternative in alternatives {
        let actions = alternative.actions.as_slice();
        let size = labels_size(alternative.labels.as_slice());
        joined = joined.then(
            size.saturating_add(chosen_size(actions, site)),
            go_on(actions),
        );
    }
    joined
}

#[tactic(auto, using(action_gen::proofs::Views::statement_built))]
#[cycle(extent)]
fn delays_joined(alternatives: &[DelayAlternative], site: &Site) -> Joined
    ensures { JoinsAll result (delays_size (site_tree site.now) (delays_of alternatives.now)) }
{
    let mut joined = Joined::none();
    for alternative in alternatives {
        let actions = alternative.actions.as_slice();
        joined = joined.then(chosen_size(actions, site).saturating_add(3), go_on(actions));
    }
    joined
}

#[tactic(auto, using(action_gen::proofs::Views::statement_built))]
#[cycle(extent)]
fn receives_joined(alternatives: &[ReceiveAlternative], site: &Site) -> Joined
    ensures { Joins result (receives_size (site_tree site.now) (receives_of alternatives.now)) }
{
    let mut joined = Joined::none();
    for alternative in alternatives {
        let actions = alternative.actions.as_slice();
        joined = joined.then(chosen_size(actions, site).saturating_add(3), go_on(actions));
    }
    joined
}

/// How many instructions ELSE has, or so many where none is written.
pub fn otherwise_size(otherwise: &Option<List<Statement>>, none: u32, site: &Site) -> u32
    ensures { IsElseSize site.now otherwise.now none result }
{
    match otherwise {
        Some(actions) => statements_size(actions.as_slice(), site),
        None => none,
    }
}
