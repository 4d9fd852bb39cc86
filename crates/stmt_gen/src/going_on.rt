// Behind which statements control comes. What stands where it never comes has no code.
ghost use Rattle.std.specs.Prelude.{◌≡◌};
ghost use Rattle.program_trees.specs.StatementTree.{action_tree, statement_tree, statements_of, handler_tree, handler_of, control_tree};
ghost use Rattle.code_scheme.specs.StatementGoing.{go_on, goes_on, handler_goes_on, some_handled_goes_on, action_goes_on, some_choice_goes_on, some_case_goes_on, has_end, has_label, is_modulion};
ghost use Rattle.action_gen.specs.Trees.{choices_of, cases_of, handled_of};

use checked_program::{
    Action, CaseAlternative, Choice, Control, Handler, HandlerAlternative, Statement,
};

/// Whether control may come behind the statements.
#[cycle(going_on)]
pub fn go_on(statements: &[Statement]) -> bool
    ensures { result ≡ go_on (statements_of statements.now) }
{
    for statement in statements {
        if !goes_on(statement) {
            return false;
        }
    }
    true
}

/// Whether control may come behind a statement: behind its action or its handler, or by an EXIT of its label. The name of a
/// modulion is no label.
#[tactic(auto, using(action_gen::proofs::Views::statement_built))]
#[cycle(going_on)]
pub fn goes_on(statement: &Statement) -> bool
    ensures { result ≡ goes_on (statement_tree statement.now) }
{
    has_label(statement.labelled, &statement.action)
        || action_goes_on(&statement.action)
        || some_handler_goes_on(&statement.handler)
}

// Whether control may come behind an action by an EXIT of its label.
#[tactic(auto, using(action_gen::proofs::Views::statement_built))]
fn has_label(labelled: bool, action: &Action) -> bool
    ensures { result ≡ has_label labelled (action_tree action.now) }
{
    labelled && !is_modulion(action)
}

/// Whether an action is a modulion.
#[tactic(auto, using(action_gen::proofs::Views::statement_built))]
pub fn is_modulion(action: &Action) -> bool
    ensures { result ≡ is_modulion (action_tree action.now) }
{
    match action {
        Action::Module { .. } | Action::Region { .. } => true,
        Action::Nothing | Action::Declare { .. } | Action::Lowest { .. } => false,
        Action::Assign { .. } | Action::Update { .. } | Action::Call(_) => false,
        Action::Routine { .. } | Action::Evaluate(_) | Action::PutInt(_) => false,
        Action::PutText(_) | Action::PutLine | Action::Exit { .. } => false,
        Action::Return { .. } | Action::Result { .. } | Action::Assert(_) => false,
        Action::Cause { .. } | Action::Stop | Action::Start(_) => false,
        Action::Delay { .. } | Action::Continue { .. } | Action::Send { .. } => false,
        Action::If { .. } | Action::Case { .. } | Action::Do { .. } => false,
        Action::Begin { .. } | Action::DelayCase { .. } => false,
        Action::ReceiveBuffers { .. } | Action::ReceiveSignals { .. } => false,
    }
}

/// Whether control may come behind a handler, where there is one.
#[cycle(going_on)]
pub fn some_handler_goes_on(handler: &Option<Box<Handler>>) -> bool
    ensures { result ≡ handler_goes_on (handler_of handler.now) }
{
    match handler {
        Some(handler) => handler_goes_on(handler),
        None => false,
    }
}

// Whether control may come behind a handler.
#[tactic(auto, using(action_gen::proofs::Views::statement_built))]
#[cycle(going_on)]
fn handler_goes_on(handler: &Handler) -> bool
    ensures { result ≡ handler_goes_on (handler_tree handler.now) }
{
    let rest = match &handler.otherwise {
        Some(actions) => go_on(actions.as_slice()),
        None => false,
    };
    rest || some_alternative_goes_on(handler.alternatives.as_slice())
}

#[tactic(auto, using(action_gen::proofs::Views::statement_built))]
#[cycle(going_on)]
fn some_alternative_goes_on(alternatives: &[HandlerAlternative]) -> bool
    ensures { result ≡ some_handled_goes_on (handled_of alternatives.now) }
{
    for alternative in alternatives {
        if go_on(alternative.actions.as_slice()) {
            return true;
        }
    }
    false
}

/// Whether control may come behind an action, an EXIT of a label aside.
#[tactic(auto, using(action_gen::proofs::Views::statement_built))]
#[cycle(going_on)]
pub fn action_goes_on(action: &Action) -> bool
    ensures { result ≡ action_goes_on (action_tree action.now) }
{
    match action {
        Action::Exit { .. } | Action::Return { .. } | Action::Cause { .. } | Action::Stop => false,
        Action::If { choices, otherwise } => {
            go_on(otherwise.as_slice()) || some_choice_goes_on(choices.as_slice())
        }
        Action::Case {
            alternatives,
            otherwise,
            ..
        } => {
            let rest = match otherwise {
                Some(actions) => go_on(actions.as_slice()),
                None => false,
            };
            rest || some_case_goes_on(alternatives.as_slice())
        }
        Action::Do { control, .. } => has_end(control),
        Action::Begin { actions } | Action::Module { actions } => go_on(actions.as_slice()),
        Action::Nothing | Action::Declare { .. } | Action::Lowest { .. } => true,
        Action::Region { .. } | Action::Assign { .. } | Action::Update { .. } => true,
        Action::Call(_) | Action::Routine { .. } | Action::Evaluate(_) => true,
        Action::PutInt(_) | Action::PutText(_) | Action::PutLine => true,
        Action::Result { .. } | Action::Assert(_) | Action::Start(_) => true,
        Action::Delay { .. } | Action::Continue { .. } | Action::Send { .. } => true,
        Action::DelayCase { .. } => true,
        Action::ReceiveBuffers { .. } | Action::ReceiveSignals { .. } => true,
    }
}

// Whether the control of a DO ends it some time.
fn has_end(control: &Control) -> bool
    ensures { result ≡ has_end (control_tree control.now) }
{
    match control {
        Control::Forever => false,
        Control::While(_) | Control::Members { .. } | Control::Steps { .. } => true,
    }
}

#[tactic(auto, using(action_gen::proofs::Views::statement_built))]
#[cycle(going_on)]
fn some_choice_goes_on(choices: &[Choice]) -> bool
    ensures { result ≡ some_choice_goes_on (choices_of choices.now) }
{
    for choice in choices {
        if go_on(choice.actions.as_slice()) {
            return true;
        }
    }
    false
}

#[tactic(auto, using(action_gen::proofs::Views::statement_built))]
#[cycle(going_on)]
fn some_case_goes_on(alternatives: &[CaseAlternative]) -> bool
    ensures { result ≡ some_case_goes_on (cases_of alternatives.now) }
{
    for alternative in alternatives {
        if go_on(alternative.actions.as_slice()) {
            return true;
        }
    }
    false
}
