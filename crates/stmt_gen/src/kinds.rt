// Which actions hold others, and which of these wait.
ghost use Rattle.std.specs.Prelude.{◌≡◌};
ghost use Rattle.program_trees.specs.StatementTree.{action_tree};
ghost use Rattle.action_gen.specs.Putting.{holds_statements};
ghost use Rattle.stmt_gen.specs.Kinds.{is_structured};

use checked_program::Action;

/// Whether an action holds statements, a modulion aside.
#[tactic(auto, using(action_gen::proofs::Views::statement_built))]
pub fn holds_statements(action: &Action) -> bool
    ensures { result ≡ holds_statements (action_tree action.now) }
{
    match action {
        Action::If { .. } | Action::Case { .. } | Action::Do { .. } | Action::Begin { .. } => true,
        Action::DelayCase { .. } => true,
        Action::ReceiveBuffers { .. } | Action::ReceiveSignals { .. } => true,
        Action::Nothing | Action::Declare { .. } | Action::Lowest { .. } => false,
        Action::Module { .. } | Action::Region { .. } | Action::Assign { .. } => false,
        Action::Update { .. } | Action::Call(_) | Action::Routine { .. } => false,
        Action::Evaluate(_) | Action::PutInt(_) | Action::PutText(_) | Action::PutLine => false,
        Action::Exit { .. } | Action::Return { .. } | Action::Result { .. } => false,
        Action::Assert(_) | Action::Cause { .. } | Action::Stop | Action::Start(_) => false,
        Action::Delay { .. } | Action::Continue { .. } | Action::Send { .. } => false,
    }
}

/// Whether an action is IF, CASE, DO or BEGIN.
#[tactic(auto, using(action_gen::proofs::Views::statement_built))]
pub fn is_structured(action: &Action) -> bool
    ensures { result ≡ is_structured (action_tree action.now) }
{
    match action {
        Action::If { .. } | Action::Case { .. } | Action::Do { .. } | Action::Begin { .. } => true,
        Action::DelayCase { .. } => false,
        Action::ReceiveBuffers { .. } | Action::ReceiveSignals { .. } => false,
        Action::Nothing | Action::Declare { .. } | Action::Lowest { .. } => false,
        Action::Module { .. } | Action::Region { .. } | Action::Assign { .. } => false,
        Action::Update { .. } | Action::Call(_) | Action::Routine { .. } => false,
        Action::Evaluate(_) | Action::PutInt(_) | Action::PutText(_) | Action::PutLine => false,
        Action::Exit { .. } | Action::Return { .. } | Action::Result { .. } => false,
        Action::Assert(_) | Action::Cause { .. } | Action::Stop | Action::Start(_) => false,
        Action::Delay { .. } | Action::Continue { .. } | Action::Send { .. } => false,
    }
}
