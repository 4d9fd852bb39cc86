// Laws of typed actions. Each is a fact about the definitions, which a caller learns by calling the function.
ghost use Rattle.action_laws.specs.Actions.{ActionTypedLaw};
ghost use Rattle.action_laws.specs.Controls.{ControlTypedLaw};

/// What an action that holds no other is elaborated to, and of which nothing is told, is as its modes say; so is what controls a
/// loop.
pub fn action_law()
    ensures actions { ActionTypedLaw }
    ensures controls { ControlTypedLaw }
{}
