// What names stand for, and what a place needs of a name (our own list of kinds).
ghost use Rattle.std.specs.Prelude.{◌≡◌};

/// What a name stands for.
#[derive(Clone, Copy, Debug, PartialEq, Eq)]
pub enum Kind {
    Synonym,
    /// A mode of SYNMODE or NEWMODE.
    Mode,
    /// An element of a SET.
    Element,
    Location,
    Parameter,
    /// The counter of a loop.
    Counter,
    /// A name of an alternative of RECEIVE CASE.
    Received,
    Procedure,
    Process,
    Signal,
    /// A module or a region.
    Modulion,
    PredefinedMode,
    PredefinedConstant,
    PredefinedRoutine,
    /// UPPER, LOWER or SIZE, predefined routines whose argument may be a mode.
    MeasuringRoutine,
}

/// What a place needs of the name that is used there.
#[derive(Clone, Copy, Debug, PartialEq, Eq)]
pub enum Need {
    /// It stands as a mode, or before a tuple.
    Mode,
    /// It stands after START, or after the TO of a signal's definition.
    Process,
    /// It is called as an action.
    Action,
    /// It is delayed on, continued or received from as a value.
    Location,
    /// It is sent to, or received from in a RECEIVE CASE.
    Message,
    /// It begins a value or a location.
    Value,
}

impl Need {
    ghost use Rattle.names_model.specs.Kinds.{fits};

    /// Whether a name of the kind may stand where this is needed.
    pub fn fits(self, kind: Kind) -> bool
        ensures { result ≡ fits self kind }
    {
        match self {
            Need::Mode => matches!(kind, Kind::Mode | Kind::PredefinedMode),
            Need::Process => matches!(kind, Kind::Process),
            Need::Action => matches!(
                kind,
                Kind::Procedure | Kind::PredefinedRoutine | Kind::MeasuringRoutine
            ),
            Need::Location => matches!(kind, Kind::Location),
            Need::Message => matches!(kind, Kind::Location | Kind::Signal),
            Need::Value => matches!(
                kind,
                Kind::Location
                    | Kind::Parameter
                    | Kind::Counter
                    | Kind::Received
                    | Kind::Synonym
                    | Kind::Element
                    | Kind::Procedure
                    | Kind::PredefinedConstant
                    | Kind::PredefinedRoutine
                    | Kind::MeasuringRoutine
            ),
        }
    }
}
