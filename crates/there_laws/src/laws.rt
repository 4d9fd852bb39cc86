// Laws of what is there where nothing is told. Each is a fact about the definitions, which a caller learns by calling the function.
ghost use Rattle.there_laws.specs.Constants.{ConstantThereLaw};
ghost use Rattle.there_laws.specs.Modes.{WrittenThereLaw};
ghost use Rattle.there_laws.specs.Names.{ControlsLaw, NameModesLaw, NamesKnownLaw, NumbersThereLaw, ReceivedLaw, ResultsLaw, SignalsLaw};
ghost use Rattle.there_laws.specs.Plain.{CountersThereLaw, NamedSoLaw, TextThereLaw};
ghost use Rattle.there_laws.specs.Shapes.{ConstantShapeLaw};
ghost use Rattle.there_laws.specs.Table.{TableThereLaw};
ghost use Rattle.there_laws.specs.Told.{UntoldLaw};

/// An expression of constant form in which nothing is told has a value, where what it names has one; and the value of a
/// constant is a number, a powerset or parts, as its class says.
pub fn constants_law()
    ensures value { ConstantThereLaw }
    ensures shape { ConstantShapeLaw }
{}

/// A mode that a text writes, and of which nothing is told, is there, where what it names is.
pub fn modes_law()
    ensures { WrittenThereLaw }
{}

/// In a table that an order of its definitions leads through, and of which nothing is told, what constants and modes need of
/// names is there of each name. In a text that breaks no rule on names these stand for modes where they have to, and an order
/// leads through its definitions; so what is needed is there in a text that breaks no rule on names, modes and constants, and
/// where its counters are known too.
pub fn table_law()
    ensures table { TableThereLaw }
    ensures named { NamedSoLaw }
    ensures text { TextThereLaw }
    ensures counters { CountersThereLaw }
{}

/// Where the list of a program's modes and constants is empty nothing is told of the modes and values that its definitions are
/// defined by.
pub fn told_law()
    ensures { UntoldLaw }
{}

/// In a text that breaks no rule on names, modes and constants what is needed of definitions and names is there in the ground
/// that knows counters too: by numbers; what is known of names that constants and modes look up; the modes of what names stand
/// for, those of results and those of the parts of signals. Where no rule is broken received names have modes, and nothing is
/// told of the loops of counters.
pub fn names_law()
    ensures numbers { NumbersThereLaw }
    ensures known { NamesKnownLaw }
    ensures modes { NameModesLaw }
    ensures results { ResultsLaw }
    ensures signals { SignalsLaw }
    ensures received { ReceivedLaw }
    ensures controls { ControlsLaw }
{}
