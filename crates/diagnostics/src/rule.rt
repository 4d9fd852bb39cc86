// The rules that a program text can break, by their names (our own list), and what is told of each.
ghost use Rattle.std.specs.Prelude.{◌≡◌, ◌↔◌, IfOk, IsTrue};
ghost use Rattle.diagnostics.specs.Rules.{name_of, text_of};

use chill_base::{Item, Memory};

/// A rule of the language, in the order in which diagnostics of one place are sorted.
#[derive(Clone, Copy, PartialEq, Eq, PartialOrd, Ord)]
pub enum Rule {
    /// A byte begins no token.
    T1,
    /// No tree exists.
    T2,
    /// A name gets a second entry in one reach for another definition.
    N1,
    /// A used name isn't seen.
    N2,
    /// A seized name isn't seen outside, or a granted one isn't seen inside.
    N3,
    /// No action of that label encloses the EXIT in its body.
    N4,
    /// A name's kind isn't the one that its place needs.
    N5,
    /// A synonym or mode depends on itself.
    N6,
    /// A constant is needed and isn't there.
    M1,
    /// A lower bound is above its upper.
    M2,
    /// A bound doesn't go with its parent mode or lies outside it.
    M3,
    /// A member, index or parent mode isn't discrete.
    M4,
    /// A powerset has more than 32 members.
    M5,
    /// A length isn't 0 to 256 (CHARS), 1 to 4,096 (array), 1 to 1,000 (EVENT), 0 to 1,000 (BUFFER).
    M6,
    /// A structure has two fields of one name.
    M7,
    /// An event or buffer mode stands elsewhere than in DCL, SYNMODE or NEWMODE as the whole mode.
    M8,
    /// A READ location has no initialisation.
    M9,
    /// Operands in a constant break the rules of their operator.
    M10,
    /// A constant expression anywhere would raise an exception, or a literal is outside INT.
    M11,
    /// A synonym's value doesn't go with its written mode or lies outside it.
    M12,
    /// A field shares a bit with earlier ones, the first of which is {1}.
    M13,
    /// A field or element has a place that its word or its mode does not allow.
    M14,
    /// Operands or a routine's arguments break the rules of their operator or routine.
    S1,
    /// A value doesn't go with the mode that receives it.
    S2,
    /// A target is READ, a counter, a received name or no location.
    S3,
    /// A condition isn't of root BOOL.
    S4,
    /// A call, START, SEND, IN list or index has the wrong number of parts.
    S5,
    /// An OUT or INOUT argument isn't a writable location of a v-equivalent mode.
    S6,
    /// A selector isn't discrete or a label isn't compatible with it.
    S7,
    /// The bounds of FOR aren't compatible discrete values, BY isn't INT, or IN has no powerset.
    S8,
    /// RETURN outside a procedure; a value in RETURN or RESULT without RETURNS.
    S9,
    /// A call without RETURNS stands as a value.
    S10,
    /// A tuple has no mode, or its parts don't match the mode; a range in a tuple that is no powerset.
    S11,
    /// One handler lists an exception twice.
    S12,
    /// A process is defined in a region.
    P1,
    /// A region holds an action or a modulion.
    P2,
    /// DELAY or CONTINUE of no event; SEND or RECEIVE of no buffer or signal.
    P3,
    /// A region grants its location by name.
    P4,
    /// A DELAY CASE or RECEIVE CASE lists a name twice, or buffers and signals.
    P5,
    /// A priority isn't 0 to 1,000,000.
    P6,
    /// SET names no INSTANCE location that can be written.
    P7,
    /// An event or buffer is declared in a body.
    P8,
    /// The text has more than 262,144 bytes.
    L1,
    /// Nesting reaches 65.
    L2,
    /// There is a 4,097th definition.
    L3,
    /// A body has more than 512 local scalars.
    L4,
    /// A mode has more than 4,096 scalars.
    L5,
    /// A value has more than 256 scalars.
    L6,
    /// The shared scalars pass 65,536.
    L7,
    /// The size is above 65,536.
    L8,
    /// It is not built yet.
    B1,
}

impl Rule {
    /// The rule's name, as a diagnostic gives it.
    pub fn name(self) -> &'static str
        ensures { result.now ≡ name_of self }
    {
        match self {
            Rule::T1 => "T1",
            Rule::T2 => "T2",
            Rule::N1 => "N1",
            Rule::N2 => "N2",
            Rule::N3 => "N3",
            Rule::N4 => "N4",
            Rule::N5 => "N5",
            Rule::N6 => "N6",
            Rule::M1 => "M1",
            Rule::M2 => "M2",
            Rule::M3 => "M3",
            Rule::M4 => "M4",
            Rule::M5 => "M5",
            Rule::M6 => "M6",
            Rule::M7 => "M7",
            Rule::M8 => "M8",
            Rule::M9 => "M9",
            Rule::M10 => "M10",
            Rule::M11 => "M11",
            Rule::M12 => "M12",
            Rule::M13 => "M13",
            Rule::M14 => "M14",
            Rule::S1 => "S1",
            Rule::S2 => "S2",
            Rule::S3 => "S3",
            Rule::S4 => "S4",
            Rule::S5 => "S5",
            Rule::S6 => "S6",
            Rule::S7 => "S7",
            Rule::S8 => "S8",
            Rule::S9 => "S9",
            Rule::S10 => "S10",
            Rule::S11 => "S11",
            Rule::S12 => "S12",
            Rule::P1 => "P1",
            Rule::P2 => "P2",
            Rule::P3 => "P3",
            Rule::P4 => "P4",
            Rule::P5 => "P5",
            Rule::P6 => "P6",
            Rule::P7 => "P7",
            Rule::P8 => "P8",
            Rule::L1 => "L1",
            Rule::L2 => "L2",
            Rule::L3 => "L3",
            Rule::L4 => "L4",
            Rule::L5 => "L5",
            Rule::L6 => "L6",
            Rule::L7 => "L7",
            Rule::L8 => "L8",
            Rule::B1 => "B1",
        }
    }

    /// What a diagnostic tells of the rule. `{1}` and `{2}` stand for the diagnostic's names.
    pub fn text(self) -> &'static str
        ensures { result.now ≡ text_of self }
    {
        match self {
            Rule::T1 => "no token",
            Rule::T2 => "no program",
            Rule::N1 => "name {1} is defined twice",
            Rule::N2 => "name {1} is not seen here",
            Rule::N3 => "name {1} cannot be passed",
            Rule::N4 => "label {1} does not enclose",
            Rule::N5 => "name {1} is of the wrong kind",
            Rule::N6 => "name {1} depends on itself",
            Rule::M1 => "constant needed",
            Rule::M2 => "bounds in the wrong order",
            Rule::M3 => "bound outside its mode",
            Rule::M4 => "discrete mode needed",
            Rule::M5 => "powerset too large",
            Rule::M6 => "length out of limits",
            Rule::M7 => "field {1} is defined twice",
            Rule::M8 => "event or buffer mode not allowed here",
            Rule::M9 => "read-only location {1} without value",
            Rule::M10 => "constant operands do not fit",
            Rule::M11 => "constant out of range",
            Rule::M12 => "synonym value outside its mode",
            Rule::M13 => "fields {1} and {2} overlap",
            Rule::M14 => "field {1} has an impossible place",
            Rule::S1 => "operands do not fit",
            Rule::S2 => "value does not go with the mode",
            Rule::S3 => "not a location that can be written",
            Rule::S4 => "condition is not Boolean",
            Rule::S5 => "wrong number of parts",
            Rule::S6 => "argument does not fit its parameter",
            Rule::S7 => "case label does not fit",
            Rule::S8 => "loop bounds do not fit",
            Rule::S9 => "RETURN or RESULT not allowed here",
            Rule::S10 => "call gives no value",
            Rule::S11 => "tuple does not fit its mode",
            Rule::S12 => "exception {1} is listed twice",
            Rule::P1 => "process {1} is not directly in a module",
            Rule::P2 => "not allowed in a region",
            Rule::P3 => "name {1} does not fit this action",
            Rule::P4 => "region location {1} is granted",
            Rule::P5 => "name {1} is listed twice or mixed",
            Rule::P6 => "priority out of limits",
            Rule::P7 => "SET needs an INSTANCE location",
            Rule::P8 => "event or buffer {1} is local",
            Rule::L1 => "text longer than 262144 bytes",
            Rule::L2 => "nesting deeper than 64",
            Rule::L3 => "more than 4096 definitions",
            Rule::L4 => "too many local scalars",
            Rule::L5 => "mode of more than 4096 scalars",
            Rule::L6 => "value of more than 256 scalars",
            Rule::L7 => "too many shared scalars",
            Rule::L8 => "program too large",
            Rule::B1 => "not built yet",
        }
    }
}

impl Item for Rule {
    fn copy(&self) -> Result<Self, Memory> {
        Ok(*self)
    }

    fn equals(&self, other: &Self) -> bool {
        *self == *other
    }
}
