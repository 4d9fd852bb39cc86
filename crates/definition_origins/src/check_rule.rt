// The rules that the checks tell of.
ghost use Rattle.std.specs.Prelude.{◌≡◌};
ghost use Rattle.definition_origins.specs.CheckRules.{rule_of};

use diagnostics::Rule;

/// A rule that the checks of a tree tell of, where it breaks no rule on names: those on modes and constants, on
/// statements and on processes, and the limits that go by modes.
#[derive(Clone, Copy)]
pub enum CheckRule {
    /// A constant is needed and isn't there.
    M1,
    /// A lower bound is above its upper.
    M2,
    /// A bound doesn't go with its parent mode or lies outside it.
    M3,
    /// A member, index or parent mode isn't discrete.
    M4,
    /// A powerset has more than 32 members.
    M5,
    /// A length isn't 0 to 256 (CHARS), 1 to 4,096 (array), 1 to 1,000 (EVENT), 0 to 1,000 (BUFFER).
    M6,
    /// A structure has two fields of one name.
    M7,
    /// An event or buffer mode stands elsewhere than in DCL, SYNMODE or NEWMODE as the whole mode.
    M8,
    /// A READ location has no initialisation.
    M9,
    /// Operands in a constant break the rules of their operator.
    M10,
    /// A constant expression anywhere would raise an exception, or a literal is outside INT.
    M11,
    /// A synonym's value doesn't go with its written mode or lies outside it.
    M12,
    /// A field shares a bit with earlier ones, the first of which is {1}.
    M13,
    /// A field or element has a place that its word or its mode does not allow.
    M14,
    /// Operands or a routine's arguments break the rules of their operator or routine.
    S1,
    /// A value doesn't go with the mode that receives it.
    S2,
    /// A target is READ, a counter, a received name or no location.
    S3,
    /// A condition isn't of root BOOL.
    S4,
    /// A call, START, SEND, IN list or index has the wrong number of parts.
    S5,
    /// An OUT or INOUT argument isn't a writable location of a v-equivalent mode.
    S6,
    /// A selector isn't discrete or a label isn't compatible with it.
    S7,
    /// The bounds of FOR aren't compatible discrete values, BY isn't INT, or IN has no powerset.
    S8,
    /// RETURN outside a procedure; a value in RETURN or RESULT without RETURNS.
    S9,
    /// A call without RETURNS stands as a value.
    S10,
    /// A tuple has no mode, or its parts don't match the mode; a range in a tuple that is no powerset.
    S11,
    /// One handler lists an exception twice.
    S12,
    /// A process is defined in a region.
    P1,
    /// A region holds an action or a modulion.
    P2,
    /// DELAY or CONTINUE of no event; SEND or RECEIVE of no buffer or signal.
    P3,
    /// A region grants its location by name.
    P4,
    /// A DELAY CASE or RECEIVE CASE lists a name twice, or buffers and signals.
    P5,
    /// A priority isn't 0 to 1,000,000.
    P6,
    /// SET names no INSTANCE location that can be written.
    P7,
    /// An event or buffer is declared in a body.
    P8,
    /// A body has more than 512 local scalars.
    L4,
    /// A mode has more than 4,096 scalars.
    L5,
    /// A value has more than 256 scalars.
    L6,
    /// The shared scalars pass 65,536.
    L7,
}

impl CheckRule {
    /// The same rule among all rules.
    pub fn rule(self) -> Rule
        ensures { result ≡ rule_of self }
    {
        match self {
            CheckRule::M1 => Rule::M1,
            CheckRule::M2 => Rule::M2,
            CheckRule::M3 => Rule::M3,
            CheckRule::M4 => Rule::M4,
            CheckRule::M5 => Rule::M5,
            CheckRule::M6 => Rule::M6,
            CheckRule::M7 => Rule::M7,
            CheckRule::M8 => Rule::M8,
            CheckRule::M9 => Rule::M9,
            CheckRule::M10 => Rule::M10,
            CheckRule::M11 => Rule::M11,
            CheckRule::M12 => Rule::M12,
            CheckRule::M13 => Rule::M13,
            CheckRule::M14 => Rule::M14,
            CheckRule::S1 => Rule::S1,
            CheckRule::S2 => Rule::S2,
            CheckRule::S3 => Rule::S3,
            CheckRule::S4 => Rule::S4,
            CheckRule::S5 => Rule::S5,
            CheckRule::S6 => Rule::S6,
            CheckRule::S7 => Rule::S7,
            CheckRule::S8 => Rule::S8,
            CheckRule::S9 => Rule::S9,
            CheckRule::S10 => Rule::S10,
            CheckRule::S11 => Rule::S11,
            CheckRule::S12 => Rule::S12,
            CheckRule::P1 => Rule::P1,
            CheckRule::P2 => Rule::P2,
            CheckRule::P3 => Rule::P3,
            CheckRule::P4 => Rule::P4,
            CheckRule::P5 => Rule::P5,
            CheckRule::P6 => Rule::P6,
            CheckRule::P7 => Rule::P7,
            CheckRule::P8 => Rule::P8,
            CheckRule::L4 => Rule::L4,
            CheckRule::L5 => Rule::L5,
            CheckRule::L6 => Rule::L6,
            CheckRule::L7 => Rule::L7,
        }
    }
}
