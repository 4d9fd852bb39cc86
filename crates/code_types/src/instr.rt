// The instructions of a stack machine over whole numbers (our own choice).
use chill_base::List;

/// One instruction. Its operands stand on the stack of its frame, the first of them lowest. Places are counted from
/// the code's first instruction. A list of several scalars stands with its first scalar lowest.
#[derive(Clone, Copy)]
pub enum Instr {
    /// Pushes a number.
    Push(i64),
    /// Drops so many numbers.
    Pop(u32),
    /// Pushes the topmost numbers, so many, again.
    Copy(u32),
    /// Pushes the number of an event, a buffer or a signal.
    Thing(u32),
    /// Pushes locals: the first, and how many.
    Local(u32, u32),
    /// Pops into locals: the first, and how many.
    SetLocal(u32, u32),
    /// As `Local`, with an offset popped.
    LocalAt(u32, u32),
    /// As `SetLocal`, with an offset popped from below the values.
    SetLocalAt(u32, u32),
    /// Keeps a part of the topmost numbers: from which on, how many, and of how many.
    Part(u32, u32, u32),
    /// Pops an offset and keeps from there on: how many, and of how many.
    PartAt(u32, u32),
    /// Turns an index from the first bound to the second into an offset, with so many scalars an element.
    Index(i64, i64, u32),
    /// RANGEFAIL where the topmost number is outside these bounds.
    Check(i64, i64),
    Add,
    Sub,
    Mul,
    Div,
    Mod,
    Rem,
    Neg,
    Abs,
    /// The successor, with OVERFLOW at or past this upper bound.
    Succ(i64),
    /// The predecessor, with OVERFLOW at or past this lower bound.
    Pred(i64),
    /// Whether two lists of so many numbers are equal.
    Same(u32),
    /// Whether the lower of two lists of so many numbers comes first, number by number.
    Less(u32),
    Not,
    And,
    Or,
    Xor,
    /// The members that a powerset of so many hasn't.
    BitNot(u32),
    BitAnd,
    BitOr,
    BitXor,
    BitMinus,
    /// Whether the lower powerset is included in the upper.
    Within,
    /// Whether the lower number is the offset of a member of the upper powerset.
    Has,
    /// The number of members.
    Card,
    /// The least member's offset.
    Least,
    /// The greatest member's offset.
    Most,
    /// The powerset of the offsets from the lower number to the upper.
    Span,
    /// Goes to a later place.
    Jump(u32),
    /// Pops, and goes to a later place at 0.
    Unless(u32),
    /// Makes a tick and goes back to a place.
    Again(u32),
    /// Makes a tick and then a frame of this body.
    Call(u32),
    /// Leaves the frame.
    Return,
    /// Enters a region that isn't open.
    Enter(u32),
    /// Leaves a region that this frame entered last of all.
    Leave(u32),
    /// Raises the exception of this number.
    Raise(u32),
    /// Pushes the own instance.
    This,
    /// Reads from a location, with an offset popped: from which scalar on, and how many.
    Read(u32, u32, u32),
    /// Writes to a location, with an offset popped from below the values: from which scalar on, and how many.
    Write(u32, u32, u32),
    /// Waits for one of so many pairs of an event and the number of its alternative, with this priority.
    Delay(u32, u32),
    /// Continues a process that is delayed on this event.
    Continue(u32),
    /// Sends so many scalars to a buffer, with this priority.
    Send(u32, u32, u32),
    /// Sends a signal of so many scalars, to an instance that is popped or to any, with this priority.
    Signal(u32, u32, bool, u32),
    /// Receives from buffers: how many triples of a buffer, a local and a count, and whether ELSE is written.
    Take(u32, bool),
    /// Receives signals: how many triples of a signal, a local and a count, and whether ELSE is written.
    Hear(u32, bool),
    /// Starts a process of this body with so many scalars.
    Start(u32, u32),
    /// Puts a number in decimal.
    PutInt,
    /// Puts so many bytes.
    PutText(u32),
    /// Puts a line feed.
    PutLine,
    /// Reads a number from the input.
    GetInt,
    /// Ends the process by STOP.
    Stop,
    /// Ends the process normally.
    Finish,
}

/// The instructions of a code, in order.
pub type Instrs = List<Instr>;
