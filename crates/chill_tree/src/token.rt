// The tokens of a text (Z.200, chapter on the lexical elements).
use crate::{NameText, TextLiteral};
use chill_base::{List, Pos};

/// A reserved word, spelled in a text all in upper or all in lower case.
#[derive(Clone, Copy, PartialEq, Eq)]
pub enum Word {
    All,
    And,
    AndIf,
    Array,
    Assert,
    Begin,
    Buffer,
    By,
    Call,
    Case,
    Cause,
    Chars,
    Continue,
    Dcl,
    Delay,
    Do,
    Down,
    Else,
    ElsIf,
    End,
    Esac,
    Event,
    Ever,
    Exceptions,
    Exit,
    Fi,
    For,
    Grant,
    If,
    In,
    Init,
    InOut,
    Mod,
    Module,
    NewMode,
    NoPack,
    Not,
    Od,
    Of,
    On,
    Or,
    OrIf,
    Out,
    Pack,
    Pos,
    Powerset,
    Priority,
    Proc,
    Process,
    Read,
    Receive,
    Region,
    Rem,
    Result,
    Return,
    Returns,
    Seize,
    Send,
    Set,
    Signal,
    Start,
    Step,
    Stop,
    Struct,
    Syn,
    SynMode,
    Then,
    This,
    To,
    While,
    Xor,
}

/// A sign.
#[derive(Clone, Copy, PartialEq, Eq)]
pub enum Sign {
    /// `(`
    Open,
    /// `)`
    Close,
    /// `[`
    OpenBracket,
    /// `]`
    CloseBracket,
    /// `,`
    Comma,
    /// `;`
    Semicolon,
    /// `:`
    Colon,
    /// `:=`
    Becomes,
    /// `.`
    Dot,
    /// `+`
    Plus,
    /// `-`
    Minus,
    /// `*`
    Times,
    /// `/`
    Divide,
    /// `=`
    Equal,
    /// `/=`
    NotEqual,
    /// `<`
    Less,
    /// `<=`
    LessOrEqual,
    /// `>`
    Greater,
    /// `>=`
    GreaterOrEqual,
}

/// What a token is.
#[derive(Drop)]
pub enum TokenKind {
    Word(Word),
    /// Any other name, as it is spelled.
    Name(NameText),
    /// A whole literal, by its value.
    Whole(u64),
    /// A character literal.
    Char(u8),
    /// A text literal, by its value.
    Text(TextLiteral),
    Sign(Sign),
}

/// A token, and the place of its first byte.
#[derive(Drop)]
pub struct Token {
    pub at: Pos,
    pub kind: TokenKind,
}

/// The tokens of a text in order.
pub type Tokens = List<Token>;
