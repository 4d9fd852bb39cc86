// How words and signs are spelled (Z.200, chapter on the lexical elements): the one table, read by all that read or
// write tokens.
ghost use Rattle.std.specs.Prelude.{◌≡◌, ◌<◌, ◌↔◌, length, IsTrue, IfSome, IfNone};
ghost use Rattle.chill_tree.specs.Spelling.{word_spelling, sign_spelling, lower_case, IsSpelled, word_of, place_of};

use crate::places::WORDS_BY_PLACE;
use crate::{Sign, Word};

impl Word {
    /// The word's spelling in upper case.
    #[inline(always)]
    pub fn spelling(self) -> &'static str
        ensures { result.now ≡ word_spelling self }
    {
        match self {
            Word::All => "ALL",
            Word::And => "AND",
            Word::AndIf => "ANDIF",
            Word::Array => "ARRAY",
            Word::Assert => "ASSERT",
            Word::Begin => "BEGIN",
            Word::Buffer => "BUFFER",
            Word::By => "BY",
            Word::Call => "CALL",
            Word::Case => "CASE",
            Word::Cause => "CAUSE",
            Word::Chars => "CHARS",
            Word::Continue => "CONTINUE",
            Word::Dcl => "DCL",
            Word::Delay => "DELAY",
            Word::Do => "DO",
            Word::Down => "DOWN",
            Word::Else => "ELSE",
            Word::ElsIf => "ELSIF",
            Word::End => "END",
            Word::Esac => "ESAC",
            Word::Event => "EVENT",
            Word::Ever => "EVER",
            Word::Exceptions => "EXCEPTIONS",
            Word::Exit => "EXIT",
            Word::Fi => "FI",
            Word::For => "FOR",
            Word::Grant => "GRANT",
            Word::If => "IF",
            Word::In => "IN",
            Word::Init => "INIT",
            Word::InOut => "INOUT",
            Word::Mod => "MOD",
            Word::Module => "MODULE",
            Word::NewMode => "NEWMODE",
            Word::NoPack => "NOPACK",
            Word::Not => "NOT",
            Word::Od => "OD",
            Word::Of => "OF",
            Word::On => "ON",
            Word::Or => "OR",
            Word::OrIf => "ORIF",
            Word::Out => "OUT",
            Word::Pack => "PACK",
            Word::Pos => "POS",
            Word::Powerset => "POWERSET",
            Word::Priority => "PRIORITY",
            Word::Proc => "PROC",
            Word::Process => "PROCESS",
            Word::Read => "READ",
            Word::Receive => "RECEIVE",
            Word::Region => "REGION",
            Word::Rem => "REM",
            Word::Result => "RESULT",
            Word::Return => "RETURN",
            Word::Returns => "RETURNS",
            Word::Seize => "SEIZE",
            Word::Send => "SEND",
            Word::Set => "SET",
            Word::Signal => "SIGNAL",
            Word::Start => "START",
            Word::Step => "STEP",
            Word::Stop => "STOP",
            Word::Struct => "STRUCT",
            Word::Syn => "SYN",
            Word::SynMode => "SYNMODE",
            Word::Then => "THEN",
            Word::This => "THIS",
            Word::To => "TO",
            Word::While => "WHILE",
            Word::Xor => "XOR",
        }
    }

    /// The reserved word that the bytes spell, all in upper or all in lower case. Mixed case spells none.
    #[inline(always)]
    pub fn spelled(bytes: &[u8]) -> Option<Word>
        ensures found { IfSome result (λ word. IsSpelled word bytes.now) }
        ensures none { IfNone result ((word : Word) → IsSpelled word bytes.now → ⊥) }
        ensures exact { result ≡ word_of bytes.now }
    {
        if bytes.is_empty() {
            return None;
        }
        let word = WORDS_BY_PLACE[place_of(bytes)];
        if word.is_spelled(bytes) {
            Some(word)
        } else {
            None
        }
    }

    // Whether the bytes are the word, in upper or in lower case.
    #[inline(always)]
    fn is_spelled(self, bytes: &[u8]) -> bool
        ensures { IsTrue result ↔ IsSpelled self bytes.now }
    {
        let spelling = self.spelling().as_bytes();
        bytes == spelling || is_lower_case(bytes, spelling)
    }
}

impl Sign {
    /// The sign's spelling.
    pub fn spelling(self) -> &'static str
        ensures { result.now ≡ sign_spelling self }
    {
        match self {
            Sign::Open => "(",
            Sign::Close => ")",
            Sign::OpenBracket => "[",
            Sign::CloseBracket => "]",
            Sign::Comma => ",",
            Sign::Semicolon => ";",
            Sign::Colon => ":",
            Sign::Becomes => ":=",
            Sign::Dot => ".",
            Sign::Plus => "+",
            Sign::Minus => "-",
            Sign::Times => "*",
            Sign::Divide => "/",
            Sign::Equal => "=",
            Sign::NotEqual => "/=",
            Sign::Less => "<",
            Sign::LessOrEqual => "<=",
            Sign::Greater => ">",
            Sign::GreaterOrEqual => ">=",
        }
    }
}

// The place at which the table has the one word that the bytes may spell. No two words have the same.
fn place_of(bytes: &[u8]) -> usize
    requires { 0 < length bytes.now }
    ensures { result ≡ place_of bytes.now }
{
    let first = bytes[0] % 32;
    let middle = bytes[bytes.len() / 2] % 32;
    let last = bytes[bytes.len() - 1] % 32;
    let sum = 31 * usize::from(first) + 21 * usize::from(middle) + usize::from(last);
    (sum + 5 * (bytes.len() % 32)) % 256
}

// Whether the bytes are these letters in lower case.
fn is_lower_case(bytes: &[u8], letters: &[u8]) -> bool
    ensures { IsTrue result ↔ (bytes.now ≡ lower_case letters.now) }
{
    if bytes.len() != letters.len() {
        return false;
    }
    for i in 0..bytes.len() {
        if u16::from(bytes[i]) != u16::from(letters[i]) + 32 {
            return false;
        }
    }
    true
}
