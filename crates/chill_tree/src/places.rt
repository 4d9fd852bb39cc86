// The table in which a reserved word is found.
use crate::Word;
use crate::Word::{
    All, And, AndIf, Array, Assert, Begin, Buffer, By, Call, Case, Cause, Chars, Continue, Dcl,
    Delay, Do, Down, ElsIf, Else, End, Esac, Event, Ever, Exceptions, Exit, Fi, For, Grant, If, In,
    InOut, Init, Mod, Module, NewMode, NoPack, Not, Od, Of, On, Or, OrIf, Out, Pack, Pos, Powerset,
    Priority, Proc, Process, Read, Receive, Region, Rem, Result, Return, Returns, Seize, Send, Set,
    Signal, Start, Step, Stop, Struct, Syn, SynMode, Then, This, To, While, Xor,
};

/// The one word that may be spelled, by the place of the bytes (`place_of`). Places of no word have any word.
pub(crate) static WORDS_BY_PLACE: [Word; 256] = [
    All, All, All, All, All, Case, All, All, All, All, All, All, All, All, All, On, Not, All, All,
    Return, All, All, For, Region, All, Result, All, Grant, All, Returns, All, All, All, All, All,
    All, All, All, All, All, Seize, All, Ever, All, All, All, All, All, All, Event, All, Od, Cause,
    All, All, All, Struct, All, All, All, All, All, All, All, All, All, Proc, Else, Xor, All, All,
    Continue, All, ElsIf, All, All, All, Pos, Pack, All, This, All, All, All, All, In, All, All,
    And, All, All, Read, All, All, All, Of, All, All, All, All, All, Process, All, Or, All, All,
    All, All, All, All, By, Module, All, All, All, All, All, All, All, Syn, All, Call, All, All,
    All, All, All, InOut, Exit, Down, All, All, Exceptions, All, SynMode, All, All, All, Fi, Send,
    All, All, All, Start, All, All, AndIf, All, All, All, All, All, All, All, All, All, All,
    Signal, Chars, All, All, All, All, All, While, If, Powerset, All, OrIf, All, Delay, Priority,
    Stop, Out, All, All, All, All, All, Rem, All, All, All, All, All, All, Assert, All, All, All,
    All, Receive, To, All, All, All, All, All, All, Esac, All, All, All, Array, All, All, All, All,
    Do, All, All, All, End, All, Dcl, All, All, Set, Step, All, All, All, All, All, All, Mod, All,
    All, All, All, All, All, All, All, All, NewMode, Buffer, All, All, All, NoPack, All, All, All,
    All, All, All, Then, Begin, All, All, All, Init, All, All, All,
];
