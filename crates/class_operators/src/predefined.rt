// The names that every program has (Z.200, chapters on modes and on values; the routines for texts are our own choice).

/// What a predefined name stands for.
#[derive(Clone, Copy, PartialEq, Eq)]
pub enum Predefined {
    Int,
    Bool,
    Char,
    Instance,
    True,
    False,
    Null,
    Num,
    Succ,
    Pred,
    Abs,
    Card,
    Min,
    Max,
    Upper,
    Lower,
    Size,
    PutInt,
    PutText,
    PutLine,
    GetInt,
}

/// All of them, in the order in which their definitions stand behind those of a text.
pub static PREDEFINED: [Predefined; 21] = [
    Predefined::Int,
    Predefined::Bool,
    Predefined::Char,
    Predefined::Instance,
    Predefined::True,
    Predefined::False,
    Predefined::Null,
    Predefined::Num,
    Predefined::Succ,
    Predefined::Pred,
    Predefined::Abs,
    Predefined::Card,
    Predefined::Min,
    Predefined::Max,
    Predefined::Upper,
    Predefined::Lower,
    Predefined::Size,
    Predefined::PutInt,
    Predefined::PutText,
    Predefined::PutLine,
    Predefined::GetInt,
];
