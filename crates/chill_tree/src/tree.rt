// The syntax tree of a text: one type for each class of the grammar, whose fields are the parts of its
// productions in order. A node has the place of its first token, and what is optional in a text is kept.
mod expr;
mod item;
mod local;
mod mode;
mod name;
mod statement;

pub use expr::{Expr, Operator, Prefix, ValueRange};
pub use item::{
    Formal, Item, Modulion, ModulionKind, Param, Passed, Passing, Procedure, Process, Signal, Tree,
};
pub use local::{Declaration, Initial, Local, ModeDefinition, Synonym};
pub use mode::{Base, Discrete, Field, Index, Mode, Packing, Place, PlaceForm, Spread, Step};
pub use name::Name;
pub use statement::{
    BodyPart, Bracketed, CaseAlternative, Control, ElsIf, Handler, NamedAlternative,
    ReceiveAlternative, Simple, Statement,
};
