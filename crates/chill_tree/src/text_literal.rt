// The value of a text literal.
ghost use Rattle.std.specs.Prelude.{◌≡◌, IfOk};

use chill_base::{Memory, Text};
use std::alloc::Global;
use std::marker::Model;

/// The bytes that a text literal stands for, which contracts see as a list. They lie in memory of their own, so that
/// tokens are small.
pub struct TextLiteral {
    value: Box<Text>,
}

impl Model for TextLiteral {
    ghost use Rattle.std.specs.Prelude.{List, ℕ};

    ghost Value = { List ℕ };

    ghost view = { λ literal. literal.value.value };
}

impl TextLiteral {
    /// The literal of these bytes.
    pub fn new(alloc: Global, value: Text) -> Result<TextLiteral, Memory>
        ensures { IfOk result (λ literal. literal ≡ value) }
    {
        let value = Box::new(alloc, value)?;
        Ok(TextLiteral { value })
    }

    /// The bytes.
    pub fn as_text(&self) -> &Text
        ensures { result.now ≡ self.now }
    {
        &self.value
    }
}

// By hand, so that whoever drops a literal makes one call.
impl Drop for TextLiteral {
    fn drop(self) {
        let TextLiteral { value } = self;
        drop(value);
    }
}
