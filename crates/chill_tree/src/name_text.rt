// The bytes of a name, which lie in the value itself where they are few.
ghost use Rattle.std.specs.Prelude.{◌≡◌, ◌≤◌, take, IfOk};

use chill_base::{Item, Memory, Text};
use std::alloc::Global;
use std::marker::Model;

/// How many bytes lie in the value itself at most. With their number and a tag they are no larger than the pointer to a
/// longer name with its tag.
const INLINE_BYTES: usize = 14;

/// The bytes of a name as it is spelled, which contracts see as a list. Up to 14 take no memory of their own.
pub struct NameText {
    held: Held,
}

// Where the bytes lie.
#[derive(Drop)]
enum Held {
    // The first bytes of the array. Nothing is said of the others, which nobody sees.
    Inline {
        length: u8,
        bytes: [u8; INLINE_BYTES],
    },
    Heap(Box<Text>),
}

impl Model for NameText {
    ghost use Rattle.std.specs.Prelude.{List, ℕ};
    ghost use Rattle.chill_tree.specs.NameText.{held_bytes, IsHeld};

    ghost Value = { List ℕ };

    ghost view = { λ name. held_bytes name.held };

    ghost invariant = { λ name. IsHeld name.held };
}

impl NameText {
    /// How many bytes lie in the value itself at most.
    pub const INLINE_BYTES: usize = INLINE_BYTES;

    /// The first bytes of an array. Contracts don't see the others.
    #[inline(always)]
    pub fn inline(bytes: [u8; INLINE_BYTES], size: usize) -> NameText
        requires { size ≤ 14 }
        ensures { result ≡ take size bytes }
    {
        NameText {
            held: Held::Inline {
                length: size as u8,
                bytes,
            },
        }
    }

    /// These bytes.
    pub fn from_bytes(alloc: Global, bytes: &[u8]) -> Result<NameText, Memory>
        ensures { IfOk result (λ name. name ≡ bytes.now) }
    {
        if bytes.len() > INLINE_BYTES {
            let bytes = Text::from_vec(Vec::from_slice(alloc, bytes)?);
            return Ok(NameText {
                held: Held::Heap(Box::new(alloc, bytes)?),
            });
        }
        let mut inline = [0; INLINE_BYTES];
        inline[..bytes.len()].copy_from_slice(bytes);
        Ok(NameText::inline(inline, bytes.len()))
    }

    /// The bytes.
    pub fn as_slice(&self) -> &[u8]
        ensures { result.now ≡ self.now }
    {
        match &self.held {
            Held::Inline { length, bytes } => &bytes[..*length as usize],
            Held::Heap(bytes) => bytes.as_slice(),
        }
    }
}

// By hand, so that whoever drops a name makes one call, and has no case for where its bytes lie.
impl Drop for NameText {
    fn drop(self) {
        let NameText { held } = self;
        drop(held);
    }
}

impl Item for NameText {
    fn copy(&self) -> Result<Self, Memory> {
        let held = match &self.held {
            Held::Inline { length, bytes } => Held::Inline {
                length: *length,
                bytes: *bytes,
            },
            Held::Heap(bytes) => Held::Heap(Box::new(bytes.allocator(), bytes.copy()?)?),
        };
        Ok(NameText { held })
    }

    fn equals(&self, other: &Self) -> bool {
        self.as_slice() == other.as_slice()
    }
}
