// The code while it is made.
ghost use Rattle.std.specs.Prelude.{◌≡◌, ℕ, ◌+◌, length, IfOk, OnOk, OnErr};
ghost use Rattle.code_scheme.specs.Pieces.{capped};
ghost use Rattle.expr_gen.specs.Putting.{Puts, Keeps};
ghost use Rattle.expr_gen.specs.Empty.{empty_code};
ghost use Rattle.expr_gen.specs.Puts.{IsBehind};

use crate::refusal::PartRefusal;
use chill_base::List;
use code_types::{Code, Instr};
use std::alloc::Global;

/// The code while it is made. It only grows.
#[derive(Drop)]
pub struct Draft {
    pub code: Code,
}

impl Draft {
    /// No code. It takes no memory.
    pub fn new(alloc: Global) -> Draft
        ensures { result.code ≡ empty_code }
    {
        Draft {
            code: Code {
                instrs: List::new(alloc),
                handlers: List::new(alloc),
                bodies: List::new(alloc),
            },
        }
    }

    /// The allocator that the draft was made with.
    pub fn allocator(&self) -> Global {
        self.code.instrs.allocator()
    }

    /// The present place: that of the next instruction.
    pub fn place(&self) -> u32
        ensures { result ≡ capped (length self.now.code.instrs) }
    {
        (self.code.instrs.len() as u64).min(u32::MAX as u64) as u32
    }

    /// The place so many instructions behind the present one.
    pub fn place_behind(&self, count: u32) -> u32
        ensures { result ≡ capped (length self.now.code.instrs + count) }
    {
        self.place().saturating_add(count)
    }

    /// The place so many instructions behind the present one, to which a jump may lead.
    pub fn target_behind(&self, count: u32) -> Result<u32, PartRefusal>
        ensures { IfOk result (λ target. IsBehind self.now count target) }
    {
        uncapped(self.place_behind(count))
    }

    /// Appends an instruction.
    #[tactic(auto, using(crate::proofs::Appending::keeping))]
    pub fn put(&mut self, instr: Instr) -> Result<(), PartRefusal>
        ensures puts { OnOk result (Puts instr self.old.code self.new.code) }
        ensures left { OnErr result (self.new.code ≡ self.old.code) }
        ensures keeps { Keeps self.old.code self.new.code }
    {
        self.code.instrs.push(instr)?;
        Ok(())
    }
}

/// A number that isn't the greatest of 32 bits, which stands for all that are greater. There is no memory for so many
/// instructions, locals or scalars.
pub fn uncapped(number: u32) -> Result<u32, PartRefusal>
    ensures { IfOk result (λ whole. (k : ℕ) → number ≡ capped k → whole ≡ k) }
{
    if number == u32::MAX {
        Err(PartRefusal::Memory)
    } else {
        Ok(number)
    }
}

/// The sum of two numbers, where it is one of 32 bits.
pub fn sum(one: u32, other: u32) -> Result<u32, PartRefusal>
    ensures { IfOk result (λ sum. sum ≡ one + other) }
{
    uncapped(one.saturating_add(other))
}
