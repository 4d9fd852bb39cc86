// What GET_INT takes of the input (our own choice).
ghost use Rattle.std.specs.Prelude.{◌≡◌, OnOk, not, drop};
ghost use Rattle.std.specs.List.{prefix_len};
ghost use Rattle.world_model.specs.Input as inputs;

use crate::World;
use chill_base::{List, Memory};

fn is_separator(byte: u8) -> bool
    ensures { result ≡ inputs.is_separator byte }
{
    byte == b' ' || byte == b'\t' || byte == b'\n' || byte == b'\r'
}

/// How many separators come first.
pub fn separators_len(bytes: &[u8]) -> usize
    ensures { result ≡ prefix_len inputs.is_separator bytes.now }
{
    for i in 0..bytes.len() {
        if !is_separator(bytes[i]) {
            return i;
        }
    }
    bytes.len()
}

/// How many bytes come before the first separator.
pub fn word_len(bytes: &[u8]) -> usize
    ensures { result ≡ prefix_len (λ b. not (inputs.is_separator b)) bytes.now }
{
    for i in 0..bytes.len() {
        if is_separator(bytes[i]) {
            return i;
        }
    }
    bytes.len()
}

fn behind(bytes: &[u8], count: usize) -> &[u8]
    ensures { result.now ≡ drop count bytes.now }
{
    if count < bytes.len() {
        &bytes[count..]
    } else {
        &[]
    }
}

fn input_behind(input: &[u8]) -> &[u8]
    ensures { result.now ≡ inputs.input_behind input.now }
{
    let rest = behind(input, separators_len(input));
    behind(rest, word_len(rest))
}

/// Takes what GET_INT looked at.
pub fn take_input(world: &mut World) -> Result<(), Memory>
    ensures { OnOk result (world.new ≡ record world.old { input = inputs.input_behind world.old.input }) }
{
    let mut rest = Vec::new(world.input.allocator());
    rest.extend_from_slice(input_behind(world.input.as_slice()))?;
    world.input = List::from_vec(rest);
    Ok(())
}
