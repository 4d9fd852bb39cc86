// How far GET_INT takes the input (our own choice).
ghost use Rattle.std.specs.Prelude.{◌≡◌, ◌≤◌, length, drop};
ghost use Rattle.world_model.specs.Input as inputs;

use world_model::{separators_len, word_len};

fn behind(input: &[u8], count: usize) -> &[u8]
    ensures { result.now ≡ drop count input.now }
{
    if count < input.len() {
        &input[count..]
    } else {
        &[]
    }
}

/// How many bytes are taken: the separators that come first, and all up to the next one.
pub fn word_end(input: &[u8]) -> usize
    ensures within { result ≤ length input.now }
    ensures taken { drop result input.now ≡ inputs.input_behind input.now }
{
    let skipped = separators_len(input);
    skipped + word_len(behind(input, skipped))
}

/// How many bytes are taken behind those that were taken before, with them.
pub fn word_end_from(input: &[u8], read: usize) -> usize
    requires { read ≤ length input.now }
    ensures within { result ≤ length input.now }
    ensures taken { drop result input.now ≡ inputs.input_behind (drop read input.now) }
{
    read + word_end(behind(input, read))
}
