// Numbers among the words (our own choice).
ghost use Rattle.std.specs.Prelude.{◌≡◌, ◌≤◌, length};
ghost use Rattle.word_reader.specs.Number.{decimal_after, number_of};

/// The number from `low` to `high` that a text of 1 to 8 decimal digits writes.
pub fn number(low: u32, high: u32, text: &[u8]) -> Option<u32>
    ensures { result ≡ number_of low high text.now }
{
    if text.is_empty() || text.len() > 8 {
        return None;
    }
    let found = decimal(text)?;
    if low <= found && found <= high {
        Some(found)
    } else {
        None
    }
}

// The number that digits write.
fn decimal(text: &[u8]) -> Option<u32>
    requires { length text.now ≤ 8 }
    ensures { result ≡ decimal_after 0 text.now }
{
    let mut n = 0;
    for digit in text {
        if !digit.is_ascii_digit() {
            return None;
        }
        n = n * 10 + (*digit - b'0') as u32;
    }
    Some(n)
}
