// Whether a number is among others.
ghost use Rattle.std.specs.Prelude.{◌≡◌, true, Some, None, IfSome, if◌then◌else◌};
ghost use Rattle.names_model.specs.Entries.{is_among};

// A number, where it is found among others by halving them, as it is if they go up.
fn halved(number: usize, numbers: &[u32]) -> Option<u32>
    ensures { IfSome result (λ found. (found ≡ number) × (is_among number numbers.now ≡ true)) }
{
    let mut low = 0;
    let mut high = numbers.len();
    while low < high {
        let middle = low + (high - low) / 2;
        let other = numbers[middle];
        if other as usize == number {
            return Some(other);
        }
        if (other as usize) < number {
            low = middle + 1;
        } else {
            high = middle;
        }
    }
    None
}

/// A number, where it is among others. They mostly go up, as they stand in the text.
pub fn among(number: usize, numbers: &[u32]) -> Option<u32>
    ensures { result ≡ (if is_among number numbers.now then Some number else None) }
{
    if let Some(found) = halved(number, numbers) {
        return Some(found);
    }
    for other in numbers {
        if *other as usize == number {
            return Some(*other);
        }
    }
    None
}
