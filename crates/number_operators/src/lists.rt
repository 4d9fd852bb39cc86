// Lists of numbers, compared number by number.
ghost use Rattle.std.specs.Prelude.{◌≡◌, length};
ghost use Rattle.scalar_operators.specs.Numbers.{comes_before, same_numbers};

/// Whether two lists of numbers are equal.
pub fn are_same(lower: &[i64], upper: &[i64]) -> bool
    requires { length lower.now ≡ length upper.now }
    ensures { result ≡ same_numbers lower.now upper.now }
{
    for i in 0..lower.len() {
        if lower[i] != upper[i] {
            return false;
        }
    }
    true
}

/// Whether the first list comes before the second: at the first numbers that differ it has the less.
pub fn comes_first(lower: &[i64], upper: &[i64]) -> bool
    requires { length lower.now ≡ length upper.now }
    ensures { result ≡ comes_before lower.now upper.now }
{
    for i in 0..lower.len() {
        if lower[i] != upper[i] {
            return lower[i] < upper[i];
        }
    }
    false
}
