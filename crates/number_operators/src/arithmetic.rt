// Arithmetic on INT: a result, or none where the operator raises its exception.
ghost use Rattle.std.specs.Prelude.{◌≡◌, ◌+ℤ◌, ◌-ℤ◌, ◌*ℤ◌, neg_ℤ, pos, int_le, None, Some, if◌then◌else◌};
ghost use Rattle.scalar_operators.specs.Numbers.{int_result, magnitude, modulus, quotient, remainder};

/// The number, where it is a value of INT.
pub fn int_or_none(z: i64) -> Option<i64>
    ensures { result ≡ int_result z }
{
    if -2147483648 <= z && z <= 2147483647 {
        Some(z)
    } else {
        None
    }
}

/// The sum, where it is a value of INT.
pub fn sum(x: i64, y: i64) -> Option<i64>
    ensures { result ≡ int_result (x +ℤ y) }
{
    match x.checked_add(y) {
        Some(z) => int_or_none(z),
        None => None,
    }
}

/// The difference, where it is a value of INT.
pub fn difference(x: i64, y: i64) -> Option<i64>
    ensures { result ≡ int_result (x -ℤ y) }
{
    match x.checked_sub(y) {
        Some(z) => int_or_none(z),
        None => None,
    }
}

/// The product, where it is a value of INT.
pub fn product(x: i64, y: i64) -> Option<i64>
    ensures { result ≡ int_result (x *ℤ y) }
{
    match x.checked_mul(y) {
        Some(z) => int_or_none(z),
        None => None,
    }
}

/// The quotient, which truncates towards zero; none by zero.
pub fn quotient_of(x: i64, y: i64) -> Option<i64>
    ensures { result ≡ quotient x y }
{
    if y == 0 {
        return None;
    }
    match x.checked_div(y) {
        Some(z) => int_or_none(z),
        None => None,
    }
}

/// What the quotient leaves, with the sign of the dividend; none by zero.
pub fn remainder_of(x: i64, y: i64) -> Option<i64>
    ensures { result ≡ remainder x y }
{
    if y == 0 {
        return None;
    }
    int_or_none(x.wrapping_rem(y))
}

/// From 0 to the divisor less 1; none by a number below 1.
pub fn modulus_of(x: i64, y: i64) -> Option<i64>
    ensures { result ≡ modulus x y }
{
    if y < 1 {
        return None;
    }
    int_or_none(x.rem_euclid(y))
}

/// The number with the other sign, where that is a value of INT.
pub fn negation(x: i64) -> Option<i64>
    ensures { result ≡ int_result (neg_ℤ x) }
{
    match x.checked_neg() {
        Some(z) => int_or_none(z),
        None => None,
    }
}

/// The magnitude, where it is a value of INT.
pub fn magnitude_of(x: i64) -> Option<i64>
    ensures { result ≡ int_result (magnitude x) }
{
    match x.checked_abs() {
        Some(z) => int_or_none(z),
        None => None,
    }
}

/// The successor; none at or past the bound.
pub fn successor(bound: i64, x: i64) -> Option<i64>
    ensures { result ≡ (if int_le bound x then None else Some (x +ℤ pos 1)) }
{
    if bound <= x { None } else { Some(x + 1) }
}

/// The predecessor; none at or past the bound.
pub fn predecessor(bound: i64, x: i64) -> Option<i64>
    ensures { result ≡ (if int_le x bound then None else Some (x -ℤ pos 1)) }
{
    if x <= bound { None } else { Some(x - 1) }
}
