// Numbers as truth values.
ghost use Rattle.std.specs.Prelude.{◌≡◌};
ghost use Rattle.scalar_operators.specs.Numbers.{truth_number, truth_of};

/// Whether the number counts as true.
pub fn is_true(x: i64) -> bool
    ensures { result ≡ truth_of x }
{
    x != 0
}

/// 1 for true and 0 for false.
pub fn truth_from(yes: bool) -> i64
    ensures { result ≡ truth_number yes }
{
    if yes { 1 } else { 0 }
}
