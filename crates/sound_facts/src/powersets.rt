// The powersets in values.
ghost use Rattle.std.specs.Prelude.{◌<◌, ◌↔◌, IsTrue, All};
ghost use Rattle.std.specs.List.Sorted.{IsStrictlyIncreasing};
ghost use Rattle.kernel_base.specs.Facts.{IsPowerset};
ghost use Rattle.sound_facts.specs.Powersets.{HasPowersets};

use kernel_base::Value;

// Whether each offset is below the next one.
fn rise(offsets: &[u32]) -> bool
    ensures { IsTrue result ↔ IsStrictlyIncreasing offsets.now }
{
    for k in 1..offsets.len() {
        if offsets[k] <= offsets[k - 1] {
            return false;
        }
    }
    true
}

// Whether each offset is below the number of values of the member mode.
fn are_below(offsets: &[u32], size: u32) -> bool
    ensures { IsTrue result ↔ All (λ offset. offset < size) offsets.now }
{
    offsets.iter().all(|offset| *offset < size)
}

// Whether these are the members of a powerset whose member mode has so many values.
fn is_powerset(size: u32, offsets: &[u32]) -> bool
    ensures { IsTrue result ↔ IsPowerset (size, offsets.now) }
{
    rise(offsets) && are_below(offsets, size)
}

/// Whether the members of each powerset in a value rise and are values of its member mode.
pub fn has_powersets(value: &Value) -> bool
    ensures { IsTrue result ↔ HasPowersets value.now }
{
    match value {
        Value::Number(_) => true,
        Value::Members { size, offsets } => is_powerset(*size, offsets.as_slice()),
        Value::Parts(parts) => {
            for part in parts.as_slice() {
                if !has_powersets(part) {
                    return false;
                }
            }
            true
        }
    }
}
