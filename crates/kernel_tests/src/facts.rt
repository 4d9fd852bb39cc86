// The one set of facts of the tests, which is proved to be sound.
ghost use Rattle.std.specs.Prelude.{◌≡◌, ◌≤◌, ◌∷◌, [], true, IfOk};
ghost use Rattle.kernel_base.specs.Facts.{IsSound};

use chill_base::{Bits, List, Memory};
use kernel_base::{Facts, Value};
use std::alloc::Global;

fn word(alloc: Global) -> Result<List<Bits>, Memory>
    ensures { IfOk result (λ layout. layout ≡ record { word = 0; start = 0; end = 31; signed = true } ∷ []) }
{
    let mut layout = List::new(alloc);
    layout.push(Bits {
        word: 0,
        start: 0,
        end: 31,
        signed: true,
    })?;
    Ok(layout)
}

/// One shared INT; two regions; an event without a length and one of length 1; a buffer of length 2, one of length 0 and
/// one without; three processes; two signals that any may receive and one for process 1; the input `12 x`.
pub fn facts(alloc: Global, units: u64) -> Result<Facts, Memory>
    requires least { 1 ≤ units }
    requires greatest { units ≤ 10000000 }
    ensures { IfOk result IsSound }
{
    let mut facts = Facts {
        store: List::new(alloc),
        layouts: List::new(alloc),
        regions: 2,
        events: List::new(alloc),
        buffers: List::new(alloc),
        processes: 3,
        signals: List::new(alloc),
        input: List::new(alloc),
        units,
    };
    facts.store.push(Value::Number(0))?;
    facts.layouts.push(word(alloc)?)?;
    facts.events.room().extend_from_slice(&[None, Some(1)])?;
    facts
        .buffers
        .room()
        .extend_from_slice(&[Some(2), Some(0), None])?;
    facts
        .signals
        .room()
        .extend_from_slice(&[None, None, Some(1)])?;
    facts.input.room().extend_from_slice(b"12 x")?;
    Ok(facts)
}
