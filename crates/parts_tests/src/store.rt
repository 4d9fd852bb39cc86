// The shared store.
ghost use Rattle.std.specs.Prelude.{◌≡◌, length, IfOk};

use chill_base::{Bits, Layout, List};
use kernel_base::{Facts, Value};
use shared_store::Store;
use sound_facts::are_sound;
use std::alloc::Global;
use std::test::Fail;

// A STRUCT (a INT (0:255), b BOOL) PACK that holds 7 and TRUE.
fn packed_value(alloc: Global) -> Result<Value, Fail> {
    let mut parts = List::new(alloc);
    parts.push(Value::Number(7))?;
    parts.push(Value::Number(1))?;
    Ok(Value::Parts(parts))
}

fn packed_layout(alloc: Global) -> Result<Layout, Fail> {
    let mut layout = List::new(alloc);
    layout.push(Bits {
        word: 0,
        start: 0,
        end: 7,
        signed: false,
    })?;
    layout.push(Bits {
        word: 0,
        start: 8,
        end: 8,
        signed: false,
    })?;
    Ok(layout)
}

fn facts(alloc: Global) -> Result<Facts, Fail>
    ensures { IfOk result (λ f. length f.store ≡ 1) }
{
    let mut store = List::new(alloc);
    store.push(packed_value(alloc)?)?;
    let mut layouts = List::new(alloc);
    layouts.push(packed_layout(alloc)?)?;
    Ok(Facts {
        store,
        layouts,
        regions: 0,
        events: List::new(alloc),
        buffers: List::new(alloc),
        processes: 1,
        signals: List::new(alloc),
        input: List::new(alloc),
        units: 1000,
    })
}

#[test]
fn a_packed_structure_has_one_word(rt: HostRuntime) -> Result<(), Fail> {
    let alloc = rt.alloc();
    let facts = facts(alloc)?;
    let sound = are_sound(alloc, &facts)?;
    assert!(rt; sound);
    let store = Store::new(alloc, &facts)?;
    assert!(rt; matches!(store.words(0), [263]));
    Ok(())
}
