// Buffers and signals.
ghost use Rattle.std.specs.Prelude.{◌≡◌, length, IfOk};

use buffers_signals::{Buffers, Received, Sent, Signals};
use chill_base::List;
use kernel_base::{Facts, Request};
use std::alloc::Global;
use std::test::Fail;

fn facts(alloc: Global) -> Result<Facts, Fail>
    ensures { IfOk result (λ f. (length f.buffers ≡ 1) × (length f.signals ≡ 1)) }
{
    let mut buffers = List::new(alloc);
    buffers.push(Some(1))?;
    let mut signals = List::new(alloc);
    signals.push(None)?;
    Ok(Facts {
        store: List::new(alloc),
        layouts: List::new(alloc),
        regions: 0,
        events: List::new(alloc),
        buffers,
        processes: 1,
        signals,
        input: List::new(alloc),
        units: 1000,
    })
}

#[test]
fn a_value_is_stored(rt: HostRuntime) -> Result<(), Fail> {
    let alloc = rt.alloc();
    let facts = facts(alloc)?;
    let mut buffers = Buffers::new(alloc, &facts)?;
    buffers.reserve(1)?;
    let sent = buffers.send(
        1,
        1,
        Request::SendBuffer {
            buffer: 0,
            scalars: List::new(alloc),
            priority: 0,
        },
    );
    assert!(rt; matches!(sent, Sent::Stored));
    Ok(())
}

#[test]
fn no_value_is_there(rt: HostRuntime) -> Result<(), Fail> {
    let alloc = rt.alloc();
    let facts = facts(alloc)?;
    let mut buffers = Buffers::new(alloc, &facts)?;
    buffers.reserve(1)?;
    let request = Request::ReceiveBuffer {
        buffers: List::new(alloc),
        otherwise: true,
    };
    let received = buffers.receive(1, 0, request);
    assert!(rt; matches!(received, Received::Otherwise));
    Ok(())
}

#[test]
fn a_signal_pends(rt: HostRuntime) -> Result<(), Fail> {
    let alloc = rt.alloc();
    let facts = facts(alloc)?;
    let mut signals = Signals::new(alloc, &facts)?;
    signals.reserve(1)?;
    let sent = signals.send(
        1,
        1,
        Request::SendSignal {
            signal: 0,
            scalars: List::new(alloc),
            to: None,
            priority: 0,
        },
    );
    assert!(rt; matches!(sent, Sent::Stored));
    Ok(())
}

#[test]
fn no_signal_is_there(rt: HostRuntime) -> Result<(), Fail> {
    let alloc = rt.alloc();
    let facts = facts(alloc)?;
    let mut signals = Signals::new(alloc, &facts)?;
    signals.reserve(1)?;
    let request = Request::ReceiveSignal {
        signals: List::new(alloc),
        otherwise: true,
    };
    let received = signals.receive(1, 0, request);
    assert!(rt; matches!(received, Received::Otherwise));
    Ok(())
}
