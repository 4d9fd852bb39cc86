// What a run puts.
ghost use Rattle.std.specs.Prelude.{◌≡◌, ◌++◌, IfOk, OnOk};
ghost use Rattle.world_model.specs.Journal.{put_by, output_of};

use chill_base::{Memory, Text};
use kernel_base::{Event, Request};
use std::alloc::Global;

/// The output of a run: the bytes that its events put, in order.
pub fn output_text(alloc: Global, events: &[Event]) -> Result<Text, Memory>
    ensures { IfOk result (λ text. text ≡ output_of events.now) }
{
    let mut text = Vec::new(alloc);
    for event in events {
        push_put(&mut text, event)?;
    }
    Ok(Text::from_vec(text))
}

fn push_put(text: &mut Vec<u8>, event: &Event) -> Result<(), Memory>
    ensures { OnOk result (text.new.items ≡ text.old.items ++ put_by event.now) }
{
    if let Event::Did {
        request: Request::Put { bytes },
        ..
    } = event
    {
        text.extend_from_slice(bytes.as_slice())?;
    }
    Ok(())
}
