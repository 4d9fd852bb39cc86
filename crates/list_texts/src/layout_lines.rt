// The layout of a program's locations, a line for each location and each scalar.
ghost use Rattle.std.specs.Prelude.{◌≡◌, ◌++◌, codes, IfOk, OnOk};
ghost use Rattle.modes.specs.ModeTree.{mode_tree};
ghost use Rattle.list_texts.specs.Layouts as lines;

use crate::paths::push_paths;
use checked_program::{Checked, LocationRow};
use chill_base::{Bits, Layout, List, Memory, Text};
use layout_map::{LayoutRefusal, layout, words};
use modes::Mode;
use std::alloc::Global;

/// The layout of each shared location in the order of the text: `location NAME N words`, and for each scalar its path, word
/// and bits (our own choice).
pub fn layout_text(alloc: Global, program: &Checked) -> Result<Text, Memory>
    ensures { IfOk result (λ text. text ≡ lines.layout_lines program.now.locations) }
{
    let mut text = Vec::new(alloc);
    for location in program.locations.as_slice() {
        push_location(alloc, &mut text, location)?;
    }
    Ok(Text::from_vec(text))
}

fn push_location(alloc: Global, text: &mut Vec<u8>, location: &LocationRow) -> Result<(), Memory>
    ensures { OnOk result (text.new.items ≡ text.old.items ++ lines.location_lines location.now) }
{
    let layout = layout_of(alloc, &location.mode)?;
    push_head(alloc, text, location.name.as_slice(), words(&layout))?;
    let mut paths = List::new(alloc);
    push_paths(alloc, &location.mode, &List::new(alloc), &mut paths)?;
    push_spots(alloc, text, paths.as_slice(), layout.as_slice())
}

// The places of the scalars. A mode that no program has may have none.
fn layout_of(alloc: Global, mode: &Mode) -> Result<Layout, Memory>
    ensures { IfOk result (λ layout. layout ≡ lines.layout_of (mode_tree mode.now)) }
{
    match layout(alloc, mode) {
        Ok(layout) => Ok(layout),
        Err(LayoutRefusal::Memory) => Err(Memory),
        Err(_) => Ok(List::new(alloc)),
    }
}

fn push_head(alloc: Global, text: &mut Vec<u8>, name: &[u8], words: u64) -> Result<(), Memory>
    ensures { OnOk result (text.new.items ≡ text.old.items ++ lines.head_line name.now words) }
{
    push_word(text)?;
    text.extend_from_slice(name)?;
    push_count(alloc, text, words)?;
    Ok(())
}

fn push_word(text: &mut Vec<u8>) -> Result<(), Memory>
    ensures { OnOk result (text.new.items ≡ text.old.items ++ codes "location ") }
{
    text.extend_from_slice(b"location ")?;
    Ok(())
}

fn push_count(alloc: Global, text: &mut Vec<u8>, words: u64) -> Result<(), Memory>
    ensures { OnOk result (text.new.items ≡ text.old.items ++ lines.count_text words) }
{
    let count = format!(in alloc; " {words} words\n")?;
    text.extend_from_slice(count.as_bytes())?;
    Ok(())
}

#[tactic(auto, using(crate::proofs::Lines::spot_steps))]
fn push_spots(
    alloc: Global,
    text: &mut Vec<u8>,
    paths: &[Text],
    layout: &[Bits],
) -> Result<(), Memory>
    ensures { OnOk result (text.new.items ≡ text.old.items ++ lines.spot_lines paths.now layout.now) }
{
    for i in 0..paths.len().min(layout.len()) {
        push_spot(alloc, text, paths[i].as_slice(), layout[i])?;
    }
    Ok(())
}

fn push_spot(alloc: Global, text: &mut Vec<u8>, path: &[u8], bits: Bits) -> Result<(), Memory>
    ensures { OnOk result (text.new.items ≡ text.old.items ++ lines.spot_line path.now bits) }
{
    text.push(b' ')?;
    text.extend_from_slice(path)?;
    let (word, start, end) = (bits.word, bits.start, bits.end);
    let place = format!(in alloc; " word {word} bits {start} to {end}\n")?;
    text.extend_from_slice(place.as_bytes())?;
    Ok(())
}
