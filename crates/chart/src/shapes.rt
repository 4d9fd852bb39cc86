// Lines, bars and texts, as SVG.
use chill_base::Memory;
use std::alloc::Global;

/// A place in the picture, in pixels from its upper left corner.
#[derive(Clone, Copy)]
pub(crate) struct Point {
    pub x: u32,
    pub y: u32,
}

/// How a line is drawn.
#[derive(Clone, Copy)]
pub(crate) enum Stroke {
    /// An instance that may go on.
    Life,
    /// An instance that waits.
    Wait,
    /// Something goes from one instance to another.
    Message,
    /// What was sent before comes.
    Receipt,
}

fn class_of(stroke: Stroke) -> &'static str {
    match stroke {
        Stroke::Life => "life",
        Stroke::Wait => "wait",
        Stroke::Message => "message",
        Stroke::Receipt => "receipt",
    }
}

/// Appends a line.
pub(crate) fn push_line(
    alloc: Global,
    text: &mut Vec<u8>,
    stroke: Stroke,
    from: Point,
    to: Point,
) -> Result<(), Memory> {
    let class = class_of(stroke);
    let (x1, y1, x2, y2) = (from.x, from.y, to.x, to.y);
    let line = format!(in alloc;
        "<line class=\"{class}\" x1=\"{x1}\" y1=\"{y1}\" x2=\"{x2}\" y2=\"{y2}\"/>\n"
    )?;
    text.extend_from_slice(line.as_bytes())?;
    Ok(())
}

/// Appends a bar from a place on, so wide and so high.
pub(crate) fn push_bar(
    alloc: Global,
    text: &mut Vec<u8>,
    class: &str,
    at: Point,
    width: u32,
    height: u32,
) -> Result<(), Memory> {
    let (x, y) = (at.x, at.y);
    let bar = format!(in alloc;
        "<rect class=\"{class}\" x=\"{x}\" y=\"{y}\" width=\"{width}\" height=\"{height}\"/>\n"
    )?;
    text.extend_from_slice(bar.as_bytes())?;
    Ok(())
}

/// Appends a dot.
pub(crate) fn push_dot(
    alloc: Global,
    text: &mut Vec<u8>,
    class: &str,
    at: Point,
) -> Result<(), Memory> {
    let (x, y) = (at.x, at.y);
    let dot = format!(in alloc; "<circle class=\"{class}\" cx=\"{x}\" cy=\"{y}\" r=\"3\"/>\n")?;
    text.extend_from_slice(dot.as_bytes())?;
    Ok(())
}

/// Appends the tip of an arrow that ends at a place, and points to the right or to the left.
pub(crate) fn push_tip(
    alloc: Global,
    text: &mut Vec<u8>,
    at: Point,
    to_right: bool,
) -> Result<(), Memory> {
    let back = if to_right {
        at.x.saturating_sub(8)
    } else {
        at.x.saturating_add(8)
    };
    let (x, y, above, below) = (at.x, at.y, at.y.saturating_sub(4), at.y.saturating_add(4));
    let tip = format!(in alloc;
        "<path class=\"tip\" d=\"M{x} {y} L{back} {above} L{back} {below} Z\"/>\n"
    )?;
    text.extend_from_slice(tip.as_bytes())?;
    Ok(())
}

/// Appends a text that begins, ends or has its middle at a place, by its class.
pub(crate) fn push_label(
    alloc: Global,
    text: &mut Vec<u8>,
    class: &str,
    at: Point,
    label: &[u8],
) -> Result<(), Memory> {
    let (x, y) = (at.x, at.y);
    let head = format!(in alloc; "<text class=\"{class}\" x=\"{x}\" y=\"{y}\">")?;
    text.extend_from_slice(head.as_bytes())?;
    push_plain(text, label)?;
    text.extend_from_slice(b"</text>\n")?;
    Ok(())
}

// Appends bytes as they are read in a picture: what SVG takes for its own is spelled out, and what can't be seen is a dot.
fn push_plain(text: &mut Vec<u8>, bytes: &[u8]) -> Result<(), Memory> {
    for byte in bytes {
        text.extend_from_slice(plain(*byte))?;
        if is_itself(*byte) {
            text.push(*byte)?;
        }
    }
    Ok(())
}

// Whether a byte stands for itself.
fn is_itself(byte: u8) -> bool {
    b' ' <= byte && byte <= b'~' && byte != b'<' && byte != b'>' && byte != b'&'
}

// What stands for a byte that doesn't stand for itself.
fn plain(byte: u8) -> &'static [u8] {
    match byte {
        b'<' => b"&lt;",
        b'>' => b"&gt;",
        b'&' => b"&amp;",
        b'\n' => b"\xc2\xb6",
        b' '..=b'~' => b"",
        _ => b".",
    }
}
