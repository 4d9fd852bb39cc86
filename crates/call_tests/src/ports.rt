// Ports in memory that fail where they are told to.
ghost use Rattle.std.specs.Prelude.{◌<◌};

use chill_base::{Memory, Numbers, Text};
use outside_ports::{File, Files, MemoryFeed, MemoryLibrary, MemorySink};
use std::alloc::Global;

/// The numbers of the read, of the take, and of the puts to out and to err that fail; with 0 none does.
#[derive(Clone, Copy)]
pub struct Faults {
    pub read: u32,
    pub take: u32,
    pub out: u32,
    pub err: u32,
}

/// No port fails.
pub const NONE: Faults = Faults {
    read: 0,
    take: 0,
    out: 0,
    err: 0,
};

/// What a call reads and writes. Each sink takes one byte at a time.
#[derive(Drop)]
pub struct Ports {
    pub library: MemoryLibrary,
    pub input: MemoryFeed,
    pub out: MemorySink,
    pub err: MemorySink,
}

/// A text of these bytes.
pub fn text_of(alloc: Global, bytes: &[u8]) -> Result<Text, Memory> {
    Ok(Text::from_vec(bytes.to_vec(alloc)?))
}

fn fault(alloc: Global, call: u32) -> Result<Numbers, Memory> {
    let mut fails = Numbers::new(alloc);
    fails.push(call)?;
    Ok(fails)
}

// The library of the file f alone.
fn library_of(alloc: Global, bytes: &[u8], fails: u32) -> Result<MemoryLibrary, Memory> {
    let mut files = Files::new(alloc);
    files.push(File {
        name: text_of(alloc, b"f")?,
        bytes: text_of(alloc, bytes)?,
    })?;
    Ok(MemoryLibrary::new(files, fault(alloc, fails)?))
}

fn feed_of(alloc: Global, bytes: &[u8], fails: u32) -> Result<MemoryFeed, Memory> {
    let text = text_of(alloc, bytes)?;
    Ok(MemoryFeed::new(text, fault(alloc, fails)?))
}

fn sink(alloc: Global, fails: u32) -> Result<MemorySink, Memory> {
    let fails = fault(alloc, fails)?;
    MemorySink::new(alloc, 1, 1000, fails)
}

impl Ports {
    /// The text is in the file f.
    pub fn new(alloc: Global, text: &str, input: &[u8], faults: &Faults) -> Result<Ports, Memory> {
        let library = library_of(alloc, text.as_bytes(), faults.read)?;
        let input = feed_of(alloc, input, faults.take)?;
        let out = sink(alloc, faults.out)?;
        let err = sink(alloc, faults.err)?;
        Ok(Ports {
            library,
            input,
            out,
            err,
        })
    }

    /// Whether out and err have taken this.
    pub fn took(&self, out: &str, err: &str) -> bool {
        self.out.taken() == out.as_bytes() && self.err.taken() == err.as_bytes()
    }
}
