// Real files as a library. It keeps one count of faults for all names, and the file that was read last stays open: what follows
// the bytes that were read is read on from it, so a pipe is read as a whole, and a file that is replaced meanwhile isn't mixed.
// It keeps in mind whether a fault came of want of memory, which isn't the file's.
ghost use Rattle.std.specs.Io.{ReadsAtMost};
ghost use Rattle.outside_ports.specs.Library.{untold};

use crate::patience::read_patiently;
use outside_ports::{Library, PortFault};
use std::fs;
use std::io::{self, ErrorKind, Read, Seek, SeekFrom};
use std::rt::Files;
use std::time::Clock;

// An open file, and the place up to which it was read.
#[derive(Drop)]
struct OpenText<F: Drop> {
    name: String,
    at: u64,
    file: F,
}

#[derive(Drop)]
pub struct FileLibrary<'a, R: Files> {
    rt: &'a R,
    open: Option<OpenText<R::File>>,
    faults: u64,
    lacks_memory: bool,
}

impl<'a, R: Files> FileLibrary<'a, R> {
    pub fn new(rt: &'a R) -> Self {
        FileLibrary {
            rt,
            open: None,
            faults: 0,
            lacks_memory: false,
        }
    }

    /// Whether some fault came of want of memory.
    pub fn lacks_memory(&self) -> bool {
        self.lacks_memory
    }
}

// The file, opened at that place.
fn open_at<R: Files + AllocGlobal>(rt: &R, name: &str, at: u64) -> io::Result<OpenText<R::File>> {
    let name = String::from_str(rt.alloc(), name)?;
    let mut file = fs::open(rt, name.as_str())?;
    if at > 0 {
        file.seek(SeekFrom::Start(at))?;
    }
    Ok(OpenText { name, at, file })
}

// Reads on where the open file was read up to that place, and else from the file opened anew. After a fault none is open.
fn read_on<R: Files + Clock + AllocGlobal>(
    rt: &R,
    open: &mut Option<OpenText<R::File>>,
    name: &str,
    at: u64,
    into: &mut [u8],
) -> io::Result<usize>
    ensures { ReadsAtMost result into.new }
{
    let mut text = match open.take() {
        Some(text) if text.at == at && text.name.as_str() == name => text,
        _ => open_at(rt, name, at)?,
    };
    let count = read_patiently(rt, &mut text.file, into)?;
    text.at = at.saturating_add(count as u64);
    *open = Some(text);
    Ok(count)
}

impl<R: Files + Clock + AllocGlobal> Library for FileLibrary<'_, R> {
    ghost contents = { λ _ _. untold };

    ghost faults = { λ l _. l.faults };

    fn read(&mut self, name: &str, at: u64, into: &mut [u8]) -> Result<usize, PortFault> {
        match read_on(self.rt, &mut self.open, name, at, into) {
            Ok(count) => Ok(count),
            Err(error) => {
                self.lacks_memory |= error.kind() == ErrorKind::OutOfMemory;
                self.faults = self.faults.saturating_add(1);
                Err(PortFault)
            }
        }
    }
}
