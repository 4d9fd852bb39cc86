// A library in memory, whose faults are chosen beforehand.
ghost use Rattle.std.specs.Prelude.{◌≡◌, ◌≤◌, ◌↔◌, ◌⊎◌, ◌+◌, ◌^◌, ℕ, List, Contains, IsErr, IsTrue, None, Some, MatchOption, OnOk, length, min};
ghost use Rattle.std.specs.Io.{ReadsAtMost};
ghost use Rattle.outside_ports.specs.Faults.{HasCause};
ghost use Rattle.outside_ports.specs.Library.{Copies, Gives};
ghost use Rattle.outside_ports.specs.MemoryLibrary.{bytes_of, contents_of, FailsAt, library_after, new_library};

use crate::{Library, PortFault};
use chill_base::{List, Numbers, Text};
use std::marker::Model;

/// A file in memory.
#[derive(Drop)]
pub struct File {
    pub name: Text,
    pub bytes: Text,
}

pub type Files = List<File>;

/// Files in memory. The first of a name counts. Its reads are numbered from 1, and one whose number stands in
/// `fails` is a fault.
#[derive(Drop)]
pub struct MemoryLibrary {
    files: Files,
    fails: Numbers,
    calls: u64,
    faults: u64,
}

impl Model for MemoryLibrary {
    ghost use Rattle.outside_ports.specs.MemoryLibrary.{LibraryState};

    ghost Value = { LibraryState };

    ghost view = { λ l. record { files = l.files; fails = l.fails; calls = l.calls; faults = l.faults } };
}

impl MemoryLibrary {
    /// A library of these files that nobody has read from. It takes no memory.
    pub fn new(files: Files, fails: Numbers) -> MemoryLibrary
        ensures { result ≡ new_library files fails }
    {
        MemoryLibrary {
            files,
            fails,
            calls: 0,
            faults: 0,
        }
    }
}

// Whether the call of this number is to fail.
pub(crate) fn is_to_fail(fails: &Numbers, call: u64) -> bool
    ensures { IsTrue result ↔ Contains fails.now call }
{
    fails.as_slice().iter().any(|n| u64::from(*n) == call)
}

fn find<'a>(files: &'a [File], name: &[u8]) -> Option<&'a [u8]>
    ensures { MatchOption result (bytes_of files.now name.now ≡ None) (λ bytes. bytes_of files.now name.now ≡ Some bytes.now) }
{
    for file in files {
        if file.name.as_slice() == name {
            return Some(file.bytes.as_slice());
        }
    }
    None
}

// Copies the bytes from a place on, as far as they fit.
fn copy_from(text: &[u8], at: u64, into: &mut [u8]) -> usize
    ensures bound { result ≤ length into.new }
    ensures copies { Copies text.now at result into.new }
{
    if at >= text.len() as u64 {
        return 0;
    }
    let rest = &text[at as usize..];
    let n = rest.len().min(into.len());
    into[..n].copy_from_slice(&rest[..n]);
    n
}

impl Library for MemoryLibrary {
    ghost contents = { λ l name. contents_of l.files name };

    ghost faults = { λ l name. l.faults };

    fn read(&mut self, name: &str, at: u64, into: &mut [u8]) -> Result<usize, PortFault>
        ensures bound { ReadsAtMost result into.new }
        ensures gives { Gives (contents_of self.old.files name.now) at result into.new }
        ensures same { (n : List ℕ) → contents_of self.new.files n ≡ contents_of self.old.files n }
        ensures later { (n : List ℕ) → self.old.faults ≤ self.new.faults }
        ensures stays { (n : List ℕ) → OnOk result (self.new.faults ≡ self.old.faults) }
        ensures cause { HasCause self.old.faults self.new.faults result }
        ensures fails { IsErr result ↔ FailsAt self.old name.now }
        ensures counted { self.new ≡ library_after self.old result }
    {
        self.calls = self.calls.saturating_add(1);
        let is_failing = is_to_fail(&self.fails, self.calls);
        match find(self.files.as_slice(), name.as_bytes()) {
            Some(text) if !is_failing => Ok(copy_from(text, at, into)),
            _ => {
                self.faults = self.faults.saturating_add(1);
                Err(PortFault)
            }
        }
    }
}
