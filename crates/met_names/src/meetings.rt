// What is known of the names of a program where processes meet.
ghost use Rattle.std.specs.Prelude.{◌≡◌, ◌++◌, OnOk};
ghost use Rattle.met_names.specs.Facts.{fits, meeting_at, number_of, met_at, declared_at, told_misfit};

use crate::meeting::Meeting;
use crate::purpose::Purpose;
use crate::rows::Rows;
use chill_base::Memory;
use chill_tree::tree::Name;
use definition_origins::{CheckRule, Told};
use names_model::Resolved;
use std::alloc::Global;
use std::marker::Model;

/// What each used name stands for and which number each defined name has, by their places; and by the numbers of definitions
/// what processes meet at where one is used, and what its mode is of.
#[derive(Drop)]
pub struct Meetings<'a> {
    alloc: Global,
    uses: Rows<'a>,
    defined: Rows<'a>,
    used: &'a [Option<Meeting>],
    declared: &'a [Option<Meeting>],
}

impl<'a> Model for Meetings<'a> {
    ghost use Rattle.met_names.specs.Facts.{Facts};

    ghost Value = { Facts };

    ghost view = { λ m. record { uses = m.uses; defined = m.defined; used = m.used.now; declared = m.declared.now } };
}

// What stands at a number.
fn meeting_at(meetings: &[Option<Meeting>], number: Option<u32>) -> Option<Meeting>
    ensures { result ≡ meeting_at meetings.now number }
{
    match number {
        None => None,
        Some(number) => match meetings.get(number as usize) {
            None => None,
            Some(meeting) => *meeting,
        },
    }
}

// Whether what is named is what an action is for.
fn fits(purpose: Purpose, named: Meeting) -> bool
    ensures { result ≡ fits purpose named }
{
    match purpose {
        Purpose::Events => named == Meeting::Event,
        Purpose::Messages => named == Meeting::Buffer || named == Meeting::Signal,
        Purpose::Signals => named == Meeting::Signal,
    }
}

impl<'a> Meetings<'a> {
    /// What is known of the names: the rows of those that are used and of those that are defined, and by numbers what is met.
    pub fn new(
        alloc: Global,
        uses: &'a [Resolved],
        defined: &'a [Resolved],
        used: &'a [Option<Meeting>],
        declared: &'a [Option<Meeting>],
    ) -> Meetings<'a>
        ensures { result ≡ record { uses = uses.now; defined = defined.now; used = used.now; declared = declared.now } }
    {
        Meetings {
            alloc,
            uses: Rows::of(uses),
            defined: Rows::of(defined),
            used,
            declared,
        }
    }

    /// Where memory is taken.
    pub fn allocator(&self) -> Global {
        self.alloc
    }

    /// The number of the definition that a used name stands for.
    pub fn number_of(&self, name: &Name) -> Option<u32>
        ensures { result ≡ number_of self.now name.now }
    {
        self.uses.number_at(name.at)
    }

    /// What processes meet at under a used name.
    pub fn met_at(&self, name: &Name) -> Option<Meeting>
        ensures { result ≡ met_at self.now name.now }
    {
        meeting_at(self.used, self.uses.number_at(name.at))
    }

    /// What the mode is of in what a name defines.
    pub fn declared_at(&self, name: &Name) -> Option<Meeting>
        ensures { result ≡ declared_at self.now name.now }
    {
        meeting_at(self.declared, self.defined.number_at(name.at))
    }

    /// Rule P3 of a name in an action of a purpose.
    pub fn tell_misfit(&self, purpose: Purpose, name: &Name, told: &mut Told) -> Result<(), Memory>
        ensures { OnOk result (told.new ≡ told.old ++ told_misfit self.now purpose name.now) }
    {
        match self.met_at(name) {
            None => Ok(()),
            Some(named) => {
                if fits(purpose, named) {
                    return Ok(());
                }
                told.tell_name(CheckRule::P3, name.at, name.text.as_slice())
            }
        }
    }
}
