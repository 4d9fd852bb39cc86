// What is kept of an instance, in a slab.
ghost use Rattle.std.specs.Prelude.{◌≡◌, Some, IsSome, IfSome};
ghost use Rattle.slab.specs.Slab.{get, slab_len, Updates};

use crate::Phase;
use slab::Slab;

/// What is kept of an instance.
#[derive(Clone, Copy)]
pub struct Record {
    pub number: u32,
    pub process: u32,
    pub phase: Phase,
}

/// The record under a key.
pub fn record_at(records: &Slab<Record>, key: usize) -> Record
    requires { IsSome (get records.now key) }
    ensures { get records.now key ≡ Some result }
{
    *records.get(key).unwrap()
}

/// Sets the phase in the record under a key.
pub fn set_at(records: &mut Slab<Record>, key: usize, phase: Phase)
    requires { IsSome (get records.old key) }
    ensures updates { IfSome (get records.old key) (λ found. Updates records.old records.new key (Some (record found { phase = phase }))) }
    ensures len { slab_len records.new ≡ slab_len records.old }
    ensures capacity { records.new.capacity ≡ records.old.capacity }
{
    if let Some(found) = records.get_mut(key) {
        found.phase = phase;
    }
}
