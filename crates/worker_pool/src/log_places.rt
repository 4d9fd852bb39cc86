// Where the logs of instances stand.
ghost use Rattle.std.specs.Prelude.{◌≡◌, IfOk, MatchOption, Some, false, nat_eq, slice_get};
ghost use Rattle.std.specs.HashMap.{get};
ghost use Rattle.worker_pool.specs.Gather.{are_apart, has_log};
ghost use Rattle.worker_pool.specs.LogPlaces.{HasPlaces};

use crate::log::Log;
use chill_base::Memory;
use std::alloc::Global;
use std::collections::HashMap;

/// The places of logs by their instances.
pub type LogPlaces = HashMap<u32, usize>;

/// Where the log of each instance stands, where no instance has two.
pub fn places_of(alloc: Global, logs: &[Log]) -> Result<Option<LogPlaces>, Memory>
    ensures { IfOk result (λ places. MatchOption places (are_apart logs.now ≡ false) (λ p. HasPlaces logs.now (get nat_eq p))) }
{
    let mut places = HashMap::new(alloc);
    for place in 0..logs.len() {
        if places.insert(logs[place].instance, place)?.is_some() {
            return Ok(None);
        }
    }
    Ok(Some(places))
}

/// The log of an instance, and its place.
pub fn find<'a>(logs: &'a [Log], places: &LogPlaces, who: u32) -> Option<(usize, &'a Log)>
    requires { HasPlaces logs.now (get nat_eq places.now) }
    ensures { MatchOption result (has_log logs.now who ≡ false) (λ found. (slice_get logs.now found.0 ≡ Some found.1.now) × (found.1.now.instance ≡ who)) }
{
    match places.get(&who) {
        Some(place) => match logs.get(*place) {
            Some(log) => Some((*place, log)),
            None => None,
        },
        None => None,
    }
}
