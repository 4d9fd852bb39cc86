// The kernel: its calls (Z.200, chapter on concurrent execution).
ghost use Rattle.std.specs.Prelude.{◌≡◌, IfOk, OnOk, All};
ghost use Rattle.kernel_base.specs.Facts.{IsSound};
ghost use Rattle.world_model.specs.Allowed.{IsRun};
ghost use Rattle.world_model.specs.Over.{over_of};
ghost use Rattle.kernel_steps.specs.Kept.{IsWholeBurst};
ghost use Rattle.kernel_steps.specs.Seated.{IsIdle};
ghost use Rattle.kernel_steps.specs.View.{Keeps, Commits, Pauses, Fetches, Takes, Opens, IsReadyFor, IsReadyOf, world_seen, count_of_actives};

use crate::{New, Reply, rooms, serving, taking};
use chill_base::Memory;
use kernel_base::{Answer, Event, Events, Facts, Over, Request};
use kernel_steps::{State, answers, commits, opening};
use std::alloc::Global;
use std::marker::Model;

/// The kernel of a run. Contracts see its facts, its journal, the answers that wait to be fetched, the last instance
/// that was taken, and for what there is room.
#[derive(Drop)]
pub struct Kernel {
    state: State,
}

impl Model for Kernel {
    ghost use Rattle.kernel_base.specs.contracts.value.Value as values;
    ghost use Rattle.kernel_steps.specs.Kept.{IsKept, IsPrepared};
    ghost use Rattle.kernel_steps.specs.View.{View, view_of};
    ghost use Rattle.std.specs.Coded.{codes};

    ghost Value = { View };

    ghost coded = { Prim.hlevel (codes, values.the_row.coded) };

    ghost view = { λ k. view_of k.state };

    ghost invariant = { λ k. IsKept k.state × IsPrepared k.state };
}

impl Kernel {
    /// The kernel of a run from these facts, before its first event. Process 0 is instance 1, which the first `take_new`
    /// gives.
    pub fn new(alloc: Global, facts: Facts) -> Result<Kernel, Memory>
        requires { IsSound facts }
        ensures { IfOk result (Opens facts) }
    {
        Ok(Kernel {
            state: opening::open(alloc, facts)?,
        })
    }

    /// Makes the room for one commit of this request by `who`, or for a pause of `who`, and for what `fetch` and
    /// `take_new` hand out after it.
    pub fn room(&mut self, who: u32, request: &Request) -> Result<(), Memory>
        ensures ready { OnOk result (IsReadyFor self.new who request.now) }
        ensures keeps { Keeps self.old self.new }
    {
        rooms::room(&mut self.state, who, request)
    }

    /// Serves a request of `who`, who made so many ticks since its last event. It notes what comes of the request, and
    /// each going on that becomes possible. It takes no memory.
    pub fn commit(&mut self, who: u32, ticks: u32, request: Request) -> Reply
        requires { IsReadyFor self.old who request }
        ensures { Commits self.old self.new who ticks request result }
    {
        serving::commit(&mut self.state, who, ticks, request)
    }

    /// Notes that a process made the ticks of a whole burst and asked nothing. It takes no memory.
    pub fn pause(&mut self, who: u32, ticks: u32) -> Reply
        requires ready { IsReadyOf self.old who }
        requires ticks { ticks ≡ 256 }
        ensures { Pauses self.old self.new who ticks result }
    {
        commits::pause(&mut self.state, who, ticks)
    }

    /// The answer of one that went on, which is then fetched; none exactly where it has none that wasn't. It takes no
    /// memory.
    pub fn fetch(&mut self, who: u32) -> Option<Answer>
        ensures { Fetches self.old self.new who result }
    {
        answers::fetch(&mut self.state, who)
    }

    /// The next process that was started, in the order of instances; none exactly where each was taken. It takes no
    /// memory.
    pub fn take_new(&mut self) -> Option<New>
        ensures { Takes self.old self.new result }
    {
        taking::take_new(&mut self.state)
    }

    /// How the run is over, if it is.
    pub fn over(&self) -> Option<Over>
        ensures { result ≡ over_of self.now.facts self.now.events }
    {
        commits::over(&self.state)
    }

    /// How many processes are active.
    pub fn actives(&self) -> u32
        ensures { result ≡ count_of_actives (world_seen self.now) }
    {
        commits::actives(&self.state)
    }

    /// The journal: the events so far, in order.
    pub fn events(&self) -> &[Event]
        ensures { result.now ≡ self.now.events }
    {
        self.state.journal.events()
    }

    /// The facts from which the run started.
    pub fn facts(&self) -> &Facts
        ensures { result.now ≡ self.now.facts }
    {
        &self.state.facts
    }

    /// Each event of the journal is allowed in the world that those before it leave, from the opening of the facts on;
    /// of those that were chosen nobody is left who may go on; and each note of ticks is a whole burst.
    pub fn is_run(&self)
        ensures sound { IsSound self.now.facts }
        ensures run { IsRun self.now.facts self.now.events }
        ensures idle { IsIdle (world_seen self.now) }
        ensures bursts { All IsWholeBurst self.now.events }
    {
        commits::is_run(&self.state)
    }

    /// Gives up the kernel for its journal. It takes no memory.
    pub fn into_events(self) -> Events
        ensures events { result ≡ self.events }
        ensures sound { IsSound self.facts }
        ensures run { IsRun self.facts self.events }
    {
        commits::is_run(&self.state);
        self.state.journal.into_events()
    }
}
