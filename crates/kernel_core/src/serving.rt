// One request that is committed, over the kernel's state.
ghost use Rattle.kernel_steps.specs.Kept.{IsKept, IsPrepared};
ghost use Rattle.kernel_steps.specs.Serving.{CanServe, Serves};
ghost use Rattle.kernel_steps.specs.View.{view_of, Commits, IsReadyFor};

use kernel_base::Request;
use kernel_steps::buffers::{receive_buffer, send_buffer};
use kernel_steps::commits::{may_commit, over};
use kernel_steps::ranges::request_in_range;
use kernel_steps::regions::{end, enter, leave};
use kernel_steps::signals::{receive_signal, send_signal};
use kernel_steps::simple::{get, put, read, start, write};
use kernel_steps::waking::{delay, resume};
use kernel_steps::{Ready, Reply, State};
use std::mem;

// One function of `kernel_steps` for each request.
fn serve(s: &mut State, who: u32, ticks: u32, request: Request, ready: Ready) -> Reply
    requires { CanServe s.old who request ready }
    ensures { Serves s.old s.new who ticks request result }
{
    match request {
        Request::Read { place } => read(s, who, ticks, place, ready),
        Request::Write { place, scalars } => write(s, who, ticks, place, scalars, ready),
        Request::Enter { region } => enter(s, who, ticks, region, ready),
        Request::Leave { region } => leave(s, who, ticks, region, ready),
        Request::Delay { events, priority } => delay(s, who, ticks, events, priority, ready),
        Request::Continue { event } => resume(s, who, ticks, event, ready),
        Request::SendBuffer { .. } => send_buffer(s, who, ticks, request, ready),
        Request::ReceiveBuffer { .. } => receive_buffer(s, who, ticks, request, ready),
        Request::SendSignal { to, .. } => send_signal(s, who, ticks, to, request, ready),
        Request::ReceiveSignal { .. } => receive_signal(s, who, ticks, request, ready),
        Request::Start { process, scalars } => start(s, who, ticks, process, scalars, ready),
        Request::Put { bytes } => put(s, who, ticks, bytes, ready),
        Request::Get => get(s, who, ticks, ready),
        Request::End { how } => end(s, who, ticks, how, ready),
    }
}

/// Serves a request, where the run isn't over and the instance may ask it. It takes no memory.
pub fn commit(s: &mut State, who: u32, ticks: u32, request: Request) -> Reply
    requires kept { IsKept s.old }
    requires prepared { IsPrepared s.old }
    requires ready { IsReadyFor (view_of s.old) who request }
    ensures kept { IsKept s.new }
    ensures prepared { IsPrepared s.new }
    ensures commits { Commits (view_of s.old) (view_of s.new) who ticks request result }
{
    if over(s).is_some() {
        return Reply::Over;
    }
    if !may_commit(s, who, &request) {
        return Reply::Stranger;
    }
    match mem::replace(&mut s.ready, None) {
        Some(ready) => {
            request_in_range(&request);
            serve(s, who, ticks, request, ready)
        }
        None => Reply::Stranger,
    }
}
