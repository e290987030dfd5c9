//! One cycle of a core, and its end.
ghost use Rattle.std.specs.Prelude.{◌≡◌, ◌≤◌, ◌+◌, ◌||◌, ℕ, true, false, List, Option, Some, None, IsSome, is_some, option_map};
ghost use Rattle.access_log.specs.declared.request.Request.{Request};
ghost use Rattle.access_log.specs.Requests.{fetch_of};
ghost use Rattle.mem_port.specs.Engine.{IsSound};
ghost use Rattle.mem_port.specs.Calls.{Call, Lead};
ghost use Rattle.mem_port.specs.ServiceHistory.{ServiceHistory, is_unmet};
ghost use Rattle.mem_port.specs.declared.port.PortState.TheVariants.{Free};
ghost use Rattle.mem_port.specs.declared.port.Withdrawal.{Withdrawal};
ghost use Rattle.mem_port.specs.Ports.{core_of, MayAsk};
ghost use Rattle.mem_port.specs.Side.{KeepsSide, port_phase};
ghost use Rattle.core_run.specs.declared.lane.Came.{Came};
ghost use Rattle.core_run.specs.Cycle.{IsCycle, IsEnding, IsDrained, sends, opens, takes, steps, cycle_calls, lane_after, moved_in, withdraws};
ghost use Rattle.core_run.specs.Lanes.{HasCome, IsCoupled, SideSends, HasAsks, PortHolds, Progressed, IsFinished, StopsWhereDead, IsClosed};
ghost use Rattle.core_run.specs.Running.{IsOn, IsOnOrOver, AreOfCycle, IsServedAt, ReceivesOne, end_after};
ghost use Rattle.core_run.specs.Meets.{Makes, Opens, TakesUp, StepsOn, Meets, Closes};

use crate::CoreSide;
use access_log::Request;
use mem_port::{CoreEngine, Moved, Port, Progress, Withdrawal};
use timetable::End;

/// Which requests of a core are open: served, and their answers not taken yet.
#[derive(Clone, Copy)]
pub struct Lane {
    pub core: u32,
    pub open_fetch: bool,
    pub open_access: bool,
}

impl Lane {
    /// The lane of a core with no request.
    pub fn new(core: u32) -> Lane
        ensures core { result.core ≡ core }
        ensures closed { IsClosed result }
    {
        Lane {
            core,
            open_fetch: false,
            open_access: false,
        }
    }
}

/// What came in a cycle of a core: the answer to its access, its word of code, and whether the step
/// that was made moved something.
#[derive(Clone, Copy)]
pub struct Came {
    pub reply: Option<u32>,
    pub fetched: Option<u32>,
    pub step: Option<Moved>,
}

/// Asks a request and serves it.
fn send<S: CoreSide>(side: &mut S, port: Port, request: Request)
    requires serves { S.serves side.old (core_of port) }
    requires free { (S.view side.old (core_of port)).port port ≡ Free }
    requires left { 1 ≤ (S.view side.old (core_of port)).asks_left port }
    requires proper { MayAsk (S.view side.old (core_of port)).image port request }
    ensures made { Makes S.serves S.makes S.leaves_others S.paid (core_of port) (sends port (Some request)) 0 side.old side.new }
    ensures met { SideSends port request (S.view side.old (core_of port)) (S.view side.new (core_of port)) }
{
    side.ask(port, request);
    side.serve(port);
}

/// Asks and serves what is wanted on a port, where nothing is open there.
fn open_port<S: CoreSide>(side: &mut S, port: Port, is_open: bool, want: Option<Request>)
    requires serves { S.serves side.old (core_of port) }
    requires holds { PortHolds is_open (port_phase ((S.view side.old (core_of port)).port port)) want }
    requires left { is_open ≡ false → 1 ≤ (S.view side.old (core_of port)).asks_left port }
    requires proper { (r : Request) → want ≡ Some r → MayAsk (S.view side.old (core_of port)).image port r }
    ensures made { Makes S.serves S.makes S.leaves_others S.paid (core_of port) (sends port (opens is_open want)) 0 side.old side.new }
    ensures met { Opens port is_open want (S.view side.old (core_of port)) (S.view side.new (core_of port)) }
{
    if is_open {
        return;
    }
    let Some(request) = want else {
        return;
    };
    send(side, port, request);
}

/// Takes the answer to what is wanted on a port, where it is open.
fn take_answer<S: CoreSide>(side: &mut S, port: Port, want: Option<Request>) -> Option<u32>
    requires serves { S.serves side.old (core_of port) }
    requires holds { PortHolds (is_some want) (port_phase ((S.view side.old (core_of port)).port port)) want }
    ensures made { Makes S.serves S.makes S.leaves_others S.paid (core_of port) (takes port want result) 0 side.old side.new }
    ensures met { TakesUp port want result (S.view side.old (core_of port)) (S.view side.new (core_of port)) }
{
    if want.is_none() {
        return None;
    }
    side.take(port)
}

/// Makes one step where something is open.
fn step_if_open<S: CoreSide>(side: &mut S, lane: &Lane, choice: u32) -> Option<Moved>
    requires serves { S.serves side.old lane.now.core }
    ensures made { Makes S.serves S.makes S.leaves_others S.paid lane.now.core (steps choice result) (moved_in result) side.old side.new }
    ensures met { StepsOn lane.now.core (lane.now.open_access || lane.now.open_fetch) result (S.view side.old lane.now.core) (S.view side.new lane.now.core) }
{
    if lane.open_access || lane.open_fetch {
        Some(side.step(choice))
    } else {
        None
    }
}

/// The request for the word of code that an engine waits for.
fn wanted_fetch<E: CoreEngine>(engine: &E) -> Option<Request>
    ensures want { result ≡ option_map fetch_of (E.view engine.now).fetch }
{
    match engine.want_fetch() {
        Some(addr) => Some(Request::fetch(addr)),
        None => None,
    }
}

/// Whether something is wanted and didn't come.
fn is_unmet(want: Option<Request>, answer: Option<u32>) -> bool
    ensures unmet { result ≡ is_unmet want answer }
{
    want.is_some() && answer.is_none()
}

/// A cycle of a core but for the clock of its engine.
fn meet<E: CoreEngine, S: CoreSide>(engine: &E, side: &mut S, lane: &mut Lane, choice: u32) -> Came
    requires serves { S.serves side.old lane.old.core }
    requires coupled { IsCoupled (E.view engine.now) (S.view side.old lane.old.core) lane.old }
    requires asks { HasAsks (S.view side.old lane.old.core) lane.old }
    ensures made { Makes S.serves S.makes S.leaves_others S.paid lane.old.core (cycle_calls choice (E.view engine.now) lane.old result) (moved_in result.step) side.old side.new }
    ensures lane { lane.new ≡ lane_after (E.view engine.now) lane.old result }
    ensures met { Meets (E.view engine.now) lane.old result (S.view side.old lane.old.core) (S.view side.new lane.old.core) }
{
    let core = lane.core;
    let access = engine.want_access();
    let fetch = wanted_fetch(engine);
    open_port(side, Port::Access(core), lane.open_access, access);
    open_port(side, Port::Fetch(core), lane.open_fetch, fetch);
    let reply = take_answer(side, Port::Access(core), access);
    let fetched = take_answer(side, Port::Fetch(core), fetch);
    lane.open_access = is_unmet(access, reply);
    lane.open_fetch = is_unmet(fetch, fetched);
    let step = step_if_open(side, lane, choice);
    Came {
        reply,
        fetched,
        step,
    }
}

/// One cycle of a core.
///
/// In this order: the wanted access is asked and served, where none is open; then the wanted fetch;
/// the answer of the access is taken, then that of the fetch; where one of them is still open, the
/// memory makes one step; and the engine is clocked with what was taken.
pub fn cycle<E: CoreEngine, S: CoreSide>(
    engine: &mut E,
    side: &mut S,
    lane: &mut Lane,
    choice: u32,
) -> Progress
    requires serves { S.serves side.old lane.old.core }
    requires coupled { IsCoupled (E.view engine.old) (S.view side.old lane.old.core) lane.old }
    requires live { (E.view engine.old).is_live ≡ true }
    requires clocks { 1 ≤ (E.view engine.old).clocks_left }
    requires asks { HasAsks (S.view side.old lane.old.core) lane.old }
    ensures serves { S.serves side.new lane.old.core }
    ensures coupled { IsCoupled (E.view engine.new) (S.view side.new lane.old.core) lane.new }
    ensures runs { HasCome (E.view engine.old) (S.view side.old lane.old.core).taken → HasCome (E.view engine.new) (S.view side.new lane.old.core).taken }
    ensures progressed { Progressed result (E.view engine.new) }
    ensures kept { KeepsSide (S.view side.old lane.old.core) (S.view side.new lane.old.core) }
    ensures others { S.leaves_others lane.old.core side.old side.new }
    ensures cycle { (came : Came) × IsCycle E.view E.timed S.view S.makes S.paid choice came result engine.old engine.new side.old side.new lane.old lane.new }
{
    let came = meet(engine, side, lane, choice);
    engine.clock(came.fetched, came.reply)
}

/// Withdraws what is open on a port, and tells what has become of it: where nothing is open, there
/// is no answer.
fn close_port<S: CoreSide>(side: &mut S, port: Port, is_open: bool) -> Withdrawal
    requires serves { S.serves side.old (core_of port) }
    requires holds { (want : Option Request) × PortHolds is_open (port_phase ((S.view side.old (core_of port)).port port)) want }
    ensures made { Makes S.serves S.makes S.leaves_others S.paid (core_of port) (withdraws is_open port result) 0 side.old side.new }
    ensures met { (want : Option Request) → PortHolds is_open (port_phase ((S.view side.old (core_of port)).port port)) want
        → Closes port is_open want result (S.view side.old (core_of port)) (S.view side.new (core_of port)) }
{
    if !is_open {
        return Withdrawal::Withdrawn;
    }
    side.withdraw(port)
}

/// Ends an engine whose open access was withdrawn, with what has become of it.
fn drain_open<E: CoreEngine>(engine: &mut E, is_open: bool, answer: Withdrawal)
    requires sound { IsSound (E.view engine.old) }
    requires live { is_open ≡ true → (E.view engine.old).is_live ≡ true }
    requires wants { is_open ≡ true → IsSome (E.view engine.old).access }
    ensures drained { IsDrained E.view E.timed is_open answer engine.old engine.new }
{
    if !is_open {
        return;
    }
    match answer {
        Withdrawal::Withdrawn => engine.drain(None),
        Withdrawal::Answered(word) => engine.drain(Some(word)),
    }
}

/// The end of a core, at a stop or where its budget is spent: its open requests are withdrawn, and
/// an access that was done already is executed.
pub fn finish<E: CoreEngine, S: CoreSide>(engine: &mut E, side: &mut S, lane: &mut Lane)
    requires serves { S.serves side.old lane.old.core }
    requires coupled { IsCoupled (E.view engine.old) (S.view side.old lane.old.core) lane.old }
    requires dead { StopsWhereDead (E.view engine.old) }
    ensures serves { S.serves side.new lane.old.core }
    ensures finished { IsFinished (E.view engine.new) (S.view side.new lane.old.core) lane.old.core }
    ensures runs { HasCome (E.view engine.old) (S.view side.old lane.old.core).taken → HasCome (E.view engine.new) (S.view side.new lane.old.core).taken }
    ensures kept { KeepsSide (S.view side.old lane.old.core) (S.view side.new lane.old.core) }
    ensures others { S.leaves_others lane.old.core side.old side.new }
    ensures ending { (access : Withdrawal) × ((fetch : Withdrawal) × IsEnding E.view E.timed S.view S.makes S.paid access fetch engine.old engine.new side.old side.new lane.old lane.new) }
{
    let access = close_port(side, Port::Access(lane.core), lane.open_access);
    let fetch = close_port(side, Port::Fetch(lane.core), lane.open_fetch);
    drain_open(engine, lane.open_access, access);
    lane.open_access = false;
    lane.open_fetch = false;
}

/// How a core's cycle ends it, if it does: at a stop, or as the last one of its budget.
fn end_after(progress: Progress, cycles: u32, budget: u32) -> Option<End>
    ensures end { result ≡ end_after progress cycles budget }
{
    match progress {
        Progress::Stopped(stop) => Some(End::Stopped(stop)),
        Progress::Running => (cycles == budget).then_some(End::Spent),
    }
}

/// The next cycle of a core that has had so many, and its end, if that was the last one: at a stop, or
/// with the budget spent.
pub fn run_cycle<E: CoreEngine, S: CoreSide>(
    engine: &mut E,
    side: &mut S,
    lane: &mut Lane,
    choice: u32,
    cycles: u32,
    budget: u32,
) -> Option<End>
    requires serves { S.serves side.old lane.old.core }
    requires on { IsOn budget (S.view side.old lane.old.core) (E.view engine.old) lane.old cycles }
    ensures serves { S.serves side.new lane.old.core }
    ensures core { lane.new.core ≡ lane.old.core }
    ensures on_or_over { IsOnOrOver result budget (S.view side.new lane.old.core) (E.view engine.new) lane.new (cycles + 1) }
    ensures kept { KeepsSide (S.view side.old lane.old.core) (S.view side.new lane.old.core) }
    ensures others { S.leaves_others lane.old.core side.old side.new }
    ensures made { (calls : List Call) × (AreOfCycle lane.old.core choice (is_some result) calls × Lead S.makes calls side.old side.new) }
    ensures served { (history : ServiceHistory)
        → IsServedAt E.view E.timed (S.view side.old lane.old.core) engine.old lane.old None cycles history
        → (after : ServiceHistory) × (IsServedAt E.view E.timed (S.view side.new lane.old.core) engine.new lane.new result (cycles + 1) after
        × (history.bound ≡ Some 0 → ReceivesOne (cycles + 1) history after)) }
{
    let progress = cycle(engine, side, lane, choice);
    let end = end_after(progress, cycles + 1, budget)?;
    finish(engine, side, lane);
    Some(end)
}
