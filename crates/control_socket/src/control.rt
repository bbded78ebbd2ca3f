//! The control socket of nodes that serve: what its connections share, and when the server closes.
ghost use Rattle.std.specs.Prelude.{◌≡◌, vec_len};
ghost use Rattle.std.specs.Arc.{arc_value};

use memory_growth::{OutOfMemory, boxes, lists};
use node_gate::JournaledNode;
use operator_service::{Closed, Closing};
use program_lines::Fault;
use shared_nodes::{NodeList, Report, SessionsShut};
use std::alloc::Global;
use std::net::Shutdown;
use std::os::fd::AsRawFd;
use std::os::unix::net::UnixStream;
use std::sync::{Arc, Condvar, CondvarTimeouts, Mutex, Wait};
use std::thread;
use std::time::{Clock, Duration};

/// How many control connections there are at most, but for those that have made room and end.
const MOST_CONNECTIONS: usize = 16;

/// How long an answer waits for a connection that doesn't take it, in seconds: longer, and the connection ends. At the server's end all
/// answers of a connection together wait no longer.
pub(crate) const PATIENCE: u64 = 5;

/// How long open sessions may go on once they are to end, in hundredths of a second.
const GRACE: u32 = 50;

/// How far the server has come.
#[derive(Clone, Copy, PartialEq, Eq, PartialOrd, Ord)]
enum Stage {
    /// It serves.
    Serving,
    /// It was asked to close, or has a fault.
    Stopping,
    /// No session begins any more.
    Shut,
    /// No session is open, and no order is taken any more.
    Quiet,
    /// It has said all that it says.
    Over,
}

/// What a connection is about.
#[derive(Clone, Copy, PartialEq, Eq)]
enum Doing {
    /// It is idle: each line that came from its client is answered. Of two the one with the lesser number has been idle for longer.
    Idle(u64),
    /// What came from its client is carried out and answered.
    Answering,
    /// It waits for the report.
    Awaiting,
    /// It has made room for another one, and ends.
    Leaving,
}

/// A connection that is open.
#[derive(Drop)]
struct Connection {
    stream: Arc<UnixStream>,
    doing: Doing,
}

/// What the connections share under a lock.
#[derive(Drop)]
struct State {
    stage: Stage,
    // what ended the lines of standard input
    fault: Option<Fault>,
    report: Option<Report>,
    connections: Vec<Connection>,
    // how often a connection became idle
    rests: u64,
    // lines of standard input are carried out
    is_reading: bool,
}

impl State {
    /// Counts that a connection becomes idle.
    fn idle(&mut self) -> Doing {
        let rest = self.rests;
        self.rests = rest.saturating_add(1);
        Doing::Idle(rest)
    }

    /// From now on the connection of this stream is about this. False if it has made room for another one, and is about nothing more.
    fn turn(&mut self, stream: &UnixStream, doing: Doing) -> bool {
        let number = stream.as_raw_fd();
        for open in self.connections.iter_mut() {
            if open.stream.as_raw_fd() == number && open.doing != Doing::Leaving {
                open.doing = doing;
                return true;
            }
        }
        false
    }

    /// Whether there is a place for one connection more. If there is none the one that has been idle for longest makes room.
    fn make_room(&mut self) -> bool {
        let staying = self
            .connections
            .iter()
            .filter(|open| open.doing != Doing::Leaving);
        if staying.count() < MOST_CONNECTIONS {
            return true;
        }
        let Some(longest) = self.longest_idle() else {
            return false;
        };
        if let Some(open) = self
            .connections
            .iter_mut()
            .find(|open| open.doing == longest)
        {
            open.doing = Doing::Leaving;
            let _ = open.stream.shutdown(Shutdown::Both);
        }
        true
    }

    /// What the connection is about that has been idle for longest, if one is idle.
    fn longest_idle(&self) -> Option<Doing> {
        let mut longest = None;
        for open in &self.connections {
            if let Doing::Idle(rest) = open.doing {
                longest = match longest {
                    Some(least) if least <= rest => longest,
                    _ => Some(rest),
                };
            }
        }
        longest.map(Doing::Idle)
    }

    /// Whether an order may still be carried out: of a connection that doesn't wait for the report, or of standard input.
    fn takes_orders(&self) -> bool {
        let is_done = |open: &Connection| matches!(open.doing, Doing::Awaiting | Doing::Leaving);
        self.is_reading || !self.connections.iter().all(is_done)
    }

    /// Shuts the streams of all connections down that don't wait for the report.
    fn shut_down(&self, how: Shutdown) {
        for open in &self.connections {
            if open.doing != Doing::Awaiting {
                let _ = open.stream.shutdown(how);
            }
        }
    }
}

/// How far the server has come, which its connections, its end and standard input tell one another.
#[derive(Drop)]
pub struct Course {
    state: Mutex<State>,
    changed: Condvar,
}

impl Course {
    /// Of a server that serves.
    fn new(alloc: Global) -> Course {
        Course {
            state: Mutex::new(State {
                stage: Stage::Serving,
                fault: None,
                report: None,
                connections: Vec::new(alloc),
                rests: 0,
                is_reading: false,
            }),
            changed: Condvar::new(),
        }
    }

    /// Lets the server close, for this fault, if there is one. Only the first counts.
    pub fn stop<R: Wait>(&self, rt: &R, fault: Option<Fault>) {
        let mut state = self.state.lock(rt);
        if state.stage == Stage::Serving {
            state.stage = Stage::Stopping;
            state.fault = fault;
        }
        drop(state);
        self.changed.notify_all();
    }

    /// Waits until the server is to close, and gives the fault for which it does.
    pub fn await_stop<R: Wait>(&self, rt: &R) -> Option<Fault> {
        let state = self.state.lock(rt);
        let state = self
            .changed
            .wait_while(rt, state, |state| state.stage == Stage::Serving);
        state.fault
    }

    /// Whether what was read of standard input is to be carried out. Nothing is once no order is taken any more.
    pub fn take_piece<R: Wait>(&self, rt: &R) -> bool {
        let mut state = self.state.lock(rt);
        state.is_reading = state.stage < Stage::Quiet;
        state.is_reading
    }

    /// What was read of standard input is carried out.
    pub fn end_piece<R: Wait>(&self, rt: &R) {
        self.state.lock(rt).is_reading = false;
        self.changed.notify_all();
    }

    /// No session begins any more.
    fn shut<R: Wait>(&self, rt: &R) {
        self.state.lock(rt).stage = Stage::Shut;
        self.changed.notify_all();
    }

    /// Waits until no session begins any more.
    fn await_shut<R: Wait>(&self, rt: &R) {
        let state = self.state.lock(rt);
        let state = self
            .changed
            .wait_while(rt, state, |state| state.stage < Stage::Shut);
        drop(state);
    }

    /// Waits until no order is carried out: each connection has ended or waits for the report, and what was read of standard input is done.
    /// A connection that takes its answers too slowly is cut off.
    fn quiet<R: Wait + Clock>(&self, rt: &R) {
        let mut state = self.state.lock(rt);
        state.stage = Stage::Quiet;
        // what was sent before is still answered
        state.shut_down(Shutdown::Read);
        let patience = Duration::from_secs(PATIENCE);
        let (state, late) = self
            .changed
            .wait_timeout_while(rt, state, patience, |state| state.takes_orders());
        if late.timed_out() {
            state.shut_down(Shutdown::Both);
        }
        let state = self
            .changed
            .wait_while(rt, state, |state| state.takes_orders());
        drop(state);
    }

    /// Gives the report to the connections that wait for it, or none after a fault, and waits for their ends. A connection that doesn't take
    /// it is cut off.
    pub fn end<R: Wait + Clock>(&self, rt: &R, report: Option<Report>) {
        let mut state = self.state.lock(rt);
        state.stage = Stage::Over;
        state.report = report;
        self.changed.notify_all();
        let patience = Duration::from_secs(PATIENCE);
        let (state, late) = self
            .changed
            .wait_timeout_while(rt, state, patience, |state| !state.connections.is_empty());
        if late.timed_out() {
            state.shut_down(Shutdown::Both);
        }
        let state = self
            .changed
            .wait_while(rt, state, |state| !state.connections.is_empty());
        drop(state);
    }

    /// Whether no order is taken any more.
    pub fn is_quiet<R: Wait>(&self, rt: &R) -> bool {
        self.state.lock(rt).stage >= Stage::Quiet
    }

    /// A connection begins, idle. If there are as many as may be, the one that has been idle for longest makes room; if none is idle, or
    /// no order is taken any more, it doesn't begin.
    pub fn begin<R: Wait>(
        &self,
        rt: &R,
        alloc: Global,
        stream: UnixStream,
    ) -> Result<Option<Arc<UnixStream>>, OutOfMemory> {
        let stream = boxes::counted(alloc, stream)?;
        let shared = boxes::another(&stream)?;
        let mut state = self.state.lock(rt);
        lists::reserve(&mut state.connections, 1)?;
        if state.stage >= Stage::Quiet || !state.make_room() {
            return Ok(None);
        }
        let doing = state.idle();
        lists::push(
            &mut state.connections,
            Connection {
                stream: shared,
                doing,
            },
        )?;
        Ok(Some(stream))
    }

    /// The connection waits for its client, each line of which is answered.
    pub fn rest<R: Wait>(&self, rt: &R, stream: &UnixStream) {
        let mut state = self.state.lock(rt);
        let doing = state.idle();
        let _ = state.turn(stream, doing);
    }

    /// Whether what came from the connection's client is to be carried out: not if it has made room for another one.
    pub fn wake<R: Wait>(&self, rt: &R, stream: &UnixStream) -> bool {
        self.state.lock(rt).turn(stream, Doing::Answering)
    }

    /// A connection has ended.
    pub fn leave<R: Wait>(&self, rt: &R, stream: &UnixStream) {
        let _ = stream.shutdown(Shutdown::Both);
        let number = stream.as_raw_fd();
        let mut state = self.state.lock(rt);
        let place = state
            .connections
            .iter()
            .position(|open| open.stream.as_raw_fd() == number);
        if let Some(place) = place {
            let _ = state.connections.swap_remove(place);
        }
        drop(state);
        self.changed.notify_all();
    }

    /// Lets a connection wait for the report, or that there is none.
    fn await_report<R: Wait>(&self, rt: &R, stream: &UnixStream) -> Option<Report> {
        let mut state = self.state.lock(rt);
        let _ = state.turn(stream, Doing::Awaiting);
        self.changed.notify_all();
        let mut state = self
            .changed
            .wait_while(rt, state, |state| state.stage < Stage::Over);
        let _ = state.turn(stream, Doing::Answering);
        state.report
    }
}

/// The nodes as the operator's lines reach them, and how far the server has come.
#[derive(Drop)]
pub struct Control<K: JournaledNode> {
    pub nodes: Arc<NodeList<K>>,
    /// How many nodes lines may name.
    pub count: u32,
    pub course: Course,
}

impl<K: JournaledNode> Control<K> {
    /// Of nodes that serve.
    pub fn new(alloc: Global, nodes: Arc<NodeList<K>>, count: u32) -> Control<K> {
        Control {
            nodes,
            count,
            course: Course::new(alloc),
        }
    }

    /// No session begins any more. Waits for those that are open, and then until no order is carried out: each connection has ended or
    /// waits for the report, and what was read of standard input is done. A connection that takes its answers too slowly is cut off.
    pub fn quiet<R: Wait + Clock>(&self, rt: &R) {
        self.course.shut(rt);
        self.nodes.await_sessions(rt);
        self.course.quiet(rt);
    }
}

/// How a connection lets the server close.
#[derive(Drop)]
pub struct Asking<'a, K: JournaledNode, C: Clock> {
    pub control: &'a Control<K>,
    pub stream: &'a UnixStream,
    pub clock: &'a C,
}

impl<'a, N: JournaledNode, C: Clock> Asking<'a, N, C> {
    /// Ends the sessions that are open at these nodes once none begins any more: they answer what they were sent, and who takes no answer is
    /// cut off.
    fn end_sessions<K: JournaledNode, R: Wait>(&self, rt: &R, nodes: &NodeList<K>) -> SessionsShut
        ensures { result.nodes ≡ vec_len nodes.now.nodes }
    {
        self.control.course.await_shut(rt);
        let shut = nodes.shut_sessions(rt, Shutdown::Read);
        for _ in 0..GRACE {
            if !nodes.have_sessions(rt) {
                return shut;
            }
            thread::sleep(self.clock, Duration::from_millis(10));
        }
        nodes.shut_sessions(rt, Shutdown::Both)
    }
}

impl<'a, N: JournaledNode, C: Clock> Closing for Asking<'a, N, C> {
    fn close<K: JournaledNode, R: Wait>(&self, rt: &R, nodes: &NodeList<K>, now: bool) -> Closed {
        self.control.course.stop(rt, None);
        let shut = if now {
            Some(self.end_sessions(rt, nodes))
        } else {
            None
        };
        let report = self.control.course.await_report(rt, self.stream);
        Closed {
            shut,
            // always of all: but of what lies under a lock a clause knows only what was looked at
            report: report.filter(|report| report.nodes() == nodes.count() as u64),
        }
    }
}
