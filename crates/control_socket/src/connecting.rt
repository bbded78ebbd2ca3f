//! The threads of a control socket, and the one that takes standard input beside it.
ghost use Rattle.std.specs.Prelude.{None};

use crate::control::{Asking, Control, Course, PATIENCE};
use memory_growth::{OutOfMemory, boxes, texts};
use node_gate::{Actor, ActorSource, JournaledNode, Posted};
use operator_service::{LastLine, attend, serve_text};
use program_lines::Fault;
use server_host::{Patient, ServeFault, SocketFile, bind_alone};
use shared_nodes::NodeList;
use std::alloc::Global;
use std::fs::Files;
use std::io::{BufReader, Read};
use std::net::{Net, Shutdown};
use std::os::fd::OwnedFd;
use std::os::unix::net::{UnixListener, UnixStream};
use std::sync::{Arc, Wait};
use std::thread::{JoinHandle, Threads};
use std::time::{Clock, Duration};
use std::{io, thread};

/// How long a listener rests after it failed to accept, in milliseconds.
const REST: u64 = 10;

/// A control socket that accepts connections in a thread.
#[derive(Drop)]
pub struct Connecting<K: JournaledNode> {
    pub control: Arc<Control<K>>,
    file: SocketFile,
    // the listener's own socket: once it is shut down nothing is accepted any more
    socket: UnixStream,
    thread: JoinHandle<()>,
}

impl<K: JournaledNode> Connecting<K> {
    /// Accepts no connection any more, if no order is taken, and removes the socket's file.
    pub fn end<R: Threads + Files>(self, rt: &R) -> Arc<Control<K>> {
        let Connecting {
            control,
            file,
            socket,
            thread,
        } = self;
        if socket.shutdown(Shutdown::Both).is_ok() {
            thread.join(rt);
        }
        file.remove(rt);
        control
    }
}

/// Opens the control socket of this path.
pub fn connect_control<
    K: JournaledNode + Send + 'static,
    R: Threads + Wait + Clock + Files + Net + Copy + Send + 'static,
>(
    rt: R,
    alloc: Global,
    actors: ActorSource,
    nodes: Arc<NodeList<K>>,
    count: u32,
    path: &str,
) -> Result<Connecting<K>, ServeFault>
where
    K::Receipt: Send + 'static,
    K::Mail: Send + 'static,
    K::Posted: Send + 'static,
    <K::Posted as Posted>::Directory: Send + 'static,
    K::Erase: Send + 'static,
    K::Entered: Send + 'static,
    K::Prepared: Send + 'static,
    K::Gone: Send + 'static,
{
    let control = boxes::counted(alloc, Control::new(alloc, nodes, count))?;
    let theirs = boxes::another(&control)?;
    let path = texts::from_str(alloc, path)?;
    let listener = match bind_alone(&rt, path.as_str()) {
        Ok(listener) => listener,
        Err(error) => return Err(ServeFault::Socket { path, error }),
    };
    let file = SocketFile::new(&rt, path);
    match accept(rt, alloc, actors, theirs, listener) {
        Ok((socket, thread)) => Ok(Connecting {
            control,
            file,
            socket,
            thread,
        }),
        Err(error) => {
            file.remove(&rt);
            Err(ServeFault::Worker { error })
        }
    }
}

/// Accepts connections in a thread of its own, and gives the listener's socket with it.
fn accept<K: JournaledNode + Send + 'static, R: Threads + Wait + Clock + Copy + Send + 'static>(
    rt: R,
    alloc: Global,
    actors: ActorSource,
    control: Arc<Control<K>>,
    listener: UnixListener,
) -> io::Result<(UnixStream, JoinHandle<()>)>
where
    K::Receipt: Send + 'static,
    K::Mail: Send + 'static,
    K::Posted: Send + 'static,
    <K::Posted as Posted>::Directory: Send + 'static,
    K::Erase: Send + 'static,
    K::Entered: Send + 'static,
    K::Prepared: Send + 'static,
    K::Gone: Send + 'static,
{
    let socket = UnixStream::from(OwnedFd::from(listener.try_clone()?));
    let job = move || accept_all(rt, alloc, actors, &control, &listener);
    let thread = thread::spawn(&rt, job)?;
    Ok((socket, thread))
}

/// Accepts connections until no order is taken any more and the listener's socket is shut down.
fn accept_all<K: JournaledNode + Send + 'static, R: Threads + Wait + Clock + Copy + Send + 'static>(
    rt: R,
    alloc: Global,
    actors: ActorSource,
    control: &Arc<Control<K>>,
    listener: &UnixListener,
)
where
    K::Receipt: Send + 'static,
    K::Mail: Send + 'static,
    K::Posted: Send + 'static,
    <K::Posted as Posted>::Directory: Send + 'static,
    K::Erase: Send + 'static,
    K::Entered: Send + 'static,
    K::Prepared: Send + 'static,
    K::Gone: Send + 'static,
{
    for stream in listener.incoming() {
        if control.course.is_quiet(&rt) {
            return;
        }
        match stream {
            Ok(stream) => {
                let _ = start_connection(rt, alloc, actors, control, stream);
            }
            Err(_) => thread::sleep(&rt, Duration::from_millis(REST)),
        }
    }
}

/// Serves a connection in a thread of its own. Without memory or a thread for it, it is closed.
fn start_connection<
    K: JournaledNode + Send + 'static,
    R: Threads + Wait + Clock + Copy + Send + 'static,
>(
    rt: R,
    alloc: Global,
    actors: ActorSource,
    control: &Arc<Control<K>>,
    stream: UnixStream,
) -> Result<(), OutOfMemory>
where
    K::Receipt: Send + 'static,
    K::Mail: Send + 'static,
    K::Posted: Send + 'static,
    <K::Posted as Posted>::Directory: Send + 'static,
    K::Erase: Send + 'static,
    K::Entered: Send + 'static,
    K::Prepared: Send + 'static,
    K::Gone: Send + 'static,
{
    let theirs = boxes::another(control)?;
    let job = move || serve_connection(&rt, alloc, actors.actor(), &*theirs, stream);
    let _ = thread::spawn(&rt, job);
    Ok(())
}

/// Serves a connection to its end, if it may begin, by this actor.
fn serve_connection<K: JournaledNode, R: Wait + Clock>(
    rt: &R,
    alloc: Global,
    actor: Actor,
    control: &Control<K>,
    stream: UnixStream,
) {
    let mut actor = actor;
    if let Ok(Some(stream)) = control.course.begin(rt, alloc, stream) {
        answer_all(rt, alloc, &mut actor, control, &*stream);
        control.course.leave(rt, &*stream);
    }
}

/// What comes from a connection's client. The connection is idle while it waits for more.
#[derive(Drop)]
struct Heard<'a, R: Wait> {
    rt: &'a R,
    course: &'a Course,
    stream: &'a UnixStream,
}

/// A contract isn't told what is read.
impl<'a, R: Wait> Read for Heard<'a, R> {
    ghost remaining = { λ _. None };

    fn read(&mut self, buf: &mut [u8]) -> io::Result<usize> {
        self.course.rest(self.rt, self.stream);
        let count = self.stream.read(buf)?;
        if self.course.wake(self.rt, self.stream) {
            Ok(count)
        } else {
            Ok(0)
        }
    }
}

/// Answers the lines of a connection.
fn answer_all<K: JournaledNode, R: Wait + Clock>(
    rt: &R,
    alloc: Global,
    actor: &mut Actor,
    control: &Control<K>,
    stream: &UnixStream,
) {
    let _ = stream.set_write_timeout(Some(Duration::from_secs(PATIENCE)));
    let mut writer = stream;
    let asking = Asking {
        control,
        stream,
        clock: rt,
    };
    let heard = Heard {
        rt,
        course: &control.course,
        stream,
    };
    // without memory for it the connection is closed
    if let Ok(mut reader) = BufReader::new(alloc, heard) {
        // a fault ends this connection alone
        let _ = attend(
            rt,
            actor,
            alloc,
            &*control.nodes,
            control.count,
            &mut reader,
            &mut writer,
            &asking,
        );
    }
}

/// Takes the lines of standard input in a thread of its own, which nobody waits for: it may wait for a line that never comes.
pub fn take_input<
    K: JournaledNode + Send + 'static,
    R: Threads + Wait + Clock + Copy + Send + 'static,
>(
    rt: R,
    host: HostRuntime,
    actors: ActorSource,
    control: &Arc<Control<K>>,
) -> Result<(), ServeFault>
where
    K::Receipt: Send + 'static,
    K::Mail: Send + 'static,
    K::Posted: Send + 'static,
    <K::Posted as Posted>::Directory: Send + 'static,
    K::Erase: Send + 'static,
    K::Entered: Send + 'static,
    K::Prepared: Send + 'static,
    K::Gone: Send + 'static,
{
    let alloc = host.alloc();
    let theirs = boxes::another(control)?;
    let job = move || serve_input(&rt, alloc, actors.actor(), &*theirs, host);
    match thread::spawn(&rt, job) {
        Ok(_) => Ok(()),
        Err(failed) => Err(ServeFault::Worker {
            error: io::Error::from(failed),
        }),
    }
}

/// Standard input, of which the server may have no more need.
#[derive(Drop)]
struct Awaited<'a, R: Wait, S: Drop> {
    rt: &'a R,
    course: &'a Course,
    inner: S,
}

/// A contract isn't told what is read.
impl<'a, R: Wait, S: Read + Drop> Read for Awaited<'a, R, S> {
    ghost remaining = { λ _. None };

    fn read(&mut self, buf: &mut [u8]) -> io::Result<usize> {
        self.course.end_piece(self.rt);
        let count = self.inner.read(buf)?;
        if self.course.take_piece(self.rt) {
            Ok(count)
        } else {
            Ok(0)
        }
    }
}

/// Carries out the lines of standard input by this actor. Its end changes nothing.
fn serve_input<K: JournaledNode, R: Wait + Clock>(
    rt: &R,
    alloc: Global,
    actor: Actor,
    control: &Control<K>,
    host: HostRuntime,
) {
    let mut actor = actor;
    let input = Awaited {
        rt,
        course: &control.course,
        inner: Patient::new(host.reader(), host),
    };
    if let Ok(mut reader) = BufReader::new(alloc, input) {
        let mut writer = Patient::new(io::writer(&host), host);
        match serve_text(
            rt,
            &mut actor,
            alloc,
            &*control.nodes,
            control.count,
            &mut reader,
            &mut writer,
        ) {
            Ok(LastLine::OfInput) => {}
            Ok(LastLine::Close) => control.course.stop(rt, None),
            Err(fault) => control.course.stop(rt, Some(fault)),
        }
    } else {
        control.course.stop(rt, Some(Fault::NoMemory));
    }
    control.course.end_piece(rt);
}
