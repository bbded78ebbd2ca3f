//! Listeners, and the sessions of the streams that they accept. What starts a session's thread makes its actor: what serves the session can't
//! make another.
ghost use Rattle.std.specs.Prelude.{◌≡◌, []};

use crate::Session;
use memory_growth::{OutOfMemory, boxes};
use node_gate::{Actor, ActorSource, JournaledNode, Posted};
use node_housekeeping::{OpenStream, Pause};
use session_engine::{Ended, serve};
use shared_nodes::SharedNode;
use std::alloc::Global;
use std::io::BufWriter;
use std::net::Shutdown;
use std::os::fd::OwnedFd;
use std::os::unix::net::{UnixListener, UnixStream};
use std::sync::{Arc, Wait};
use std::thread::{JoinHandle, Threads};
use std::time::{Clock, Duration};
use std::{io, thread};

/// How long a listener rests after it failed to accept, in milliseconds: while no descriptor is left it would fail again at
/// once.
const REST: u64 = 10;

/// A listener that accepts streams in a thread.
#[derive(Drop)]
pub struct Listening {
    // the listener's own socket: once it is shut down nothing is accepted any more
    socket: UnixStream,
    thread: JoinHandle<()>,
}

impl Listening {
    /// Accepts no stream any more, and waits for the listener's thread, if the node is shut. The sessions go on.
    pub fn end<R: Threads>(self, rt: &R) -> io::Result<()> {
        let Listening { socket, thread } = self;
        socket.shutdown(Shutdown::Both)?;
        thread.join(rt);
        Ok(())
    }
}

/// Serves each stream that the listener accepts, in a thread of its own, until the node is shut and the listener ended.
///
/// A stream that can't be accepted, that comes while 1,024 sessions of the node are open or fewer than 16 descriptors are left, or for
/// which there is no memory or no thread, is closed without an answer, and the others are served.
pub fn listen<
    K: JournaledNode + Send + 'static,
    R: Threads + Wait + Clock + Copy + Send + 'static,
    P: Pause + Send + Sync + 'static,
>(
    rt: R,
    alloc: Global,
    actors: ActorSource,
    node: Arc<SharedNode<K, P>>,
    listener: UnixListener,
) -> io::Result<Listening>
where
    K::Receipt: Send + 'static,
    K::Mail: Send + 'static,
    K::Posted: Send + 'static,
    <K::Posted as Posted>::Directory: Send + 'static,
    K::Erase: Send + 'static,
    K::Entered: Send + 'static,
    K::Prepared: Send + 'static,
    K::Gone: Send + 'static,
{
    let socket = UnixStream::from(OwnedFd::from(listener.try_clone()?));
    let job = move || accept_all(rt, alloc, actors, &node, &listener);
    let thread = thread::spawn(&rt, job)?;
    Ok(Listening { socket, thread })
}

/// Accepts streams until the node is shut and the listener's socket with it.
fn accept_all<
    K: JournaledNode + Send + 'static,
    R: Threads + Wait + Clock + Copy + Send + 'static,
    P: Pause + Send + Sync + 'static,
>(rt: R, alloc: Global, actors: ActorSource, node: &Arc<SharedNode<K, P>>, listener: &UnixListener)
where
    K::Receipt: Send + 'static,
    K::Mail: Send + 'static,
    K::Posted: Send + 'static,
    <K::Posted as Posted>::Directory: Send + 'static,
    K::Erase: Send + 'static,
    K::Entered: Send + 'static,
    K::Prepared: Send + 'static,
    K::Gone: Send + 'static,
{
    for stream in listener.incoming() {
        if node.upkeep().waiting.is_shut() {
            return;
        }
        match stream {
            Ok(stream) => {
                let _ = start_session(rt, alloc, actors, node, stream);
            }
            Err(_) => thread::sleep(&rt, Duration::from_millis(REST)),
        }
    }
}

/// Serves a stream in a thread of its own.
fn start_session<
    K: JournaledNode + Send + 'static,
    R: Threads + Wait + Clock + Copy + Send + 'static,
    P: Pause + Send + Sync + 'static,
>(
    rt: R,
    alloc: Global,
    actors: ActorSource,
    node: &Arc<SharedNode<K, P>>,
    stream: UnixStream,
) -> Result<(), OutOfMemory>
where
    K::Receipt: Send + 'static,
    K::Mail: Send + 'static,
    K::Posted: Send + 'static,
    <K::Posted as Posted>::Directory: Send + 'static,
    K::Erase: Send + 'static,
    K::Entered: Send + 'static,
    K::Prepared: Send + 'static,
    K::Gone: Send + 'static,
{
    let theirs = boxes::another(node)?;
    if !node.upkeep().streams.have_spare(&stream) || !node.begin_session(&rt) {
        return Ok(());
    }
    let job = move || serve_stream(&rt, alloc, actors.actor(), &*theirs, stream);
    if thread::spawn(&rt, job).is_err() {
        node.upkeep().sessions.end(&rt);
    }
    Ok(())
}

/// Serves a session over the stream, to its end.
fn serve_stream<K: JournaledNode, P: Pause, R: Wait + Clock>(
    rt: &R,
    alloc: Global,
    actor: Actor,
    node: &SharedNode<K, P>,
    stream: UnixStream,
)
    requires { actor ≡ [] }
{
    // without memory for its place among the open ones it is closed
    if let Ok(open) = node.upkeep().streams.open(rt, alloc, stream) {
        serve_open(rt, alloc, actor, node, &*open);
        node.upkeep().streams.close(rt, open.stream());
    }
    node.upkeep().sessions.end(rt);
}

/// The same of a stream that has its place among the open ones.
fn serve_open<K: JournaledNode, P: Pause, R: Wait + Clock>(
    rt: &R,
    alloc: Global,
    actor: Actor,
    node: &SharedNode<K, P>,
    open: &OpenStream,
)
    requires { actor ≡ [] }
{
    let mut session = Session::of_stream(rt, actor, node, open);
    let stream = open.stream();
    let mut reader = stream;
    // so that the answers to what came in one piece leave together; without memory for it the stream is closed
    if let Ok(mut writer) = BufWriter::new(alloc, stream) {
        // a fault of a client ends this session alone
        let ended = serve(alloc, &mut reader, &mut writer, &mut session);
        if let Ok(Ended::Malformed) = ended {
            node.upkeep().counts.note_malformed();
        }
    }
    session.end();
}
