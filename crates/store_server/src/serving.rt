//! Nodes that serve Unix sockets.
ghost use Rattle.std.specs.Prelude.{◌≡◌, true};
ghost use Rattle.world_core.specs.Worlds.{is_shape};

use cluster_history::{ClusterShape, HistoryName};
use cluster_threads::{Cluster, Working, work};
use control_socket::{Connecting, connect_control, take_input};
use memory_growth::{MOST_ROOM, boxes, lists, text_of};
use node_gate::{ActorSource, JournaledNode, Posted};
use node_housekeeping::NoPause;
use node_journal::{Recorded, Unnamed};
use operator_service::{serve_text, write_report};
use program_lines::Fault;
use schedule_runs::Serving;
use server_host::{
    Patient, PrintedFault, ServeFault, SocketFile, Telling, TellingDevice, bind, machine_memory,
    most_descriptors,
};
use session_threads::{Listening, listen};
use shared_nodes::{Report, SharedNode};
use spill_device::SpillFolder;
use std::alloc::Global;
use std::fs::Files;
use std::io::{BufRead, BufReader, Read, Write};
use std::marker::Brand;
use std::net::Net;
use std::sync::ledger::Ledger;
use std::sync::{Arc, Wait};
use std::thread::Threads;
use std::time::Clock;

/// The socket of a node.
#[derive(Drop)]
struct NodeListener {
    file: SocketFile,
    listening: Listening,
}

/// What serves the nodes.
#[derive(Drop)]
struct Served<K: JournaledNode> {
    folders: Vec<SpillFolder>,
    workers: Vec<Working<K>>,
    listeners: Vec<NodeListener>,
    control: Option<Connecting<K>>,
}

/// Serves the sockets of all nodes, which fetch from one another, carries out the operator's lines that the reader gives, and
/// writes their answers, and a report at the end. With a control socket the lines of standard input are taken beside it.
///
/// `store: ready` is written to standard error once all sockets listen, and a fault as soon as it comes. After a fault nothing is
/// reported. Sessions that are open are waited for, whatever ended the operator's lines. Then no spilled object is left in the folders.
pub fn serve<
    R: Threads + Wait + Clock + Files + Net + Copy + Send + 'static,
    I: Read + Drop,
    O: Write + Drop,
>(rt: R, host: HostRuntime, serving: Serving<'_>, reader: I, writer: O) -> Result<(), PrintedFault>
    requires { is_shape serving.shape ≡ true }
{
    if let Some(fault) = path_fault(&serving).or(memory_fault(&host, &serving)) {
        return Err(tell(host, fault));
    }
    let Ok(mut reader) = BufReader::new(host.alloc(), Patient::new(reader, host)) else {
        return Err(tell(host, ServeFault::Fault(Fault::NoMemory)))
    };
    let mut writer = Patient::new(writer, host);
    serve_shaped::<Brand, R, BufReader<Patient<I, HostRuntime>>, Patient<O, HostRuntime>>(
        rt,
        host,
        serving,
        &mut reader,
        &mut writer,
    )
}

/// Serves a cluster of this shape, whose history begins here.
fn serve_shaped<
    S: ClusterShape + Send + Sync + 'static,
    R: Threads + Wait + Clock + Files + Net + Copy + Send + 'static,
    I: BufRead,
    O: Write,
>(
    rt: R,
    host: HostRuntime,
    serving: Serving<'_>,
    reader: &mut I,
    writer: &mut O,
) -> Result<(), PrintedFault>
    requires shape { is_shape serving.shape ≡ true }
    requires nodes { serving.shape.nodes ≡ S.nodes }
    requires memory { serving.shape.memory ≡ S.memory }
{
    let unnamed = Unnamed::<S>::new(serving.shape.nodes);
    serve_named::<Brand, S, R, I, O>(rt, host, serving, unnamed, reader, writer)
}

/// Writes the fault to standard error. Whoever reads none is served all the same.
fn tell(host: HostRuntime, fault: ServeFault) -> PrintedFault {
    let _ = host.eprintln(fault);
    PrintedFault
}

/// That a path is empty: what is made of it would lie where nobody meant it to.
fn path_fault(serving: &Serving<'_>) -> Option<ServeFault> {
    if serving.socket.is_empty() {
        return Some(ServeFault::NoSocket { option: "socket" });
    }
    if serving.spill.is_empty() {
        return Some(ServeFault::NoFolder);
    }
    if serving.control.is_some_and(|path| path.is_empty()) {
        return Some(ServeFault::NoSocket { option: "control" });
    }
    None
}

/// That the machine has less memory than the nodes are to have in all, unless that is not to be looked at, or nobody knows.
fn memory_fault(host: &HostRuntime, serving: &Serving<'_>) -> Option<ServeFault> {
    if serving.overcommit {
        return None;
    }
    let there = machine_memory(host)?;
    let asked = serving
        .shape
        .memory
        .saturating_mul(u64::from(serving.shape.nodes));
    if asked <= there {
        return None;
    }
    Some(ServeFault::Machine { asked, there })
}

/// The same, under a name.
fn serve_named<
    L: Ledger + HistoryName + Send + Sync + 'static,
    S: ClusterShape + Send + Sync + 'static,
    R: Threads + Wait + Clock + Files + Net + Copy + Send + 'static,
    I: BufRead,
    O: Write,
>(
    rt: R,
    host: HostRuntime,
    serving: Serving<'_>,
    unnamed: Unnamed<S>,
    reader: &mut I,
    writer: &mut O,
) -> Result<(), PrintedFault>
    requires shape { is_shape serving.shape ≡ true }
    requires nodes { serving.shape.nodes ≡ S.nodes }
    requires memory { serving.shape.memory ≡ S.memory }
    requires name { (unnamed.blank.name ≡ L.name) × (unnamed.blank.parts ≡ L.parts) }
    requires book { unnamed.opened.seen.book ≡ L.book }
    requires all { unnamed.opened.nodes ≡ S.nodes }
{
    let seats = unnamed.named::<L>();
    let shape = serving.shape;
    let Ok(cluster) = Cluster::<Recorded<L, S>>::start(
        host.alloc(),
        shape.nodes,
        shape.memory,
        seats,
        NoPause,
    ) else {
        return Err(tell(host, ServeFault::Fault(Fault::NoMemory)))
    };
    serve_cluster(rt, host, serving, cluster, reader, writer)
}

/// The same of a cluster that was started.
fn serve_cluster<
    K: JournaledNode + Send + 'static,
    R: Threads + Wait + Clock + Files + Net + Copy + Send + 'static,
    I: BufRead,
    O: Write,
>(
    rt: R,
    host: HostRuntime,
    serving: Serving<'_>,
    cluster: Cluster<K>,
    reader: &mut I,
    writer: &mut O,
) -> Result<(), PrintedFault>
where
    K::Receipt: Send + 'static,
    K::Mail: Send + 'static,
    K::Posted: Send + 'static,
    <K::Posted as Posted>::Directory: Send + 'static,
    K::Erase: Send + 'static,
    K::Entered: Send + 'static,
    K::Prepared: Send + 'static,
    K::Gone: Send + 'static,
{
    let alloc = host.alloc();
    let mut cluster = cluster;
    let mut served = Served {
        folders: Vec::new(alloc),
        workers: Vec::new(alloc),
        listeners: Vec::new(alloc),
        control: None,
    };
    let outcome = match cluster.connect(rt) {
        Err(_) => Err(ServeFault::Fault(Fault::NoMemory)),
        Ok(()) => match open_nodes(rt, host, &cluster, serving, &mut served) {
            Ok(()) => take_orders(rt, host, &cluster, serving, reader, writer, &mut served),
            Err(fault) => Err(fault),
        },
    };
    // before anything waits for the sessions that are open
    let outcome = match outcome {
        Ok(()) => Ok(()),
        Err(fault) => Err(tell(host, fault)),
    };
    let report = end_nodes(&rt, cluster, served, outcome.is_ok());
    outcome?;
    match write_report(alloc, &report, writer) {
        Ok(()) => Ok(()),
        Err(fault) => Err(tell(host, ServeFault::Fault(fault))),
    }
}

/// Waits for the open sessions, and ends all that serves the nodes. The report is given to who asked for the end on the control
/// socket, unless it isn't to be told.
fn end_nodes<K: JournaledNode, R: Threads + Wait + Clock + Files>(
    rt: &R,
    cluster: Cluster<K>,
    served: Served<K>,
    is_told: bool,
) -> Report {
    cluster.shut(rt);
    let Served {
        folders,
        workers,
        listeners,
        control,
    } = served;
    close_doors(rt, listeners);
    let control = match control {
        Some(connecting) => {
            connecting.control.quiet(rt);
            Some(connecting.end(rt))
        }
        None => None,
    };
    let report = cluster.close(rt, workers);
    clear_folders(&folders);
    if let Some(control) = control {
        control
            .course
            .end(rt, if is_told { Some(report) } else { None });
    }
    report
}

/// Opens the control socket, if there is to be one, says that all sockets listen, and carries out the operator's lines.
fn take_orders<
    K: JournaledNode + Send + 'static,
    R: Threads + Wait + Clock + Files + Net + Copy + Send + 'static,
    I: BufRead,
    O: Write,
>(
    rt: R,
    host: HostRuntime,
    cluster: &Cluster<K>,
    serving: Serving<'_>,
    reader: &mut I,
    writer: &mut O,
    served: &mut Served<K>,
) -> Result<(), ServeFault>
where
    K::Receipt: Send + 'static,
    K::Mail: Send + 'static,
    K::Posted: Send + 'static,
    <K::Posted as Posted>::Directory: Send + 'static,
    K::Erase: Send + 'static,
    K::Entered: Send + 'static,
    K::Prepared: Send + 'static,
    K::Gone: Send + 'static,
{
    let count = serving.shape.nodes;
    let Some(path) = serving.control else {
        say_ready(host);
        return match serve_text(
            &rt,
            &mut cluster.actors().actor(),
            host.alloc(),
            &**cluster.nodes(),
            count,
            reader,
            writer,
        ) {
            Ok(_) => Ok(()),
            Err(fault) => Err(ServeFault::Fault(fault)),
        };
    };
    let nodes = boxes::another(cluster.nodes())?;
    let connecting = connect_control(rt, host.alloc(), cluster.actors(), nodes, count, path)?;
    let control = boxes::another(&connecting.control)?;
    served.control = Some(connecting);
    say_ready(host);
    take_input(rt, host, cluster.actors(), &control)?;
    match control.course.await_stop(&rt) {
        None => Ok(()),
        Some(fault) => Err(ServeFault::Fault(fault)),
    }
}

/// Says that all sockets listen. Who reads no standard error is served all the same.
fn say_ready(host: HostRuntime) {
    let _ = host.eprintln("store: ready");
}

/// Starts the workers and opens the sockets of all nodes.
fn open_nodes<
    K: JournaledNode + Send + 'static,
    R: Threads + Wait + Clock + Files + Net + Copy + Send + 'static,
>(
    rt: R,
    host: HostRuntime,
    cluster: &Cluster<K>,
    serving: Serving<'_>,
    served: &mut Served<K>,
) -> Result<(), ServeFault>
where
    K::Receipt: Send + 'static,
    K::Mail: Send + 'static,
    K::Posted: Send + 'static,
    <K::Posted as Posted>::Directory: Send + 'static,
    K::Erase: Send + 'static,
    K::Entered: Send + 'static,
    K::Prepared: Send + 'static,
    K::Gone: Send + 'static,
{
    let room = (serving.shape.nodes as usize).min(MOST_ROOM);
    lists::reserve(&mut served.folders, room)?;
    lists::reserve(&mut served.workers, room)?;
    lists::reserve(&mut served.listeners, room)?;
    let telling = Telling::new(host.alloc())?;
    let most = most_descriptors(&host);
    let actors = cluster.actors();
    for number in 0..serving.shape.nodes {
        let Some(node) = cluster.node(number) else {
            return Err(ServeFault::Fault(Fault::Socket))
        };
        if let Some(most) = most {
            node.upkeep().streams.bound(most);
        }
        let path = text_of!(in host.alloc(); "{}/{number}", serving.spill)?;
        let folder = SpillFolder::take(host, path.as_str())?;
        let worker = start_worker(rt, host, actors, node, number, &folder, telling.share()?)?;
        let _ = lists::push(&mut served.folders, folder);
        let _ = lists::push(&mut served.workers, worker);
        let door = open_listener(rt, host.alloc(), actors, node, serving.socket, number)?;
        let _ = lists::push(&mut served.listeners, door);
    }
    Ok(())
}

/// Starts the worker of the node of this number, which spills into the folder. Its device goes into the worker's thread: so it is over
/// the host's own files, which every thread has. It tells of calls that failed together with those of the other nodes.
fn start_worker<
    K: JournaledNode + Send + 'static,
    R: Threads + Wait + Clock + Copy + Send + 'static,
>(
    rt: R,
    host: HostRuntime,
    actors: ActorSource,
    node: &Arc<SharedNode<K>>,
    number: u32,
    folder: &SpillFolder,
    telling: Telling,
) -> Result<Working<K>, ServeFault>
where
    K::Receipt: Send + 'static,
    K::Mail: Send + 'static,
    K::Posted: Send + 'static,
    <K::Posted as Posted>::Directory: Send + 'static,
    K::Erase: Send + 'static,
    K::Entered: Send + 'static,
    K::Prepared: Send + 'static,
    K::Gone: Send + 'static,
{
    let node = boxes::another(node)?;
    let device = TellingDevice::new(rt, host, number, folder, telling)?;
    match work(rt, actors, node, device) {
        Ok(working) => Ok(working),
        Err(error) => Err(ServeFault::Worker { error }),
    }
}

/// Opens the node's socket.
fn open_listener<
    K: JournaledNode + Send + 'static,
    R: Threads + Wait + Clock + Files + Net + Copy + Send + 'static,
>(
    rt: R,
    alloc: Global,
    actors: ActorSource,
    node: &Arc<SharedNode<K>>,
    socket: &str,
    number: u32,
) -> Result<NodeListener, ServeFault>
where
    K::Receipt: Send + 'static,
    K::Mail: Send + 'static,
    K::Posted: Send + 'static,
    <K::Posted as Posted>::Directory: Send + 'static,
    K::Erase: Send + 'static,
    K::Entered: Send + 'static,
    K::Prepared: Send + 'static,
    K::Gone: Send + 'static,
{
    let node = boxes::another(node)?;
    let path = text_of!(in alloc; "{socket}.{number}")?;
    let listener = match bind(&rt, path.as_str()) {
        Ok(listener) => listener,
        Err(error) => return Err(ServeFault::Socket { path, error }),
    };
    let file = SocketFile::new(&rt, path);
    match listen(rt, alloc, actors, node, listener) {
        Ok(listening) => Ok(NodeListener { file, listening }),
        Err(error) => {
            file.remove(&rt);
            Err(ServeFault::Socket {
                path: file.into_path(),
                error,
            })
        }
    }
}

/// Accepts no stream any more, and removes the sockets' files, unless somebody has put others in their places.
fn close_doors<R: Threads + Files>(rt: &R, listeners: Vec<NodeListener>) {
    for door in listeners {
        let NodeListener { file, listening } = door;
        let _ = listening.end(rt);
        file.remove(rt);
    }
}

/// Removes the objects that are left of the nodes. What can't be removed is removed by the next server of the folder.
fn clear_folders(folders: &[SpillFolder]) {
    for folder in folders {
        let _ = folder.clear();
    }
}
