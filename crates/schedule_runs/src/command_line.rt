//! The command line of `store`.
ghost use Rattle.std.specs.Prelude.{IfOk, IfSome};
ghost use Rattle.clap.specs.Words.{found_of, kind_of};
ghost use Rattle.schedule_runs.specs.CommandLine.{Asks, IsProgramTask, IsStatusOfError};

use clap::builder::ValueParser;
use clap::error::ErrorKind;
use clap::{Arg, ArgAction, ArgMatches, Command, Error};
use obj_id::limits::{LARGEST_MEMORY, MOST_NODES};
use std::alloc::Global;
use world_core::ClusterSize;

/// What the words of a command line ask for.
#[derive(Clone, Copy, Debug)]
pub enum Task<'a> {
    /// A run of the schedule on standard input.
    Run(ScheduleRun<'a>),
    /// Nodes that serve sessions.
    Serve(Serving<'a>),
    /// The replay of the saved journal of this path.
    Replay(&'a str),
}

/// What a run is to be.
#[derive(Clone, Copy, Debug)]
pub struct ScheduleRun<'a> {
    /// How many nodes there are, and the memory of each.
    pub shape: ClusterSize,
    /// Where the journal of the run is saved, if one is.
    pub journal: Option<&'a str>,
}

/// What nodes that serve are to be.
#[derive(Clone, Copy, Debug)]
pub struct Serving<'a> {
    /// How many nodes there are, and the memory of each.
    pub shape: ClusterSize,
    /// Node K listens on the Unix socket of this path, a full stop and K.
    pub socket: &'a str,
    /// Node K spills into the folder K of this one.
    pub spill: &'a str,
    /// The operator's lines are taken on the Unix socket of this path too, if there is one.
    pub control: Option<&'a str>,
    /// Whether the nodes may have more memory in all than the machine has.
    pub overcommit: bool,
}

/// What the words, the program's name first, ask for. Otherwise the error has what there is to print: help, the version, or
/// what is wrong with the words.
pub fn read_task<'a>(alloc: Global, words: &'a [String]) -> Result<Task<'a>, Error>
    ensures { IfOk result IsProgramTask }
{
    let mut command = store_command(alloc)?;
    let matches = command.try_get_matches_from_mut(words)?;
    if let Some(serve) = matches.subcommand_matches("serve") {
        if let Some(serving) = serving_asked(serve) {
            return Ok(Task::Serve(serving));
        }
    }
    if let Some(replay) = matches.subcommand_matches("replay") {
        if let Some(path) = replay.get_str("path") {
            return Ok(Task::Replay(path));
        }
    }
    match matches.subcommand_matches("run").and_then(running_asked) {
        Some(running) => Ok(Task::Run(running)),
        None => Err(command.error(ErrorKind::MissingSubcommand, "a command is missing")?),
    }
}

/// `store`, with its commands.
fn store_command<'a>(alloc: Global) -> Result<Command<'a>, Error> {
    let command = Command::new(alloc, "store")
        .bin_name("store")?
        .version("0.6.2")
        .about("The shared, immutable object store of a node, used by many jobs at once")
        .subcommand(run_command(alloc)?)?
        .subcommand(serve_command(alloc)?)?
        .subcommand(replay_command(alloc)?)?;
    Ok(command)
}

/// The status of a process whose words ask for no run: 0 after help or the version, 2 after a mistake.
pub fn status_of_error(error: &Error) -> u8
    ensures { IsStatusOfError (kind_of error.now) result }
{
    if error.use_stderr() { 2 } else { 0 }
}

/// `run`, with its options.
fn run_command<'a>(alloc: Global) -> Result<Command<'a>, Error> {
    let command = Command::new(alloc, "run")
        .about("Runs the schedule on standard input, and prints a line for each step")
        .arg(nodes_option(alloc).default_value("1"))?
        .arg(memory_option(alloc).default_value("1048576"))?
        .arg(
            path_option(alloc, "journal")
                .required(false)
                .value_name("PATH")
                .help("The file in which the journal of the run is saved"),
        )?;
    Ok(command)
}

/// `serve`, with its options.
fn serve_command<'a>(alloc: Global) -> Result<Command<'a>, Error> {
    let command = Command::new(alloc, "serve")
        .about("Serves sessions on Unix sockets, and fetches objects between the nodes")
        .arg(
            path_option(alloc, "socket")
                .value_name("PATH")
                .help("Node K listens on the Unix socket PATH.K"),
        )?
        .arg(nodes_option(alloc).required(true))?
        .arg(memory_option(alloc).required(true))?
        .arg(
            path_option(alloc, "spill").value_name("DIR").help(
                "Node K spills into the folder DIR/K, which is made if it is missing",
            ),
        )?
        .arg(
            path_option(alloc, "control")
                .required(false)
                .value_name("PATH")
                .help("The Unix socket that takes the operator's lines too, and more"),
        )?
        .arg(
            Arg::new(alloc, "overcommit")
                .long("overcommit")
                .action(ArgAction::SetTrue)
                .help("Serve also if the machine has less memory than the nodes in all"),
        )?;
    Ok(command)
}

/// `replay`, with its path.
fn replay_command<'a>(alloc: Global) -> Result<Command<'a>, Error> {
    let command = Command::new(alloc, "replay")
        .about(
            "Replays a saved journal, and prints the first answer that isn't the one that is due",
        )
        .arg(
            Arg::new(alloc, "path")
                .value_name("PATH")
                .action(ArgAction::Set)
                .required(true)
                .help("The file of the saved journal"),
        )?;
    Ok(command)
}

/// An option whose value is a path, and that is needed.
fn path_option<'a>(alloc: Global, name: &'a str) -> Arg<'a> {
    Arg::new(alloc, name)
        .long(name)
        .action(ArgAction::Set)
        .required(true)
}

/// `--nodes`.
fn nodes_option<'a>(alloc: Global) -> Arg<'a> {
    Arg::new(alloc, "nodes")
        .long("nodes")
        .value_name("N")
        .action(ArgAction::Set)
        .value_parser(ValueParser::unsigned(1, u64::from(MOST_NODES)))
        .help("How many nodes the cluster has, 1 to 8")
}

/// `--memory`.
fn memory_option<'a>(alloc: Global) -> Arg<'a> {
    Arg::new(alloc, "memory")
        .long("memory")
        .value_name("BYTES")
        .action(ArgAction::Set)
        .value_parser(ValueParser::unsigned(0, LARGEST_MEMORY))
        .help("The bytes of each node's memory, 0 to 17179869184")
}

/// What the options of `serve` ask for, if they are all there and their numbers in range.
fn serving_asked<'a>(options: &ArgMatches<'a>) -> Option<Serving<'a>>
    ensures { IfSome result (λ serving. Asks (found_of options.now) serving.shape) }
{
    let shape = shape_asked(options)?;
    let socket = options.get_str("socket")?;
    let spill = options.get_str("spill")?;
    Some(Serving {
        shape,
        socket,
        spill,
        control: options.get_str("control"),
        overcommit: options.get_flag("overcommit"),
    })
}

/// What the options of `run` ask for, if their numbers are in range.
fn running_asked<'a>(options: &ArgMatches<'a>) -> Option<ScheduleRun<'a>>
    ensures { IfSome result (λ running. Asks (found_of options.now) running.shape) }
{
    Some(ScheduleRun {
        shape: shape_asked(options)?,
        journal: options.get_str("journal"),
    })
}

/// The shape that the options of `run` or `serve` ask for, if their numbers are in range.
fn shape_asked(options: &ArgMatches) -> Option<ClusterSize>
    ensures { IfSome result (Asks (found_of options.now)) }
{
    let nodes = options.get_one::<u32>("nodes")?;
    let memory = options.get_one::<u64>("memory")?;
    if 1 <= nodes && nodes <= MOST_NODES && memory <= LARGEST_MEMORY {
        Some(ClusterSize { nodes, memory })
    } else {
        None
    }
}
