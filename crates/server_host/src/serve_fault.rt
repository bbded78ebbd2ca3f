//! Why nodes aren't served, or no longer.
use memory_growth::OutOfMemory;
use program_lines::Fault;
use spill_device::FolderFault;
use std::io;
use thiserror::Error;

/// Why nodes aren't served, or no longer: the line that the process writes to standard error, without its line feed.
#[derive(Debug, Drop, Error)]
pub enum ServeFault {
    /// The operator's lines, the output or memory.
    #[error("{0}")]
    Fault(Fault),
    /// A folder of spilled objects can't be used.
    #[error("store: output failed: {0}")]
    Folder(FolderFault),
    /// A socket can't be served.
    #[error("store: socket failed: {path}: {error}")]
    Socket { path: String, error: io::Error },
    /// The path of sockets that an option names is empty.
    #[error("store: socket failed: --{option} is empty")]
    NoSocket { option: &'static str },
    /// The path of the folders of spilled objects is empty.
    #[error("store: output failed: --spill is empty")]
    NoFolder,
    /// A worker can't be started.
    #[error("store: no memory: {error}")]
    Worker { error: io::Error },
    /// The machine has less memory than the nodes are to have.
    #[error("store: no memory: {asked} bytes are asked for, and the machine has {there}; serve --overcommit doesn't look")]
    Machine { asked: u64, there: u64 },
}

/// A fault that was written to standard error.
#[derive(Clone, Copy, Debug)]
pub struct PrintedFault;

impl From<FolderFault> for ServeFault {
    fn from(fault: FolderFault) -> ServeFault {
        match fault {
            FolderFault::NoMemory(_) => ServeFault::Fault(Fault::NoMemory),
            fault => ServeFault::Folder(fault),
        }
    }
}

impl From<OutOfMemory> for ServeFault {
    fn from(_error: OutOfMemory) -> ServeFault {
        ServeFault::Fault(Fault::NoMemory)
    }
}
