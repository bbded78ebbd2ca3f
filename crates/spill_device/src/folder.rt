//! The folder that a device over files lies in.
ghost use Rattle.std.specs.Prelude.{◌≡◌, IfOk};
ghost use Rattle.std.specs.String.{string_bytes};

use memory_growth::{OutOfMemory, text_of, texts};
use std::fs::{self, DirBuilder, File, Metadata, TryLockError};
use std::io::{self, ErrorKind};
use std::os::unix::fs::{DirBuilderExt, MetadataExt};
use std::rt::Files;
use thiserror::Error;

/// Only the owner may use a folder of spilled objects.
const FOLDER_MODE: u32 = 0o700;

/// What a folder's mode has if others may use it.
const OTHERS: u32 = 0o077;

/// Why nothing is done in a folder whose path has become another's, or nobody's.
const MOVED: &str = "the folder was moved or removed";

/// Why a folder can't be used for a device.
#[derive(Debug, Drop, Error)]
pub enum FolderFault {
    /// It isn't there, and it can't be made.
    #[error("the folder `{folder}` can't be made: {error}")]
    NotMade { folder: String, error: io::Error },
    /// It belongs to another user than the process.
    #[error("the folder `{folder}` is another user's")]
    NotOwn { folder: String },
    /// Others than its owner may use it.
    #[error("the folder `{folder}` is not its owner's alone (chmod 700)")]
    NotPrivate { folder: String },
    /// Another server has it.
    #[error("the folder `{folder}` is used by another server")]
    InUse { folder: String },
    /// It can't be locked, or files of an earlier server in it can't be removed.
    #[error("the folder `{folder}` can't be used: {error}")]
    Unusable { folder: String, error: io::Error },
    /// The process has no memory for the device.
    #[error("no memory")]
    NoMemory(#[from] OutOfMemory),
}

/// Which file or folder it is, whatever its path: its device, and its number there.
#[derive(Clone, Copy, Debug, PartialEq, Eq)]
pub(crate) struct Identity {
    device: u64,
    inode: u64,
}

impl Identity {
    /// Of what the system says this.
    pub(crate) fn of(there: &Metadata) -> Identity {
        Identity {
            device: there.dev(),
            inode: there.ino(),
        }
    }
}

/// A folder of spilled objects that one server has, until this is dropped: the folder is locked. No contract promises anything of the
/// system's files.
#[derive(Drop)]
pub struct SpillFolder {
    host: HostRuntime,
    path: String,
    identity: Identity,
    lock: File,
}

impl SpillFolder {
    /// The folder of this path, which is made if it isn't there, and its parents with it, for its owner alone, who is the process' own
    /// user. Spilled objects that an earlier server left in it are removed.
    pub fn take(host: HostRuntime, path: &str) -> Result<SpillFolder, FolderFault>
        ensures { IfOk result (λ folder. string_bytes folder.path ≡ path.now) }
    {
        let folder = texts::from_str(host.alloc(), path)?;
        if let Err(error) = make_folder(&host, path) {
            return Err(FolderFault::NotMade { folder, error });
        }
        // what isn't a folder has nothing inside: the system doesn't wait for a pipe here
        let inside = text_of!(in host.alloc(); "{path}/.")?;
        let (lock, there) = match opened(&host, inside.as_str()) {
            Ok(opened) => opened,
            Err(error) => return Err(FolderFault::Unusable { folder, error }),
        };
        if there.uid() != libc::geteuid() {
            return Err(FolderFault::NotOwn { folder });
        }
        if there.mode() & OTHERS != 0 {
            return Err(FolderFault::NotPrivate { folder });
        }
        match lock.try_lock() {
            Ok(()) => {}
            Err(TryLockError::WouldBlock) => return Err(FolderFault::InUse { folder }),
            Err(TryLockError::Error(error)) => return Err(FolderFault::Unusable { folder, error }),
        }
        let identity = Identity::of(&there);
        match sweep(&host, path, identity) {
            Ok(()) => Ok(SpillFolder {
                host,
                path: folder,
                identity,
                lock,
            }),
            Err(error) => Err(FolderFault::Unusable { folder, error }),
        }
    }

    /// Removes the spilled objects that are left in the folder: at the end of a server. If the folder isn't in its place any more,
    /// nothing is removed there, and that is the error.
    pub fn clear(&self) -> io::Result<()> {
        sweep(&self.host, self.path.as_str(), self.identity)
    }

    /// Its path.
    pub(crate) fn path(&self) -> &str
        ensures { result.now ≡ string_bytes self.now.path }
    {
        self.path.as_str()
    }

    /// Which folder it is.
    pub(crate) fn identity(&self) -> Identity {
        self.identity
    }
}

/// The opened folder, and what the system says of it.
fn opened(host: &HostRuntime, path: &str) -> io::Result<(File, Metadata)> {
    let folder = File::open(host, path)?;
    let there = folder.metadata()?;
    Ok((folder, there))
}

/// Removes the spilled objects of the folder, if its path names it.
fn sweep(host: &HostRuntime, path: &str, folder: Identity) -> io::Result<()> {
    check_place(host, path, folder)?;
    remove_spilled(host, path)
}

/// An error if the path doesn't name this folder.
pub(crate) fn check_place<R: Files>(rt: &R, path: &str, folder: Identity) -> io::Result<()> {
    match identity_at(rt, path) {
        Ok(there) if there == folder => Ok(()),
        Err(error) if error.kind() != ErrorKind::NotFound => Err(error),
        _ => Err(io::Error::new(ErrorKind::Other, MOVED)),
    }
}

/// What there is of this path.
fn identity_at<R: Files>(rt: &R, path: &str) -> io::Result<Identity> {
    Ok(Identity::of(&fs::metadata(rt, path)?))
}

/// Makes the folder as `make_folder` does. Which one it is.
pub(crate) fn made_folder<R: Files>(rt: &R, path: &str) -> io::Result<Identity> {
    make_folder(rt, path)?;
    identity_at(rt, path)
}

/// Makes the folder, and its parents with it, for their owner alone.
fn make_folder<R: Files>(rt: &R, path: &str) -> io::Result<()> {
    let mut builder = DirBuilder::new();
    let _ = builder.recursive(true).mode(FOLDER_MODE);
    builder.create(rt, path)
}

/// Removes each regular file of the folder whose name is a spilled object's. Other files stay.
fn remove_spilled(host: &HostRuntime, folder: &str) -> io::Result<()> {
    for entry in fs::read_dir(host, folder)? {
        let entry = match entry {
            Ok(entry) => entry,
            // no name in UTF-8, so none of a spilled object
            Err(error) if error.kind() == ErrorKind::InvalidFilename => continue,
            Err(error) => return Err(error),
        };
        if is_spilled(entry.file_name()) && entry.file_type()?.is_file() {
            fs::remove_file(host, entry.path())?;
        }
    }
    Ok(())
}

/// Whether it is the name of a spilled object's file, or of one that is being written: `JOB.NUMBER` or `JOB.NUMBER.part`.
fn is_spilled(name: &str) -> bool {
    let key = name.strip_suffix(".part").unwrap_or(name);
    match key.split_once('.') {
        Some((job, number)) => is_number(job) && is_number(number),
        None => false,
    }
}

/// Whether it is a number as it is printed: without a zero before it.
fn is_number(text: &str) -> bool {
    let is_led = text.len() > 1 && text.starts_with('0');
    !text.is_empty() && !is_led && text.bytes().all(|byte| byte.is_ascii_digit())
}
