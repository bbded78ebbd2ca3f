//! The files of keys: what is done at a path, and what says that it was done there.
ghost use Rattle.std.specs.Prelude.{◌≡◌, length, IfOk};
ghost use Rattle.std.specs.String.{string_bytes};
ghost use Rattle.std.specs.IoError.{error_kind};
ghost use Rattle.std.specs.Fs.{metadata_len, file_type, IsFile};

use crate::folder::Identity;
use bytes::Bytes;
use memory_growth::{MOST_ROOM, OutOfMemory, lists, shared, text_of};
use std::fs::{self, Metadata, OpenFile, OpenOptions};
use std::io::{self, ErrorKind, Read, Write};
use std::os::unix::fs::OpenOptionsExt;
use std::rt::Files;

/// A spilled object is its owner's alone to read.
const FILE_MODE: u32 = 0o600;

/// Why a file that is shorter or longer than it should be isn't taken.
const OTHER_LENGTH: &str = "the file has another length";

/// Why a file is neither read nor written if something else is there.
const NO_FILE: &str = "what is there isn't a regular file";

/// Why nothing is read that is longer than any object.
const TOO_LONG: &str = "no object is so long";

/// Why a call on a key's file failed.
#[derive(Drop)]
pub(crate) enum FileFault {
    /// The process has no memory for the call.
    Memory(OutOfMemory),
    /// The system, or what is there.
    System(io::Error),
}

impl From<OutOfMemory> for FileFault {
    fn from(refused: OutOfMemory) -> FileFault {
        FileFault::Memory(refused)
    }
}

impl From<io::Error> for FileFault {
    fn from(error: io::Error) -> FileFault {
        FileFault::System(error)
    }
}

/// Bytes that were written to the file of this path. Nobody else makes one.
#[derive(Drop)]
pub(crate) struct WrittenFile<'a> {
    path: String,
    bytes: &'a [u8],
    // what the system said of the file after the last byte
    there: Metadata,
    ghost whole: { metadata_len there ≡ length bytes.now },
}

/// The bytes of the file of this path. Nobody else makes one.
#[derive(Drop)]
pub(crate) struct ReadFile {
    path: String,
    bytes: Bytes,
    // what the system said of the file before the first byte
    there: Metadata,
    ghost whole: { metadata_len there ≡ length bytes },
    ghost regular: { IsFile (file_type there) },
}

/// There is no file of this path. Nobody else makes one.
#[derive(Drop)]
pub(crate) struct RemovedFile {
    path: String,
}

impl ReadFile {
    /// What was read.
    pub(crate) fn into_bytes(self) -> Bytes
        ensures { result ≡ self.bytes }
    {
        self.bytes
    }
}

/// Writes the bytes to a new file `PATH.part`, whose name then becomes the path. A write that was cut off may have left such a file.
pub(crate) fn replace<'a, R: Files + AllocGlobal>(
    rt: &R,
    path: String,
    bytes: &'a [u8],
) -> Result<WrittenFile<'a>, FileFault>
    ensures path { IfOk result (λ file. string_bytes file.path ≡ string_bytes path) }
    ensures bytes { IfOk result (λ file. file.bytes.now ≡ bytes.now) }
{
    let part = text_of!(in rt.alloc(); "{path}.part")?;
    match write_beside(rt, part.as_str(), path.as_str(), bytes) {
        Ok(there) => Ok(WrittenFile { path, bytes, there }),
        Err(error) => {
            let _ = fs::remove_file(rt, part.as_str());
            Err(FileFault::System(error))
        }
    }
}

/// Reads all bytes of the path's file. There have to be `len` of them.
pub(crate) fn read_back<R: Files + AllocGlobal>(
    rt: &R,
    path: String,
    len: u32,
) -> Result<ReadFile, FileFault>
    ensures path { IfOk result (λ file. string_bytes file.path ≡ string_bytes path) }
    ensures whole { IfOk result (λ file. length file.bytes ≡ len) }
{
    let (mut file, there) = open_regular(rt, path.as_str())?;
    if there.len() != u64::from(len) {
        return Err(other_length().into());
    }
    if len as usize > MOST_ROOM {
        return Err(io::Error::new(ErrorKind::FileTooLarge, TOO_LONG).into());
    }
    let mut bytes = lists::filled(rt.alloc(), 0u8, len as usize)?;
    file.read_exact(bytes.as_mut_slice())?;
    let bytes = shared::from_vec(bytes)?;
    Ok(ReadFile { path, bytes, there })
}

/// Removes the file of this path, if there is one. A link is removed, and not what it names.
pub(crate) fn remove<R: Files>(rt: &R, path: String) -> io::Result<RemovedFile>
    ensures { IfOk result (λ file. string_bytes file.path ≡ string_bytes path) }
{
    remove_if_there(rt, path.as_str())?;
    Ok(RemovedFile { path })
}

/// Writes the bytes to a new file `part`, whose name then becomes `path`. What the system says of the file.
fn write_beside<R: Files>(rt: &R, part: &str, path: &str, bytes: &[u8]) -> io::Result<Metadata>
    ensures { IfOk result (λ there. metadata_len there ≡ length bytes.now) }
{
    if is_foreign(rt, path) {
        return Err(foreign(ErrorKind::AlreadyExists));
    }
    remove_if_there(rt, part)?;
    let mut options = OpenOptions::new();
    let _ = options.write(true).create_new(true).mode(FILE_MODE);
    let mut file = options.open(rt, part)?;
    file.write_all(bytes)?;
    let there = file.metadata()?;
    if there.len() != bytes.len() as u64 {
        return Err(other_length());
    }
    fs::rename(rt, part, path)?;
    Ok(there)
}

/// Opens what is there, if it is a regular file and no link. What the system says of it.
fn open_regular<R: Files>(rt: &R, path: &str) -> io::Result<(R::File, Metadata)>
    ensures { IfOk result (λ opened. IsFile (file_type opened.1)) }
{
    let seen = fs::symlink_metadata(rt, path)?;
    if !seen.is_file() {
        return Err(foreign(ErrorKind::InvalidData));
    }
    let file = open_at_once(rt, path)?;
    let there = file.metadata()?;
    // the path may have become another file's, or a link, since it was seen
    if !there.is_file() || Identity::of(&there) != Identity::of(&seen) {
        return Err(foreign(ErrorKind::InvalidData));
    }
    Ok((file, there))
}

/// Opens what is there, to be read. The system waits for the other end of a pipe, unless it is opened to be written too. Nothing
/// becomes a pipe if nothing can be written there.
fn open_at_once<R: Files>(rt: &R, path: &str) -> io::Result<R::File> {
    let mut options = OpenOptions::new();
    let _ = options.read(true).write(true);
    match options.open(rt, path) {
        Err(error) if error.kind() == ErrorKind::ReadOnlyFilesystem => fs::open(rt, path),
        opened => opened,
    }
}

/// Whether there is something of this path that isn't a regular file: a link, a pipe or a folder.
fn is_foreign<R: Files>(rt: &R, path: &str) -> bool {
    match fs::symlink_metadata(rt, path) {
        Ok(there) => !there.is_file(),
        Err(_) => false,
    }
}

/// Removes the file of this path, if there is one.
fn remove_if_there<R: Files>(rt: &R, path: &str) -> io::Result<()> {
    match fs::remove_file(rt, path) {
        Err(error) if error.kind() == ErrorKind::NotFound => Ok(()),
        removed => removed,
    }
}

/// The error of a call on a path at which there is something that isn't a regular file.
fn foreign(kind: ErrorKind) -> io::Error
    ensures { error_kind result ≡ kind }
{
    io::Error::new(kind, NO_FILE)
}

/// The error of a call on a file that is shorter or longer than it should be.
fn other_length() -> io::Error
    ensures { error_kind result ≡ ErrorKind.InvalidData }
{
    io::Error::new(ErrorKind::InvalidData, OTHER_LENGTH)
}
