//! The files of sockets.
use mio::net::UnixStream;
use std::fs::Files;
use std::io::ErrorKind;
use std::net::Net;
use std::os::fd::{AsFd, AsRawFd};
use std::os::unix::fs::{FileTypeExt, MetadataExt};
use std::os::unix::net::{SocketAddr, UnixListener};
use std::{fs, io};

/// The mode of the control socket: it asks for no key.
const OWNER_ALONE: u32 = 0o600;

/// As many connections may wait to be accepted as the system allows.
const MOST_WAITING: i32 = -1;

/// Why a socket isn't made: of an empty path the system would make one that has no file, and that everybody may connect to.
const EMPTY: &str = "the path is empty";

/// Why a socket isn't made, or not listened on.
const NOT_MADE: &str = "the system doesn't let it be set up";

/// The file of a socket, and which one it is.
#[derive(Drop)]
pub struct SocketFile {
    path: String,
    inode: Option<Inode>,
}

/// Which file a path names, whatever its name.
#[derive(Clone, Copy, PartialEq, Eq)]
struct Inode {
    device: u64,
    number: u64,
}

impl SocketFile {
    /// The file of the socket that was made at this path.
    pub fn new<R: Files>(rt: &R, path: String) -> SocketFile {
        let inode = inode_of(rt, path.as_str());
        SocketFile { path, inode }
    }

    /// The path of the file.
    pub fn into_path(self) -> String {
        let SocketFile { path, .. } = self;
        path
    }

    /// Removes the file, unless somebody has put another one in its place.
    pub fn remove<R: Files>(&self, rt: &R) {
        if inode_of(rt, self.path.as_str()) == self.inode {
            let _ = fs::remove_file(rt, self.path.as_str());
        }
    }
}

/// Opens the socket of this path, to which those may connect whom the process' umask lets. A socket that an earlier process left there,
/// and that nobody listens on, is removed. Any other file stays, and then there is no socket.
pub fn bind<R: Files + Net>(rt: &R, path: &str) -> io::Result<UnixListener> {
    bind_in_place(rt, path, None)
}

/// The same as `bind`, for the owner alone: its file has that mode as soon as it is there.
pub fn bind_alone<R: Files + Net>(rt: &R, path: &str) -> io::Result<UnixListener> {
    bind_in_place(rt, path, Some(OWNER_ALONE))
}

/// Opens the socket of this path, in the place of one that was left there.
fn bind_in_place<R: Files + Net>(
    rt: &R,
    path: &str,
    mode: Option<u32>,
) -> io::Result<UnixListener> {
    if let Ok(listener) = listen_at(rt, path, mode) {
        return Ok(listener);
    }
    if is_left(rt, path) {
        fs::remove_file(rt, path)?;
    }
    listen_at(rt, path, mode)
}

/// Opens the socket of a path at which there is nothing. From the start on its file has what the umask leaves of this mode, or of that
/// which is usual.
fn listen_at<R: Files + Net>(rt: &R, path: &str, mode: Option<u32>) -> io::Result<UnixListener> {
    if path.is_empty() {
        return Err(io::Error::new(ErrorKind::InvalidInput, EMPTY));
    }
    let socket = rt.unix_socket()?;
    // the system gives the file the mode that its socket has by then
    if let Some(mode) = mode {
        check(libc::fchmod(socket.as_raw_fd(), mode))?;
    }
    rt.bind_unix(socket.as_fd(), &SocketAddr::from_pathname(path)?)?;
    check(libc::net::listen(socket.as_raw_fd(), MOST_WAITING))?;
    Ok(UnixListener::from(socket))
}

/// The error of a call of the system's that answers this.
fn check(status: i32) -> io::Result<()> {
    if status < 0 {
        return Err(io::Error::new(ErrorKind::Other, NOT_MADE));
    }
    Ok(())
}

/// Whether there is a socket of this path of which the system says that nobody listens on it. Of one whose server accepts none, and that
/// has no room for one that waits more, it says so at once.
fn is_left<R: Files + Net>(rt: &R, path: &str) -> bool {
    match fs::symlink_metadata(rt, path) {
        Ok(there) => there.file_type().is_socket() && is_refused(UnixStream::connect(rt, path)),
        Err(_) => false,
    }
}

/// Whether nobody accepts such a connection.
fn is_refused(connected: io::Result<UnixStream>) -> bool {
    matches!(connected, Err(error) if error.kind() == ErrorKind::ConnectionRefused)
}

/// Which file the path names, if there is one.
fn inode_of<R: Files>(rt: &R, path: &str) -> Option<Inode> {
    let there = fs::symlink_metadata(rt, path).ok()?;
    Some(Inode {
        device: there.dev(),
        number: there.ino(),
    })
}
