//! Who waits for an answer.
use std::io::{ErrorKind, Write};
use std::os::unix::net::UnixStream;

/// Whether the stream's other end is closed, so that nobody takes an answer any more. One that only sends nothing more isn't, and what it
/// sent before needn't be read to know: a write of no bytes fails at a closed one alone.
pub fn is_gone(stream: Option<&UnixStream>) -> bool {
    match stream {
        Some(mut stream) => match stream.write(&[]) {
            Ok(_) => false,
            Err(error) => matches!(
                error.kind(),
                ErrorKind::BrokenPipe | ErrorKind::ConnectionReset | ErrorKind::NotConnected
            ),
        },
        None => false,
    }
}
