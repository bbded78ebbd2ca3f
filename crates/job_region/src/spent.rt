//! Memory of extents that are no more.
use crate::buffer::Buffer;

/// Memory of extents that were taken back. To give it back to the system takes about as long as to read it, so it is let go where nobody
/// waits for the window. It is at most that of one long extent that went, and of one whose bytes were replaced: what more comes
/// is let go at once. A contract sees nothing of it.
#[derive(Drop)]
pub struct Spent {
    buffer: Option<Buffer>,
    own: Option<Vec<u8>>,
}

impl Spent {
    /// Nothing was taken back.
    pub fn nothing() -> Spent {
        Spent {
            buffer: None,
            own: None,
        }
    }

    /// Keeps the buffer of an extent that went.
    pub(crate) fn keep(&mut self, buffer: Buffer) {
        if self.buffer.is_none() && buffer.is_long() {
            self.buffer = Some(buffer);
        }
    }

    /// Keeps what was an extent's own.
    pub(crate) fn keep_own(&mut self, own: Option<Vec<u8>>) {
        if self.own.is_none() {
            self.own = own;
        }
    }
}
