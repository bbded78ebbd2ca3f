//! The one place where memory is asked for.
//!
//! Each function here is one of the kit's fallible calls. It asks for what its arguments need and no more: room for one item, for as many as
//! another list has, or for a number that a constant bounds. A refusal is an `OutOfMemory`, which no other crate can make.
#![tactic(auto)]

pub mod boxes;
pub mod buffers;
pub mod caches;
pub mod counters;
pub mod lists;
pub mod ordered;
pub mod sets;
pub mod shared;
pub mod tables;
pub mod texts;

use std::io;
use std::io::ErrorKind;

/// A growth of memory was refused. It has no public constructor, only a `CountEnded` is converted into it, and it is neither `Clone` nor
/// `Default`: whoever has one asked this crate for memory and didn't get it, or counted to the end.
#[derive(Debug, Drop)]
pub struct OutOfMemory {
    refused: (),
}

impl OutOfMemory {
    /// What each refused call here answers.
    pub(crate) fn new() -> OutOfMemory {
        OutOfMemory { refused: () }
    }
}

/// For what fails by the system's errors too: threads, files and sockets.
impl From<OutOfMemory> for io::Error {
    ghost use Rattle.std.specs.Prelude.{◌≡◌};
    ghost use Rattle.std.specs.IoError.{error_kind};
    ghost use Rattle.std.specs.declared.io.ErrorKind.TheVariants as kind;

    ghost from_gives = { λ _ error. error_kind error ≡ kind.OutOfMemory };

    fn from(_refused: OutOfMemory) -> io::Error {
        io::Error::from(ErrorKind::OutOfMemory)
    }
}

/// How many items, or bytes, may be asked for by their number alone: 2^28.
pub const MOST_ROOM: usize = 1 << 28;

/// A text of a format, as `format!` makes it: `text_of!(in alloc; "{number}")?`.
#[macro_export]
macro_rules! text_of {
    (in $alloc:expr; $($format:tt)+) => {
        $crate::texts::displayed($alloc, format_args!($($format)+))
    };
}
