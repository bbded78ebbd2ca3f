//! The kinds of frames that a session sends.
ghost use Rattle.std.specs.Prelude.{◌≡◌, ◌<◌, ◌⊎◌, IfSome, IfNone};
ghost use Rattle.wire_frames.specs.Kinds.{byte_of};

use command_kinds::{CommandKind, KINDS};

/// What a frame is, by its kind's byte.
#[derive(Clone, Copy, Debug, PartialEq, Eq)]
pub(crate) enum FrameKind {
    Hello,
    Of(CommandKind),
}

impl FrameKind {
    /// The kind of a byte, or `None` if there is none: 1 is a Hello, and from 2 on are the kinds of commands in the order of their table.
    pub(crate) fn from_byte(byte: u8) -> Option<FrameKind>
        ensures found { IfSome result (λ kind. byte_of kind ≡ byte) }
        ensures none { IfNone result ((byte ≡ 0) ⊎ (20 < byte)) }
    {
        if byte == 1 {
            return Some(FrameKind::Hello);
        }
        let index = byte.checked_sub(2)?;
        let kind = KINDS.get(usize::from(index)).copied()?;
        Some(FrameKind::Of(kind))
    }
}
