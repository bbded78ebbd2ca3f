//! Lines of frames in digits with what they say.
ghost use Rattle.std.specs.Prelude.{◌≡◌, None, IfOk};
ghost use Rattle.schedules.specs.Vectors.{IsFrameLine};

use crate::commands::command_fault;
use crate::digits::cut_at;
use crate::replies::reply_fault;
use std::alloc::Global;
use std::io;

/// What is wrong with a line of a file of frames.
#[derive(Clone, Copy)]
pub enum Fault {
    /// The text isn't that of a command or of a reply which has a frame.
    Text,
    /// The frame of what the text says has other digits.
    Digits,
    /// What is read from the frame isn't what the text says.
    Reading,
}

impl Fault {
    /// What is wrong, in words.
    pub fn text(self) -> &'static str {
        match self {
            Fault::Text => "the text is that of no command or reply",
            Fault::Digits => "what the text says has another frame",
            Fault::Reading => "the frame is read as something else",
        }
    }
}

/// What is wrong with a line, `DIGITS TEXT`. `None` only if the text is that of a command or of a reply, and the digits are
/// those of its frame.
pub fn fault_of(alloc: Global, line: &str) -> io::Result<Option<Fault>>
    ensures { IfOk result (λ fault. fault ≡ None → IsFrameLine line.now) }
{
    let Some((digits, text)) = cut_at(line, " ") else {
        return Ok(Some(Fault::Text))
    };
    if is_reply(digits.as_bytes()) {
        Ok(reply_fault(alloc, digits, text)?)
    } else {
        command_fault(alloc, digits, text)
    }
}

/// Whether the kind of the frame, which comes after a length of eight digits, is that of a reply: 80 or above.
fn is_reply(digits: &[u8]) -> bool {
    matches!(digits.get(8), Some(b'8'..))
}
