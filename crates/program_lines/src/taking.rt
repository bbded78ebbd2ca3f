//! Lines with a bound, of which no more is kept than that.
ghost use Rattle.std.specs.Prelude.{◌≡◌, ◌∷◌, [], IfOk, IfErr, OnErr, MatchOption};
ghost use Rattle.std.specs.Io.KnownBytes.{Consumes, IsAtEnd, Keeps};
ghost use Rattle.program_lines.specs.Endings.{IsReadingFault};
ghost use Rattle.program_lines.specs.TakenLines.{HasTakenPart, IsKeptByte, IsLineTaken};
ghost use Rattle.program_lines.specs.declared.fault.Fault.TheVariants.{NoMemory};

use crate::Fault;
use memory_growth::{OutOfMemory, lists};
use std::io::{ErrorKind, Read};

/// The bytes that a line of a control connection has at most, without its line feed.
pub const LONGEST_LINE: usize = 4096;

/// A line that was taken of a reader.
#[derive(Clone, Copy, Debug, PartialEq, Eq)]
pub enum LineTaken {
    /// One that is kept.
    Line,
    /// One that is longer than a line may be.
    TooLong,
}

/// Takes a line from the reader, with its line feed, which isn't kept; nor is more of a line that is too long. `None` at the end of the
/// reader, of which there was no line feed left.
pub fn take_line<R: Read>(reader: &mut R, line: &mut Vec<u8>) -> Result<Option<LineTaken>, Fault>
    ensures taken { IfOk result (IsLineTaken (R.remaining reader.old) (R.remaining reader.new) line.new.items) }
    ensures part { OnErr result (HasTakenPart (R.remaining reader.old) (R.remaining reader.new)) }
    ensures fault { IfErr result IsReadingFault }
{
    line.clear();
    let mut is_long = false;
    for _ in 0..u64::MAX {
        match take_byte(reader) {
            Err(fault) => return Err(fault),
            Ok(None) => return Ok(None),
            Ok(Some(b'\n')) if is_long => return Ok(Some(LineTaken::TooLong)),
            Ok(Some(b'\n')) => return Ok(Some(LineTaken::Line)),
            Ok(Some(byte)) => match keep_byte(line, is_long, byte) {
                Err(fault) => return Err(fault),
                Ok(is_longer) => is_long = is_longer,
            },
        }
    }
    // more bytes than there are numbers
    Err(Fault::Input)
}

/// Takes a byte from the reader, unless it is at its end.
fn take_byte<R: Read>(reader: &mut R) -> Result<Option<u8>, Fault>
    ensures taken { IfOk result (λ found. MatchOption found (IsAtEnd (R.remaining reader.new) × Keeps (R.remaining reader.old) (R.remaining reader.new)) (λ byte. Consumes (R.remaining reader.old) (R.remaining reader.new) (byte ∷ []))) }
    ensures none { OnErr result (Keeps (R.remaining reader.old) (R.remaining reader.new)) }
    ensures fault { IfErr result IsReadingFault }
{
    let mut byte = [0u8; 1];
    match reader.read(&mut byte) {
        Ok(0) => Ok(None),
        Ok(_) => Ok(Some(byte[0])),
        Err(error) if error.kind() == ErrorKind::OutOfMemory => Err(Fault::NoMemory),
        Err(_) => Err(Fault::Input),
    }
}

/// Keeps a byte of a line, unless the line is too long, or is with it: whether it is too long then.
fn keep_byte(line: &mut Vec<u8>, is_long: bool, byte: u8) -> Result<bool, Fault>
    ensures kept { IfOk result (λ is_longer. IsKeptByte is_long line.old.items byte line.new.items is_longer) }
    ensures fault { IfErr result (λ fault. fault ≡ NoMemory) }
{
    if is_long || line.len() >= LONGEST_LINE {
        return Ok(true);
    }
    match lists::push(line, byte) {
        Ok(()) => Ok(false),
        Err(_) => Err(Fault::NoMemory),
    }
}
