//! Lines of an input that is trusted to have short ones.
ghost use Rattle.std.specs.Prelude.{◌≡◌, false, IfOk, IfErr, IfSome};
ghost use Rattle.std.specs.Io.{StopsAt};
ghost use Rattle.std.specs.Io.BufRead.{take_through};
ghost use Rattle.std.specs.Io.KnownBytes.{Consumes, IsAtEnd};
ghost use Rattle.program_lines.specs.Endings.{IsReadingFault};

use crate::Fault;
use std::io::{BufRead, ErrorKind};

/// Reads a line with its line feed, the last one perhaps without, unless the input is at its end.
pub fn next_line<R: BufRead>(reader: &mut R, line: &mut Vec<u8>) -> Result<bool, Fault>
    ensures consumed { Consumes (R.remaining reader.old) (R.remaining reader.new) line.new.items }
    ensures one { StopsAt line.new.items 10 }
    ensures whole { IfOk result (λ _. IfSome (R.remaining reader.old) (λ left. line.new.items ≡ take_through 10 left)) }
    ensures end { IfOk result (λ is_line. is_line ≡ false → IsAtEnd (R.remaining reader.old)) }
    ensures fault { IfErr result IsReadingFault }
{
    line.clear();
    match reader.read_until(b'\n', line) {
        Ok(count) => Ok(count != 0),
        Err(error) if error.kind() == ErrorKind::OutOfMemory => Err(Fault::NoMemory),
        Err(_) => Err(Fault::Input),
    }
}
