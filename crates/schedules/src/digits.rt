//! What a line of frames is made of.
ghost use Rattle.std.specs.Prelude.{◌≡◌, ◌++◌, IfOk, IfSome, IsTrue};
ghost use Rattle.hex.specs.Hex.{encode_lower};

use memory_growth::{OutOfMemory, texts};
use std::alloc::Global;

/// What stands before the mark, where it first occurs, and after it.
pub(crate) fn cut_at<'a>(text: &'a str, mark: &'static str) -> Option<(&'a str, &'a str)>
    ensures { IfSome result (λ parts. text.now ≡ parts.0.now ++ mark.now ++ parts.1.now) }
{
    text.split_once(mark)
}

/// Whether these are the digits of the bytes, in lower case.
pub(crate) fn are_digits_of(alloc: Global, digits: &str, bytes: &[u8]) -> Result<bool, OutOfMemory>
    ensures { IfOk result (λ same. IsTrue same → encode_lower bytes.now ≡ digits.now) }
{
    let printed = texts::encode(alloc, bytes)?;
    Ok(printed.as_str() == digits)
}
