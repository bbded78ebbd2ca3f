//! Growth of texts.
ghost use Rattle.std.specs.Prelude.{◌≡◌, ◌+◌, ◌<◌, ◌≤◌, [], ◌∷◌, ◌++◌, length, is_ok, IsOk, IfOk, IfSome, OnOk, OnErr, if◌then◌else◌, string_bytes, string_len};
ghost use Rattle.std.specs.Char.{encode_utf8};
ghost use Rattle.hex.specs.Hex.{encode_lower};
ghost use Rattle.std.specs.String.{string_capacity};

use crate::OutOfMemory;
use std::alloc::Global;
use std::convert::AsSlice;
use std::fmt::Display;

/// An empty text with room for so many bytes, at most `MOST_ROOM`.
pub fn with_capacity(alloc: Global, capacity: usize) -> Result<String, OutOfMemory>
    requires { capacity ≤ 268435456 }
    ensures bytes { IfOk result (λ text. string_bytes text ≡ []) }
    ensures len { IfOk result (λ text. string_len text ≡ 0) }
    ensures capacity { IfOk result (λ text. capacity ≤ string_capacity text) }
    ensures exact { IfOk result (λ text. string_capacity text ≡ capacity) }
    ensures succeeds { capacity ≡ 0 → IsOk result }
{
    match String::with_capacity(alloc, capacity) {
        Ok(text) => Ok(text),
        Err(_) => Err(OutOfMemory::new()),
    }
}

/// A copy of a text.
pub fn from_str(alloc: Global, text: &str) -> Result<String, OutOfMemory>
    ensures ok { IfOk result (λ copy. string_bytes copy ≡ text.now) }
{
    match String::from_str(alloc, text) {
        Ok(copy) => Ok(copy),
        Err(_) => Err(OutOfMemory::new()),
    }
}

/// Adds a text at the end. A refusal leaves the text as it was.
pub fn push_str(text: &mut String, more: &str) -> Result<(), OutOfMemory>
    ensures bytes { string_bytes text.new ≡ (if is_ok result then string_bytes text.old ++ more.now else string_bytes text.old) }
    ensures len { string_len text.new ≡ (if is_ok result then string_len text.old + length more.now else string_len text.old) }
    ensures capacity { string_capacity text.old ≤ string_capacity text.new }
    ensures succeeds { string_len text.old + length more.now ≤ string_capacity text.old → IsOk result }
    ensures full { OnErr result (string_capacity text.old < string_len text.old + length more.now) }
{
    match text.push_str(more) {
        Ok(()) => Ok(()),
        Err(_) => Err(OutOfMemory::new()),
    }
}

/// Adds a character at the end. A refusal leaves the text as it was.
pub fn push(text: &mut String, character: char) -> Result<(), OutOfMemory>
    ensures bytes { string_bytes text.new ≡ (if is_ok result then string_bytes text.old ++ encode_utf8 character else string_bytes text.old) }
    ensures len { string_len text.new ≡ (if is_ok result then string_len text.old + length (encode_utf8 character) else string_len text.old) }
    ensures capacity { string_capacity text.old ≤ string_capacity text.new }
    ensures ascii { character < 128 → encode_utf8 character ≡ character ∷ [] }
{
    match text.push(character) {
        Ok(()) => Ok(()),
        Err(_) => Err(OutOfMemory::new()),
    }
}

/// What a value displays, as a text of its own. `text_of!` gives it a format.
pub fn displayed<D: Display + Drop>(alloc: Global, value: D) -> Result<String, OutOfMemory>
    ensures ok { IfOk result (λ text. IfSome (D.output value) (λ bytes. string_bytes text ≡ bytes)) }
{
    match String::format(alloc, value) {
        Ok(text) => Ok(text),
        Err(_) => Err(OutOfMemory::new()),
    }
}

/// Bytes in digits of lower case.
pub fn encode<T: AsSlice<u8> + Drop>(alloc: Global, bytes: T) -> Result<String, OutOfMemory>
    ensures { IfOk result (λ text. string_bytes text ≡ encode_lower (T.items bytes)) }
{
    match hex::encode(alloc, bytes) {
        Ok(text) => Ok(text),
        Err(_) => Err(OutOfMemory::new()),
    }
}
