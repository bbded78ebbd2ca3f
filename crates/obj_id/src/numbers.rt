//! Decimal numbers as texts print them: digits alone, with no leading zero but in `0` itself.
ghost use Rattle.std.specs.Prelude.{◌≡◌, ℕ, ◌^◌, ◌<◌, IfSome, decimal};
ghost use Rattle.obj_id.specs.Texts.{starts_as_printed as starts_as_printed_lem};

/// The number that the text prints, below 2^64. `None` if no number of 64 bits is printed so:
/// an empty text, a sign, a leading zero, another byte than a digit, or too great a number.
pub fn read_u64(text: &str) -> Option<u64>
    ensures printed { IfSome result (λ number. decimal number ≡ text.now) }
    ensures read { (number : ℕ) → number < 2 ^ 64 → decimal number ≡ text.now
        → result ≡ Some number }
{
    let number: u64 = text.parse().ok()?;
    if starts_as_printed(text) {
        Some(number)
    } else {
        None
    }
}

/// The number that the text prints, below 2^32. `None` if no number of 32 bits is printed so.
pub fn read_u32(text: &str) -> Option<u32>
    ensures printed { IfSome result (λ number. decimal number ≡ text.now) }
    ensures read { (number : ℕ) → number < 2 ^ 32 → decimal number ≡ text.now
        → result ≡ Some number }
{
    let number: u32 = text.parse().ok()?;
    if starts_as_printed(text) {
        Some(number)
    } else {
        None
    }
}

/// Whether a text that spells a number begins as what is printed: with no sign, and with no zero but in `0` itself.
fn starts_as_printed(text: &str) -> bool
    ensures { result ≡ starts_as_printed_lem text.now }
{
    let [first, rest @ ..] = text.as_bytes() else {
        return false
    };
    if *first == b'0' {
        rest.is_empty()
    } else {
        *first != b'+'
    }
}
