//! Two texts, line by line, and how many of them differ.
ghost use Rattle.std.specs.Prelude.{◌≡◌, ◌+◌, ◌<◌, ◌↔◌, None, IsSome};

use std::str;

/// How many schedules or frames were compared with what is expected, and how many of them differ.
#[derive(Clone, Copy)]
pub struct Tally {
    pub compared: usize,
    pub differing: usize,
}

impl Tally {
    pub fn new() -> Tally
        ensures compared { result.compared ≡ 0 }
        ensures differing { result.differing ≡ 0 }
    {
        Tally {
            compared: 0,
            differing: 0,
        }
    }

    /// Counts one, by the first line at which it differs.
    pub fn add(&mut self, difference: Option<u64>)
        requires compared { self.old.compared < 18446744073709551615 }
        requires differing { self.old.differing < 18446744073709551615 }
        ensures compared { self.new.compared ≡ self.old.compared + 1 }
        ensures same { difference ≡ None → self.new.differing ≡ self.old.differing }
        ensures differs { IsSome difference → self.new.differing ≡ self.old.differing + 1 }
    {
        self.compared += 1;
        if difference.is_some() {
            self.differing += 1;
        }
    }
}

/// The number, counted from 1, of the first line at which the texts differ.
pub fn first_difference(expected: &[u8], printed: &[u8]) -> Option<u64>
    ensures { (result ≡ None) ↔ (expected.now ≡ printed.now) }
{
    if expected == printed {
        return None;
    }
    let mut line: u64 = 1;
    for (wanted, had) in expected.iter().zip(printed.iter()) {
        if *wanted != *had {
            break;
        }
        if *wanted == b'\n' {
            line = line.saturating_add(1);
        }
    }
    Some(line)
}

/// The line of this number, counted from 1, as far as there is one.
pub fn line_at(text: &[u8], number: u64) -> &str {
    let Ok(text) = str::from_utf8(text) else {
        return "(not a text)"
    };
    match text.lines().nth(number.saturating_sub(1) as usize) {
        Some(line) => line,
        None => "(nothing)",
    }
}
