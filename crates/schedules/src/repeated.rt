//! Texts in which a line that comes many times stands once.
use memory_growth::{OutOfMemory, lists, text_of};
use std::alloc::Global;
use std::str;

/// A line that comes so many times. A `*` in its text is a number, which is the first one in the first of them, and greater by one in
/// each that follows.
#[derive(Clone, Copy, Drop)]
struct Repeated<'a> {
    times: u64,
    first: u64,
    text: &'a str,
}

impl<'a> Repeated<'a> {
    /// The line `*TIMES FIRST TEXT`.
    fn read(line: &'a str) -> Option<Repeated<'a>> {
        let (times, rest) = line.strip_prefix("*")?.split_once(" ")?;
        let (first, text) = rest.split_once(" ")?;
        Some(Repeated {
            times: times.parse().ok()?,
            first: first.parse().ok()?,
            text,
        })
    }

    /// Adds them all.
    fn add_to(self, alloc: Global, text: &mut Vec<u8>) -> Result<(), OutOfMemory> {
        for turn in 0..self.times {
            match self.text.split_once("*") {
                None => lists::extend_from_slice(text, self.text.as_bytes())?,
                Some((before, after)) => {
                    let number = self.first.saturating_add(turn);
                    let line = text_of!(in alloc; "{before}{number}{after}")?;
                    lists::extend_from_slice(text, line.as_bytes())?;
                }
            }
            lists::push(text, b'\n')?;
        }
        Ok(())
    }
}

/// The text with all of its lines. One that no line begins with `*` in is left as it is.
pub fn written_out(alloc: Global, text: Vec<u8>) -> Result<Vec<u8>, OutOfMemory> {
    match str::from_utf8(&text) {
        Ok(lines) if lines.contains("\n*") => all_lines(alloc, lines),
        _ => Ok(text),
    }
}

fn all_lines(alloc: Global, lines: &str) -> Result<Vec<u8>, OutOfMemory> {
    let mut text = Vec::new(alloc);
    for line in lines.lines() {
        match Repeated::read(line) {
            Some(repeated) => repeated.add_to(alloc, &mut text)?,
            None => {
                lists::extend_from_slice(&mut text, line.as_bytes())?;
                lists::push(&mut text, b'\n')?;
            }
        }
    }
    Ok(text)
}
