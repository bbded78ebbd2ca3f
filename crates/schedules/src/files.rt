//! The files of worked schedules, journals and frames.
use crate::repeated::written_out;
use memory_growth::{OutOfMemory, lists, text_of, texts};
use schedule_text::is_skipped;
use std::alloc::Global;
use std::{fs, io};

/// A schedule or a saved journal, with what it is run by and what is expected of it.
#[derive(Drop)]
pub struct Case {
    /// The words of the command line, the program's name first.
    pub words: Vec<String>,
    pub text: Vec<u8>,
    pub expected: Vec<u8>,
}

impl Case {
    /// Reads the files of this name, which has no ending.
    pub fn read(rt: &HostRuntime, name: &str) -> io::Result<Case> {
        let alloc = rt.alloc();
        let (text, usual) = match fs::read(rt, text_of!(in alloc; "{name}.schedule")?.as_str()) {
            Ok(text) => (text, "run\n"),
            Err(error) if error.kind() == io::ErrorKind::NotFound => (
                fs::read(rt, text_of!(in alloc; "{name}.journal")?.as_str())?,
                "replay\njournal\n",
            ),
            Err(error) => return Err(error),
        };
        let expected = fs::read(rt, text_of!(in alloc; "{name}.expected")?.as_str())?;
        let words = match fs::read_to_string(rt, text_of!(in alloc; "{name}.args")?.as_str()) {
            Ok(text) => words_of(alloc, text.as_str())?,
            Err(error) if error.kind() == io::ErrorKind::NotFound => words_of(alloc, usual)?,
            Err(error) => return Err(error),
        };
        Ok(Case {
            words,
            text: written_out(alloc, text)?,
            expected: written_out(alloc, expected)?,
        })
    }
}

/// The program's name, and the text's lines.
fn words_of(alloc: Global, text: &str) -> Result<Vec<String>, OutOfMemory> {
    let mut words = Vec::new(alloc);
    lists::push(&mut words, texts::from_str(alloc, "store")?)?;
    for word in text.lines() {
        lists::push(&mut words, texts::from_str(alloc, word)?)?;
    }
    Ok(words)
}

/// A line of a file of frames.
#[derive(Drop)]
pub struct FrameLine {
    /// The file's name, which has no ending.
    pub file: String,
    /// The line's number, counted from 1.
    pub number: u64,
    pub text: String,
}

/// The names, without their ending and in order, of the schedules and journals in the folder.
pub fn schedules_in(rt: &HostRuntime, folder: &str) -> io::Result<Vec<String>> {
    let mut names = names_in(rt, folder, ".schedule")?;
    for name in names_in(rt, folder, ".journal")? {
        lists::push(&mut names, name)?;
    }
    names.sort_unstable();
    Ok(names)
}

/// The lines of the folder's files of frames, but for those that say nothing.
pub fn frames_in(rt: &HostRuntime, folder: &str) -> io::Result<Vec<FrameLine>> {
    let mut lines = Vec::new(rt.alloc());
    for file in names_in(rt, folder, ".vectors")? {
        add_frames(rt, file.as_str(), &mut lines)?;
    }
    Ok(lines)
}

/// Adds the lines of the file of this name.
fn add_frames(rt: &HostRuntime, file: &str, lines: &mut Vec<FrameLine>) -> io::Result<()> {
    let alloc = rt.alloc();
    let text = fs::read_to_string(rt, text_of!(in alloc; "{file}.vectors")?.as_str())?;
    let mut number: u64 = 0;
    for line in text.lines() {
        number = number.saturating_add(1);
        if is_skipped(line.as_bytes()) {
            continue;
        }
        lists::push(
            lines,
            FrameLine {
                file: texts::from_str(alloc, file)?,
                number,
                text: texts::from_str(alloc, line)?,
            },
        )?;
    }
    Ok(())
}

/// The names, without the ending and in order, of the folder's files that have this ending.
fn names_in(rt: &HostRuntime, folder: &str, ending: &str) -> io::Result<Vec<String>> {
    let alloc = rt.alloc();
    let mut names = Vec::new(alloc);
    for entry in fs::read_dir(rt, folder)? {
        let entry = entry?;
        if let Some(name) = entry.file_name().strip_suffix(ending) {
            lists::push(&mut names, text_of!(in alloc; "{folder}/{name}")?)?;
        }
    }
    names.sort_unstable();
    Ok(names)
}
