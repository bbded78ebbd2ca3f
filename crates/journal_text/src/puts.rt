//! Fields put after a line, each after a space. If memory runs out, part of them stands there.
ghost use Rattle.std.specs.Prelude.{◌≡◌, ◌++◌, [], ◌∷◌, decimal, OnOk};
ghost use Rattle.std.specs.String.{string_bytes};
ghost use Rattle.obj_id.specs.Texts.{id_text, task_text};
ghost use Rattle.journal_text.specs.Printing.{count_field, spaced_text};

use itoa::Buffer;
use memory_growth::{OutOfMemory, text_of, texts};
use obj_id::{JobNo, ObjectId, TaskNo};
use std::alloc::Global;

/// The field.
pub(crate) fn put(line: &mut String, field: &str) -> Result<(), OutOfMemory>
    ensures { OnOk result (string_bytes line.new
        ≡ string_bytes line.old ++ spaced_text (field.now ∷ [])) }
{
    texts::push(line, ' ')?;
    texts::push_str(line, field)
}

/// A number.
pub(crate) fn put_number(line: &mut String, number: u64) -> Result<(), OutOfMemory>
    ensures { OnOk result (string_bytes line.new
        ≡ string_bytes line.old ++ spaced_text (decimal number ∷ [])) }
{
    let mut buffer = Buffer::new();
    put(line, buffer.format(number))
}

/// `#N`.
pub(crate) fn put_count(alloc: Global, line: &mut String, count: u64) -> Result<(), OutOfMemory>
    ensures { OnOk result (string_bytes line.new
        ≡ string_bytes line.old ++ spaced_text (count_field count ∷ [])) }
{
    let field = text_of!(in alloc; "#{count}")?;
    put(line, &field)
}

/// A task.
pub(crate) fn put_task(alloc: Global, line: &mut String, task: &TaskNo) -> Result<(), OutOfMemory>
    ensures { OnOk result (string_bytes line.new
        ≡ string_bytes line.old ++ spaced_text (task_text task.now ∷ [])) }
{
    let field = task.write(alloc)?;
    put(line, &field)
}

/// An id, as the job names it.
fn put_id(alloc: Global, line: &mut String, id: &ObjectId, job: JobNo) -> Result<(), OutOfMemory>
    ensures { OnOk result (string_bytes line.new
        ≡ string_bytes line.old ++ spaced_text (id_text job.0 id.now ∷ [])) }
{
    let field = id.write(alloc, job)?;
    put(line, &field)
}

/// A word and a number.
pub(crate) fn put_word_number(line: &mut String, word: &str, number: u64) -> Result<(), OutOfMemory>
    ensures { OnOk result (string_bytes line.new
        ≡ string_bytes line.old ++ spaced_text (word.now ∷ decimal number ∷ [])) }
{
    put(line, word)?;
    put_number(line, number)
}

/// A word and two numbers.
pub(crate) fn put_word_numbers(
    line: &mut String,
    word: &str,
    first: u64,
    second: u64,
) -> Result<(), OutOfMemory>
    ensures { OnOk result (string_bytes line.new ≡ string_bytes line.old
        ++ spaced_text (word.now ∷ decimal first ∷ decimal second ∷ [])) }
{
    put_word_number(line, word, first)?;
    put_number(line, second)
}

/// A word and an object.
pub(crate) fn put_object(
    alloc: Global,
    line: &mut String,
    word: &str,
    id: &ObjectId,
    job: JobNo,
) -> Result<(), OutOfMemory>
    ensures { OnOk result (string_bytes line.new ≡ string_bytes line.old
        ++ spaced_text (word.now ∷ id_text job.0 id.now ∷ [])) }
{
    put(line, word)?;
    put_id(alloc, line, id, job)
}

/// A word, an object and a number.
pub(crate) fn put_object_number(
    alloc: Global,
    line: &mut String,
    word: &str,
    id: &ObjectId,
    job: JobNo,
    number: u64,
) -> Result<(), OutOfMemory>
    ensures { OnOk result (string_bytes line.new ≡ string_bytes line.old
        ++ spaced_text (word.now ∷ id_text job.0 id.now ∷ decimal number ∷ [])) }
{
    put_object(alloc, line, word, id, job)?;
    put_number(line, number)
}

/// A word, an object and two numbers.
pub(crate) fn put_object_numbers(
    alloc: Global,
    line: &mut String,
    word: &str,
    id: &ObjectId,
    job: JobNo,
    first: u64,
    second: u64,
) -> Result<(), OutOfMemory>
    ensures { OnOk result (string_bytes line.new ≡ string_bytes line.old
        ++ spaced_text (word.now ∷ id_text job.0 id.now ∷ decimal first ∷ decimal second ∷ [])) }
{
    put_object_number(alloc, line, word, id, job, first)?;
    put_number(line, second)
}

/// A word, an object and a task.
pub(crate) fn put_object_task(
    alloc: Global,
    line: &mut String,
    word: &str,
    id: &ObjectId,
    job: JobNo,
    task: &TaskNo,
) -> Result<(), OutOfMemory>
    ensures { OnOk result (string_bytes line.new ≡ string_bytes line.old
        ++ spaced_text (word.now ∷ id_text job.0 id.now ∷ task_text task.now ∷ [])) }
{
    put_object(alloc, line, word, id, job)?;
    put_task(alloc, line, task)
}
