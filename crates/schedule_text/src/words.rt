//! The words of the schedule.
ghost use Rattle.std.specs.Prelude.{◌≡◌};
ghost use Rattle.command_kinds.specs.Kinds.{kind_word};
ghost use Rattle.schedule_text.specs.Fields.{Reads};
ghost use Rattle.schedule_text.specs.Words.{outcome_text, verb_text, word_text};

use crate::line::FinishWord;
use command_kinds::{CommandKind, KINDS};

/// What a line begins with.
#[derive(Clone, Copy, Debug, PartialEq, Eq)]
pub(crate) enum Verb {
    Admit,
    Quota,
    End,
    Cmd,
    Take,
    Finish,
    Deliver,
}

/// What a command begins with.
#[derive(Clone, Copy, Debug, PartialEq, Eq)]
pub enum Word {
    /// The word of its kind; of a Create, that of a primary copy.
    Of(CommandKind),
    /// The word of a Create of a secondary copy.
    Copy,
}

const VERBS: [Verb; 7] = [
    Verb::Admit,
    Verb::Quota,
    Verb::End,
    Verb::Cmd,
    Verb::Take,
    Verb::Finish,
    Verb::Deliver,
];

impl Verb {
    fn text(self) -> &'static str
        ensures { result.now ≡ verb_text self }
    {
        match self {
            Verb::Admit => "admit",
            Verb::Quota => "quota",
            Verb::End => "end",
            Verb::Cmd => "cmd",
            Verb::Take => "take",
            Verb::Finish => "finish",
            Verb::Deliver => "deliver",
        }
    }

    /// The verb that the field is.
    pub(crate) fn read(field: &str) -> Option<Verb>
        ensures { Reads result (λ verb. verb_text verb ≡ field.now) }
    {
        VERBS.iter().find(|verb| verb.text() == field).copied()
    }
}

impl Word {
    /// The word that the field is.
    pub fn read(field: &str) -> Option<Word>
        ensures { Reads result (λ word. word_text word ≡ field.now) }
    {
        match field {
            "copy" => Some(Word::Copy),
            _ => Some(Word::Of(kind_named(field)?)),
        }
    }
}

/// The kind of command whose word the field is.
fn kind_named(field: &str) -> Option<CommandKind>
    ensures { Reads result (λ kind. kind_word kind ≡ field.now) }
{
    KINDS.iter().find(|kind| kind.word() == field).copied()
}

/// The outcome that the field is.
pub(crate) fn read_outcome(field: &str) -> Option<FinishWord>
    ensures { Reads result (λ outcome. outcome_text outcome ≡ field.now) }
{
    match field {
        "ok" => Some(FinishWord::Ok),
        "fail" => Some(FinishWord::Fail),
        "damage" => Some(FinishWord::Damage),
        _ => None,
    }
}
