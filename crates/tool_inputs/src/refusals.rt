// Refusals of one or two phrases.
ghost use Rattle.std.specs.Prelude.{◌≡◌, ◌++◌, None};
ghost use Rattle.tool_run.specs.Lines.{in_file, phrase_text, refusal_text};
ghost use Rattle.tool_run.specs.Needs.{text_of};

use tool_run::{Phrase, Refusal, text};

/// A refusal of two phrases, usually the place and the cause.
pub fn refusal<'a>(first: Phrase<'a>, second: Phrase<'a>) -> Refusal<'a>
    ensures text { refusal_text result ≡ phrase_text first.entry ++ phrase_text second.entry }
    ensures unnamed { result.file ≡ None }
{
    Refusal {
        file: None,
        first,
        second,
        third: text(""),
        fourth: text(""),
    }
}

/// A refusal of one text alone.
pub fn whole(what: &'static str) -> Refusal<'static>
    ensures text { refusal_text result ≡ what.entry.now }
    ensures unnamed { result.file ≡ None }
{
    Refusal {
        file: None,
        first: text(what),
        second: text(""),
        third: text(""),
        fourth: text(""),
    }
}

/// The same refusal, of a file by its name if one is given. No file may be named in it yet.
pub fn of_file<'a>(file: Option<&'a str>, refusal: Refusal<'a>) -> Refusal<'a>
    requires { refusal.file ≡ None }
    ensures { refusal_text result ≡ in_file (text_of file.entry) (refusal_text refusal.entry) }
{
    Refusal { file, ..refusal }
}
