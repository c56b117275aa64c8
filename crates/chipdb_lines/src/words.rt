// Kinds of lines by their first byte, and their words.
ghost use Rattle.std.specs.Prelude.{◌≡◌, [], MatchOption, false};
ghost use Rattle.std.specs.List.{list_all};
ghost use Rattle.text_lines.specs.Lines.{is_blank};
ghost use Rattle.chipdb_lines.specs.Words.{has_none, is_remark, is_statement, own_words, words_in};

use text_lines::is_blank;

/// Whether the line is a statement.
pub fn is_statement(line: &[u8]) -> bool
    ensures { result ≡ is_statement line.now }
{
    matches!(line, [b'.', ..])
}

/// The line, if it has words that belong to the statement above it. `None` for a statement, a comment, and a line without a word.
#[tactic(auto, unfolding(crate::specs::Words::own_words))]
pub fn own_words(line: &[u8]) -> Option<&[u8]>
    ensures words { MatchOption result (own_words line.now ≡ []) (λ words. words_in words.now ≡ own_words line.now) }
    ensures some { MatchOption result (own_words line.now ≡ []) (λ words. has_none (own_words line.now) ≡ false) }
{
    if is_statement(line) || is_remark(line) || has_no_word(line) {
        None
    } else {
        Some(line)
    }
}

/// Whether the line is a comment.
fn is_remark(line: &[u8]) -> bool
    ensures { result ≡ is_remark line.now }
{
    matches!(line, [b'#', ..])
}

/// Whether there is no word.
pub(crate) fn has_no_word(words: &[u8]) -> bool
    ensures { result ≡ has_none (words_in words.now) }
{
    are_blanks(words)
}

/// Whether each byte is a space or a tab. It stops at the first byte that isn't.
fn are_blanks(words: &[u8]) -> bool
    ensures { result ≡ list_all is_blank words.now }
{
    words.iter().all(|byte| is_blank(*byte))
}
