// The text of a cause, by its word.
ghost use Rattle.std.specs.Prelude.{◌≡◌, option_map};
ghost use Rattle.cause_texts.specs.Explained.{explained};

use crate::about::{
    about_bitstreams, about_boot_files, about_databases, about_designs, about_modules, about_texts,
};

/// What a cause means, by its word, or `None` if no message has the word.
#[tactic(auto, unfolding(crate::specs::Explained::explained))]
pub fn explained(word: &str) -> Option<&'static str>
    ensures { option_map (λ text. text.now) result ≡ explained word.now }
{
    about_texts(word)
        .or(about_bitstreams(word))
        .or(about_boot_files(word))
        .or(about_databases(word))
        .or(about_modules(word))
        .or(about_designs(word))
}
