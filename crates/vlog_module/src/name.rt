// Names of ports, registers, memories, wires and modules.
ghost use Rattle.std.specs.Prelude.{◌≡◌, bytes_eq, IfOk};
ghost use Rattle.std.specs.List.{list_all, list_any};
ghost use Rattle.vlog_module.specs.Names.{is_letter, is_name, is_name_byte, is_reserved, is_word, IsName};

use std::alloc::{AllocError, Global};
use std::marker::Model;

/// A name: a letter or `_`, then letters, digits and `_`, but no reserved word.
#[derive(Drop)]
pub struct Name {
    bytes: Vec<u8>,
}

impl Model for Name {
    ghost use Rattle.std.specs.Prelude.{List, ℕ};
    ghost use Rattle.vlog_module.specs.Names.{IsName};

    ghost Value = { List ℕ };

    ghost view = { λ name. name.bytes.items };

    ghost invariant = { λ name. IsName name.bytes.items };
}

impl Name {
    /// The name that has these bytes, which have to be a name.
    ///
    /// # Errors
    /// `AllocError` if memory is out, and for no other cause.
    pub fn new(alloc: Global, bytes: &[u8]) -> Result<Name, AllocError>
        requires { IsName bytes.now }
        ensures { IfOk result (λ name. name ≡ bytes.now) }
    {
        let bytes = Vec::from_slice(alloc, bytes)?;
        Ok(Name { bytes })
    }

    /// The bytes of the name.
    pub fn bytes(&self) -> &[u8]
        ensures bytes { result.now ≡ self.now }
        ensures named { IsName self.now }
    {
        &self.bytes
    }
}

/// Whether bytes are a name.
#[tactic(auto, unfolding(crate::specs::Names::is_name))]
pub fn is_name(bytes: &[u8]) -> bool
    ensures { result ≡ is_name bytes.now }
{
    is_word(bytes) && !is_reserved(bytes)
}

/// Whether bytes are a letter or `_`, and then letters, digits and `_`: a name or a reserved word.
pub fn is_word(bytes: &[u8]) -> bool
    ensures { result ≡ is_word bytes.now }
{
    match bytes {
        [] => false,
        [first, rest @ ..] => is_letter(*first) && are_name_bytes(rest),
    }
}

/// Whether each byte is a letter, a digit or `_`.
fn are_name_bytes(bytes: &[u8]) -> bool
    ensures { result ≡ list_all is_name_byte bytes.now }
{
    bytes
        .iter()
        .all(|byte| is_letter(*byte) || byte.is_ascii_digit())
}

/// Whether a byte is a letter or `_`.
fn is_letter(byte: u8) -> bool
    ensures { result ≡ is_letter byte }
{
    byte.is_ascii_alphabetic() || byte == b'_'
}

/// The reserved words of the subset.
const RESERVED: [&str; 16] = [
    "module",
    "endmodule",
    "input",
    "output",
    "reg",
    "wire",
    "assign",
    "always",
    "posedge",
    "negedge",
    "if",
    "begin",
    "end",
    "else",
    "initial",
    "or",
];

/// Whether bytes are a reserved word.
#[tactic(auto, unfolding(crate::specs::Names::reserved_words))]
fn is_reserved(bytes: &[u8]) -> bool
    ensures { result ≡ is_reserved bytes.now }
{
    is_one_of(bytes, &RESERVED)
}

/// Whether bytes are one of the words.
fn is_one_of(bytes: &[u8], words: &[&str]) -> bool
    ensures { result ≡ list_any (λ word. bytes_eq word.now bytes.now) words.now }
{
    words.iter().any(|word| word.as_bytes() == bytes)
}
