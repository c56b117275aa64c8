// Names of variables, as they are written.
ghost use Rattle.std.specs.Prelude.{◌≡◌};
ghost use Rattle.std.specs.List.{list_all};
ghost use Rattle.vlog_module.specs.Names.{is_letter};
ghost use Rattle.vlog_waves.specs.Variables.{is_simple, is_simple_byte, written_name};
ghost use Rattle.vlog_waves.specs.inside.Declared.{label_text, shown};

use crate::items::Kind;
use wire_names::WireNames;

/// The name of a variable. If it is escaped, a backslash stands before it.
#[derive(Clone, Copy)]
pub(crate) struct Label<'a> {
    pub(crate) is_escaped: bool,
    pub(crate) name: &'a [u8],
}

/// The name of a variable of this kind: a wire has the name that is given to it, if there is one, and any other variable its own.
pub(crate) fn label_of<'a>(names: &'a WireNames, kind: Kind, own: &'a [u8]) -> Label<'a>
    ensures { label_text result ≡ shown names.now kind own.now }
{
    match kind {
        Kind::Wire => match names.name_of(own) {
            Some(given) => given_label(given),
            None => own_label(own),
        },
        Kind::Register | Kind::Word => own_label(own),
    }
}

/// A name of the module itself, which is never escaped.
pub(crate) fn own_label(own: &[u8]) -> Label<'_>
    ensures { label_text result ≡ own.now }
{
    Label {
        is_escaped: false,
        name: own,
    }
}

/// A name that is given, which is escaped if it isn't a simple identifier.
fn given_label(name: &[u8]) -> Label<'_>
    ensures { label_text result ≡ written_name name.now }
{
    Label {
        is_escaped: !is_simple(name),
        name,
    }
}

/// Whether a name is a simple identifier: a letter or an underscore, then letters, digits, underscores and dollar signs.
fn is_simple(name: &[u8]) -> bool
    ensures { result ≡ is_simple name.now }
{
    match name {
        [] => false,
        [first, rest @ ..] => is_letter(*first) && are_simple_bytes(rest),
    }
}

/// Whether each byte is a letter, a digit, an underscore or a dollar sign.
fn are_simple_bytes(bytes: &[u8]) -> bool
    ensures { result ≡ list_all is_simple_byte bytes.now }
{
    bytes.iter().all(|byte| is_simple_byte(*byte))
}

/// Whether a byte is a letter, a digit, an underscore or a dollar sign.
fn is_simple_byte(byte: u8) -> bool
    ensures { result ≡ is_simple_byte byte }
{
    is_letter(byte) || byte.is_ascii_digit() || byte == b'$'
}

/// Whether a byte is a letter or an underscore.
fn is_letter(byte: u8) -> bool
    ensures { result ≡ is_letter byte }
{
    byte.is_ascii_alphabetic() || byte == b'_'
}
