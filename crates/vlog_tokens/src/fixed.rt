// Signs and reserved words.
ghost use Rattle.std.specs.Prelude.{◌≡◌};
ghost use Rattle.vlog_tokens.specs.Fixed.{fixed_text, pair_of, sign_of, word_of};

/// A token that has only one spelling: a sign or a reserved word.
#[derive(Clone, Copy, Debug, PartialEq, Eq)]
pub enum Fixed {
    OpenParen,
    CloseParen,
    OpenBracket,
    CloseBracket,
    OpenBrace,
    CloseBrace,
    Comma,
    Semicolon,
    Colon,
    Equals,
    LessEquals,
    And,
    Or,
    Not,
    ShiftLeft,
    ShiftRight,
    At,
    Question,
    Module,
    Endmodule,
    Input,
    Output,
    Reg,
    Wire,
    Assign,
    Always,
    Posedge,
    Negedge,
    If,
    Begin,
    End,
    Else,
    Initial,
    /// The word `or` between two edges.
    OrEdge,
}

impl Fixed {
    /// How the token is spelled.
    pub fn text(self) -> &'static [u8]
        ensures { result.now ≡ fixed_text self }
    {
        match self {
            Fixed::OpenParen => b"(",
            Fixed::CloseParen => b")",
            Fixed::OpenBracket => b"[",
            Fixed::CloseBracket => b"]",
            Fixed::OpenBrace => b"{",
            Fixed::CloseBrace => b"}",
            Fixed::Comma => b",",
            Fixed::Semicolon => b";",
            Fixed::Colon => b":",
            Fixed::Equals => b"=",
            Fixed::LessEquals => b"<=",
            Fixed::And => b"&",
            Fixed::Or => b"|",
            Fixed::Not => b"~",
            Fixed::ShiftLeft => b"<<",
            Fixed::ShiftRight => b">>",
            Fixed::At => b"@",
            Fixed::Question => b"?",
            Fixed::Module => b"module",
            Fixed::Endmodule => b"endmodule",
            Fixed::Input => b"input",
            Fixed::Output => b"output",
            Fixed::Reg => b"reg",
            Fixed::Wire => b"wire",
            Fixed::Assign => b"assign",
            Fixed::Always => b"always",
            Fixed::Posedge => b"posedge",
            Fixed::Negedge => b"negedge",
            Fixed::If => b"if",
            Fixed::Begin => b"begin",
            Fixed::End => b"end",
            Fixed::Else => b"else",
            Fixed::Initial => b"initial",
            Fixed::OrEdge => b"or",
        }
    }
}

/// The reserved word with this spelling, if there is one.
#[tactic(auto, unfolding(crate::specs::Fixed::word_of))]
pub fn fixed_word(text: &[u8]) -> Option<Fixed>
    ensures { result ≡ word_of text.now }
{
    if text == b"module".as_slice() {
        Some(Fixed::Module)
    } else if text == b"endmodule".as_slice() {
        Some(Fixed::Endmodule)
    } else if text == b"input".as_slice() {
        Some(Fixed::Input)
    } else if text == b"output".as_slice() {
        Some(Fixed::Output)
    } else if text == b"reg".as_slice() {
        Some(Fixed::Reg)
    } else if text == b"wire".as_slice() {
        Some(Fixed::Wire)
    } else if text == b"assign".as_slice() {
        Some(Fixed::Assign)
    } else if text == b"always".as_slice() {
        Some(Fixed::Always)
    } else if text == b"posedge".as_slice() {
        Some(Fixed::Posedge)
    } else if text == b"negedge".as_slice() {
        Some(Fixed::Negedge)
    } else if text == b"if".as_slice() {
        Some(Fixed::If)
    } else if text == b"begin".as_slice() {
        Some(Fixed::Begin)
    } else if text == b"end".as_slice() {
        Some(Fixed::End)
    } else if text == b"else".as_slice() {
        Some(Fixed::Else)
    } else if text == b"initial".as_slice() {
        Some(Fixed::Initial)
    } else if text == b"or".as_slice() {
        Some(Fixed::OrEdge)
    } else {
        None
    }
}

/// The sign that these two bytes are, if any.
#[tactic(auto, unfolding(crate::specs::Fixed::pair_of))]
pub(crate) fn fixed_pair(first: u8, second: u8) -> Option<Fixed>
    ensures { result ≡ pair_of first second }
{
    if first == b'<' && second == b'=' {
        Some(Fixed::LessEquals)
    } else if first == b'<' && second == b'<' {
        Some(Fixed::ShiftLeft)
    } else if first == b'>' && second == b'>' {
        Some(Fixed::ShiftRight)
    } else {
        None
    }
}

/// The sign that this byte is, if any.
#[tactic(auto, unfolding(crate::specs::Fixed::sign_of))]
pub(crate) fn fixed_sign(byte: u8) -> Option<Fixed>
    ensures { result ≡ sign_of byte }
{
    if byte == b'(' {
        Some(Fixed::OpenParen)
    } else if byte == b')' {
        Some(Fixed::CloseParen)
    } else if byte == b'[' {
        Some(Fixed::OpenBracket)
    } else if byte == b']' {
        Some(Fixed::CloseBracket)
    } else if byte == b'{' {
        Some(Fixed::OpenBrace)
    } else if byte == b'}' {
        Some(Fixed::CloseBrace)
    } else if byte == b',' {
        Some(Fixed::Comma)
    } else if byte == b';' {
        Some(Fixed::Semicolon)
    } else if byte == b':' {
        Some(Fixed::Colon)
    } else if byte == b'=' {
        Some(Fixed::Equals)
    } else if byte == b'&' {
        Some(Fixed::And)
    } else if byte == b'|' {
        Some(Fixed::Or)
    } else if byte == b'~' {
        Some(Fixed::Not)
    } else if byte == b'@' {
        Some(Fixed::At)
    } else if byte == b'?' {
        Some(Fixed::Question)
    } else {
        None
    }
}
