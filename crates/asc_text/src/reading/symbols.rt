// The names that a text gives to nets.
ghost use Rattle.std.specs.Prelude.{◌≡◌, ◌++◌, IfOk, OnOk};
ghost use Rattle.text_lines.specs.Lines.{lines_of};
ghost use Rattle.asc_text.specs.Statements.{statement_in};
ghost use Rattle.asc_text.specs.Meaning.{symbol_in};
ghost use Rattle.asc_text.specs.inside.Symbols.{symbols_in};

use crate::file::{ByteText, Symbol};
use crate::reading::spelling::{name_in, statement_in};
use crate::statement::Statement;
use std::alloc::{AllocError, Global};
use text_lines::first_line;

/// The names that the lines of a text give to nets, in their order. In a text without a faulty line each line that begins with a dot is
/// a statement.
pub(crate) fn symbols_in(alloc: Global, text: &[u8]) -> Result<Vec<Symbol>, AllocError>
    ensures { IfOk result (λ symbols. symbols.items ≡ symbols_in (lines_of text.now)) }
{
    let mut symbols = Vec::new(alloc);
    let mut left = text;
    while let Some(line) = first_line(left) {
        add_symbol(alloc, &mut symbols, line.content)?;
        left = line.rest;
    }
    Ok(symbols)
}

/// Adds the name that a line gives to a net, if it gives one.
fn add_symbol(alloc: Global, symbols: &mut Vec<Symbol>, line: &[u8]) -> Result<(), AllocError>
    ensures { OnOk result (symbols.new.items ≡ symbols.old.items ++ symbol_in (statement_in line.now) line.now) }
{
    if let Some(Statement::Symbol { net }) = statement_in(line) {
        let name = ByteText::new(Vec::from_slice(alloc, name_in(line))?);
        symbols.push(Symbol { net, name })?;
    }
    Ok(())
}
