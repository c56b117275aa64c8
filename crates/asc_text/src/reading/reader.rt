// What the reader keeps between the lines of a text, and what a line changes.
ghost use Rattle.std.specs.Prelude.{◌≡◌, ◌<◌, ◌≤◌, [], Some, None, false, length, IfOk, IfErr, OnOk};
ghost use Rattle.ice_image.specs.Either.{configuration_of};
ghost use Rattle.asc_text.specs.Statements.{begins_with_dot};

mod blocks;
mod lines;
mod names;
mod plain;
mod statements;

use crate::fault::{AscCause, AscFault, TileXy};
use crate::reading::reader::statements::tile_named;
use crate::reading::rows::is_printable;
use crate::reading::spelling::{begins_with_dot, statement_in};
use crate::reading::tile_set::TileSet;
use crate::statement::Statement;
use ice_image::{AnyImage, Comment, Range, Settings};
use layout_file::Layouts;
use plane_map::{TileKind, tile_width};
use std::alloc::{AllocError, Global};
use text_lines::{first_line_near, trimmed};

/// What the next line has to be.
#[derive(Clone, Copy, Debug, PartialEq, Eq)]
pub(crate) enum Expected {
    /// A statement, or a line of a comment.
    Statement,
    /// A row of a tile, of the rows 0 to 15.
    Row {
        kind: TileKind,
        x: u8,
        y: u8,
        row: u8,
    },
    /// Sixteen words of a RAM, from the word 16 times `row` on.
    Memory {
        x: u8,
        y: u8,
        row: u8,
    },
}

impl Expected {
    ghost use Rattle.asc_text.specs.Faults.{tile_named};
    ghost use Rattle.asc_text.specs.inside.Reading.{plain_length, statement_of, before_row, before_memory};

    /// What is expected after the rows of a tile before `row`: that row, or a statement if `row` is 16.
    fn before_row(kind: TileKind, x: u8, y: u8, row: u8) -> Expected
        ensures { result ≡ before_row kind x y row }
    {
        if row == 16 {
            Expected::Statement
        } else {
            Expected::Row { kind, x, y, row }
        }
    }

    /// What is expected after the lines of a RAM's contents before `row`: that line, or a statement if `row` is 16.
    fn before_memory(x: u8, y: u8, row: u8) -> Expected
        ensures { result ≡ before_memory x y row }
    {
        if row == 16 {
            Expected::Statement
        } else {
            Expected::Memory { x, y, row }
        }
    }

    /// How many bytes the expected row or digits have, or 0 if a statement is expected.
    fn plain_len(self) -> usize
        ensures is { result ≡ plain_length self }
        ensures small { result ≤ 64 }
    {
        match self {
            Expected::Statement => 0,
            Expected::Row { kind, .. } => tile_width(kind),
            Expected::Memory { .. } => 64,
        }
    }

    /// The tile or RAM to which a line belongs that is read as this.
    fn tile(self, line: &[u8]) -> Option<TileXy>
        ensures { result ≡ tile_named (statement_of self line.now) }
    {
        match self {
            Expected::Statement => match statement_in(line) {
                Some(statement) => tile_named(statement),
                None => None,
            },
            Expected::Row { x, y, .. } | Expected::Memory { x, y, .. } => tile_at(x, y),
        }
    }
}

/// Why a line is refused.
#[derive(Clone, Copy, Debug, PartialEq, Eq)]
pub(crate) enum LineRefusal {
    Cause(AscCause),
    Memory(AllocError),
}

impl From<AscCause> for LineRefusal {
    ghost use Rattle.asc_text.specs.declared.reading.reader.LineRefusal.TheVariants.{Cause};

    ghost from_gives = { λ cause refusal. refusal ≡ Cause cause };

    fn from(cause: AscCause) -> LineRefusal {
        LineRefusal::Cause(cause)
    }
}

impl From<AllocError> for LineRefusal {
    ghost use Rattle.asc_text.specs.declared.reading.reader.LineRefusal.TheVariants.{Memory};

    ghost from_gives = { λ e refusal. refusal ≡ Memory e };

    fn from(e: AllocError) -> LineRefusal {
        LineRefusal::Memory(e)
    }
}

impl LineRefusal {
    ghost use Rattle.asc_text.specs.inside.Reading.{located};

    /// The fault at a line and a tile.
    pub(crate) fn at(self, line: u64, tile: Option<TileXy>) -> AscFault
        ensures { result ≡ located self line tile }
    {
        match self {
            LineRefusal::Cause(cause) => cause.at(line, tile),
            LineRefusal::Memory(e) => AscFault::Memory(e),
        }
    }
}

/// What the lines so far have given, and what comes next.
#[derive(Drop)]
pub(crate) struct TextReader {
    alloc: Global,
    layouts: Layouts,
    warm_boot: Option<bool>,
    range: Option<Range>,
    no_sleep: Option<bool>,
    comment: Option<Comment>,
    in_comment: bool,
    image: Option<AnyImage>,
    tiles: TileSet,
    rams: TileSet,
    expected: Expected,
}

impl TextReader {
    ghost use Rattle.asc_text.specs.Faults.{Tells, fault_with, tile_named};
    ghost use Rattle.asc_text.specs.inside.Reading.{state_of, begun, IsReady, Takes, TakesDotted, TakesFirst, first_line, dotted_refusal, line_refusal, statement_of, text_refusal, after_text, Reports, end_refusal, Finishes, settings_in};
    ghost use Rattle.asc_text.specs.Statements.{statement_in};

    /// A reader that has read nothing.
    pub(crate) fn new(alloc: Global, layouts: Layouts) -> TextReader
        ensures { state_of result ≡ begun layouts }
    {
        TextReader {
            alloc,
            layouts,
            warm_boot: None,
            range: None,
            no_sleep: None,
            comment: None,
            in_comment: false,
            image: None,
            tiles: TileSet::new(),
            rams: TileSet::new(),
            expected: Expected::Statement,
        }
    }

    /// Takes the first line of a text, which has this line number, in whatever form it has, and returns the text after it.
    #[inline(never)]
    pub(crate) fn accept_any<'a>(
        &mut self,
        number: u64,
        text: &'a [u8],
    ) -> Result<&'a [u8], AscFault>
        requires ready { IsReady self.old.image self.old.expected }
        requires some { 0 < length text.now }
        ensures taken { IfOk result (λ rest. TakesFirst (state_of self.old) text.now rest.now (state_of self.new)) }
        ensures refused { IfErr result (Tells (fault_with (line_refusal (state_of self.old) self.old.expected (first_line text.now))
            number (tile_named (statement_of self.old.expected (first_line text.now))))) }
    {
        // In a text whose lines end with CR LF, a row or digits have one byte more before LF.
        let len = self.expected.plain_len() + 1;
        match first_line_near(text, len) {
            Some(line) => {
                self.accept(number, line.content)?;
                Ok(line.rest)
            }
            // A text that is not empty has a line.
            None => Ok(text),
        }
    }

    /// Takes the next line, which has this line number.
    fn accept(&mut self, number: u64, line: &[u8]) -> Result<(), AscFault>
        requires { IsReady self.old.image self.old.expected }
        ensures taken { IfOk result (λ _. Takes (state_of self.old) self.old.expected line.now (state_of self.new)) }
        ensures accepted { OnOk result (line_refusal (state_of self.old) self.old.expected line.now ≡ None) }
        ensures refused { IfErr result (Tells (fault_with (line_refusal (state_of self.old) self.old.expected line.now)
            number (tile_named (statement_of self.old.expected line.now)))) }
    {
        let expected = self.expected;
        match self.accept_as(expected, line) {
            Ok(()) => Ok(()),
            Err(refusal) => Err(refusal.at(number, expected.tile(line))),
        }
    }

    /// Takes the next line as what it has to be.
    fn accept_as(&mut self, expected: Expected, line: &[u8]) -> Result<(), LineRefusal>
        requires { IsReady self.old.image expected }
        ensures taken { IfOk result (λ _. Takes (state_of self.old) expected line.now (state_of self.new)) }
        ensures accepted { OnOk result (line_refusal (state_of self.old) expected line.now ≡ None) }
        ensures refused { IfErr result (Reports (line_refusal (state_of self.old) expected line.now)) }
    {
        match expected {
            Expected::Statement => {
                if begins_with_dot(line) {
                    self.accept_statement(statement_in(line))
                } else {
                    self.accept_text(line)
                }
            }
            Expected::Row { kind, x, y, row } => {
                Ok(self.accept_row(kind, x, y, row, trimmed(line))?)
            }
            Expected::Memory { x, y, row } => Ok(self.accept_memory(x, y, row, trimmed(line))?),
        }
    }

    /// Takes a line that begins with a dot, by its statement: `None` if it is not a valid one.
    fn accept_statement(&mut self, statement: Option<Statement>) -> Result<(), LineRefusal>
        ensures taken { IfOk result (λ _. TakesDotted (state_of self.old) statement (state_of self.new)) }
        ensures accepted { OnOk result (dotted_refusal (state_of self.old) statement ≡ None) }
        ensures refused { IfErr result (Reports (dotted_refusal (state_of self.old) statement)) }
    {
        self.in_comment = false;
        match statement {
            Some(statement) => self.take(statement),
            None => Err(LineRefusal::Cause(AscCause::Statement)),
        }
    }

    /// Takes a line that is not a statement: a line of a comment, or an empty one.
    fn accept_text(&mut self, line: &[u8]) -> Result<(), LineRefusal>
        requires { begins_with_dot line.now ≡ false }
        ensures taken { IfOk result (λ _. state_of self.new ≡ after_text (state_of self.old) line.now) }
        ensures accepted { OnOk result (text_refusal self.old.in_comment line.now ≡ None) }
        ensures refused { IfErr result (Reports (text_refusal self.old.in_comment line.now)) }
    {
        if !self.in_comment {
            if !trimmed(line).is_empty() {
                return Err(LineRefusal::Cause(AscCause::StrayData));
            }
        } else if !is_printable(line) {
            return Err(LineRefusal::Cause(AscCause::CommentByte));
        } else if !line.is_empty() {
            if let Some(comment) = &mut self.comment {
                comment.push(line)?;
            }
        }
        Ok(())
    }

    /// The image that the text gives, at its end. If something is missing, the fault has `number`, the number of the line after the last.
    #[tactic(auto, using(crate::proofs::Dotted::none_of_nothing))]
    pub(crate) fn finish(self, number: u64) -> Result<AnyImage, AscFault>
        ensures image { IfOk result (Finishes (state_of self) self.image) }
        ensures accepted { OnOk result (end_refusal (state_of self) self.expected ≡ None) }
        ensures refused { IfErr result (Tells (fault_with (end_refusal (state_of self) self.expected)
            number (tile_named (statement_of self.expected [])))) }
    {
        let settings = self.settings();
        let TextReader {
            alloc: _,
            layouts: _,
            warm_boot: _,
            range: _,
            no_sleep: _,
            comment,
            in_comment: _,
            image,
            tiles: _,
            rams: _,
            expected,
        } = self;
        match expected {
            Expected::Statement => match image {
                Some(image) => Ok(finished(image, settings, comment)),
                None => Err(AscCause::NoDevice.at(number, None)),
            },
            Expected::Row { x, y, .. } => Err(missing(number, x, y, AscCause::Row)),
            Expected::Memory { x, y, .. } => Err(missing(number, x, y, AscCause::Hex)),
        }
    }

    /// The settings. A setting that was not given has its usual value.
    fn settings(&self) -> Settings
        ensures { result ≡ settings_in (state_of self.now) }
    {
        Settings {
            range: self.range.unwrap_or(Range::Low),
            warm_boot: self.warm_boot.unwrap_or(true),
            no_sleep: self.no_sleep.unwrap_or(false),
        }
    }
}

/// A line that is missing below the statement of the tile or RAM at (x, y).
fn missing(line: u64, x: u8, y: u8, cause: AscCause) -> AscFault
    ensures { result ≡ AscFault.At line (Some (record { x = x; y = y })) cause }
{
    cause.at(line, tile_at(x, y))
}

/// An image with a comment and settings.
fn finished(image: AnyImage, settings: Settings, comment: Option<Comment>) -> AnyImage
    ensures { configuration_of result ≡ record (configuration_of image) { settings = settings; comment = comment } }
{
    let mut image = image;
    image.set_settings(settings);
    image.set_comment(comment);
    image
}

/// The tile at (x, y).
fn tile_at(x: u8, y: u8) -> Option<TileXy>
    ensures { result ≡ Some (record { x = x; y = y }) }
{
    Some(TileXy {
        x: u32::from(x),
        y: u32::from(y),
    })
}
