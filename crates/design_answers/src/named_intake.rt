// The texts of a tool that takes a design and a pin file.
ghost use Rattle.std.specs.Prelude.{◌≡◌, ◌++◌, ◌∷◌, [], ◌+◌, ◌<◌, ◌≤◌, ◌^◌, ℕ, List, Option, IfOk, IfErr, length};
ghost use Rattle.ice_io.specs.Takers.{TakesMore};
ghost use Rattle.ice_image.specs.Configuration.{Configuration};
ghost use Rattle.chipdb_reader.specs.Database.{Database};
ghost use Rattle.tool_run.specs.Needs.{text_of};
ghost use Rattle.tool_run.specs.Stops.{StopsWith};
ghost use Rattle.tool_run.specs.Tasks.{Answer};
ghost use Rattle.tool_inputs.specs.DesignInput.{input_answer};
ghost use Rattle.tool_inputs.specs.Layouts.{layouts_for, StopsLayouts};
ghost use Rattle.design_answers.specs.Pins.{HasPins, IsIdle};

use pin_file::PinReader;
use std::alloc::Global;
use tool_inputs::DesignInput;
use tool_run::{Collected, Stop};

/// Which text comes next.
#[derive(Clone, Copy, Debug, PartialEq, Eq)]
pub(crate) enum NextText {
    PinFile,
    Database,
    /// The image, or a text that the tool doesn't need.
    Other,
}

/// The pin file, which is collected, then a database and an image. The pins of the package are read from the database as it comes.
#[derive(Drop)]
pub struct NamedIntake {
    pub input: DesignInput,
    pub file: Collected,
    /// `None` if memory was out.
    pub pins: Option<PinReader>,
    next: NextText,
    ghost idle: { IsIdle next input },
}

/// A reader of the pins of a package, by its name. `None` if memory is out.
fn reader_for(alloc: Global, package_name: &str) -> Option<PinReader>
    ensures { HasPins package_name.now [] result }
{
    PinReader::new(alloc, package_name.as_bytes()).ok()
}

/// Feeds a piece of the database to the reader of pins, if there is one. If memory is out, the reader remembers that, and tells it at the
/// end.
fn feed_pins(pins: &mut Option<PinReader>, piece: &[u8])
    ensures { (package_name text : List ℕ) → HasPins package_name text pins.old → HasPins package_name (text ++ piece.now) pins.new }
{
    match pins {
        Some(reader) => {
            let _ = reader.feed(piece);
        }
        None => {}
    }
}

impl NamedIntake {
    ghost use Rattle.design_answers.specs.Taken.{TakesNamed, fed_named};

    /// Nothing is taken yet. The image is read under the layouts of the layout file if one is named, and else under the standard layouts.
    ///
    /// # Errors
    /// `Stop::Refused` with the first faulty line of the layout file, and for no other cause.
    pub fn begin(
        alloc: Global,
        layout: Option<&[u8]>,
        package_name: &str,
    ) -> Result<NamedIntake, Stop<'static>>
        ensures taken { IfOk result (λ intake. TakesNamed package_name.now (text_of layout.entry) [] intake []) }
        ensures none { IfOk result (λ intake. fed_named intake ≡ 0) }
        ensures refused { IfErr result (StopsLayouts (layouts_for (text_of layout.entry))) }
        ensures stops { IfErr result (λ stop. (texts : List (List ℕ)) (answer : Database → Configuration → Answer)
            → StopsWith (input_answer (text_of layout.entry) answer texts) stop) }
    {
        match DesignInput::begin(alloc, layout) {
            Ok(input) => Ok(NamedIntake {
                input,
                file: Collected::new(alloc),
                pins: reader_for(alloc, package_name),
                next: NextText::PinFile,
            }),
            Err(stop) => Err(stop),
        }
    }

    /// Takes the next piece of a text.
    pub fn feed(&mut self, piece: &[u8])
        requires few { fed_named self.old + length piece.now < 2 ^ 32 }
        ensures taken { (package_name : List ℕ) (layout : Option (List ℕ))
            → TakesMore (TakesNamed package_name layout) self.old self.new piece.now }
        ensures bound { fed_named self.new ≤ fed_named self.old + length piece.now }
    {
        match self.next {
            NextText::PinFile => self.file.push(piece),
            NextText::Database => {
                self.input.feed(piece);
                feed_pins(&mut self.pins, piece);
            }
            NextText::Other => self.input.feed(piece),
        }
    }

    /// Ends the text that was taken last.
    pub fn close(&mut self)
        ensures closed { (package_name : List ℕ) (layout : Option (List ℕ)) (texts : List (List ℕ)) (bytes : List ℕ)
            → TakesNamed package_name layout texts self.old bytes → TakesNamed package_name layout (texts ++ bytes ∷ []) self.new [] }
        ensures none { fed_named self.new ≡ 0 }
    {
        match self.next {
            NextText::PinFile => self.next = NextText::Database,
            NextText::Database | NextText::Other => {
                self.input.close();
                self.next = NextText::Other;
            }
        }
    }
}
