// The input of a tool that works on a chip database and one or two images.
ghost use Rattle.std.specs.Prelude.{◌≡◌, ◌++◌, ◌∷◌, [], ◌+◌, ◌<◌, ◌≤◌, ◌^◌, ℕ, List, Ok, None, Option, IfOk, IfErr, get_or, length};
ghost use Rattle.ice_io.specs.Takers.{TakesMore};
ghost use Rattle.layout_file.specs.declared.layouts.Layouts.{Layouts as LayoutsSeen};
ghost use Rattle.layout_file.specs.Layouts.{AreLayouts};
ghost use Rattle.ice_image.specs.Configuration.{Configuration};
ghost use Rattle.ice_image.specs.Either.{configuration_of};
ghost use Rattle.chipdb_reader.specs.Database.{Database};
ghost use Rattle.chipdb_reader.specs.Kept.{database_in};
ghost use Rattle.tool_run.specs.Collected.{Collects};
ghost use Rattle.tool_run.specs.Needs.{text_of};
ghost use Rattle.tool_run.specs.Stops.{StopsWith};
ghost use Rattle.tool_run.specs.Tasks.{Answer};
ghost use Rattle.tool_inputs.specs.Images.{image_in, image_read, symbols_read, StopsImage};
ghost use Rattle.tool_inputs.specs.Layouts.{answer_under, layouts_for, StopsLayouts};

use crate::database::finish_database;
use crate::image::{read_image, read_with_symbols};
use crate::layouts::layouts_for;
use asc_text::AscFile;
use chipdb_reader::{ChipDb, DbReader};
use ice_image::AnyImage;
use layout_file::Layouts;
use std::alloc::Global;
use tool_run::{Collected, Stop};

/// Which text comes next.
#[derive(Clone, Copy, Debug, PartialEq, Eq)]
pub(crate) enum NextText {
    Database,
    Image,
    /// The second image.
    Second,
    /// A text that the tool doesn't need.
    Other,
}

/// A chip database and then an image, or two, which come in pieces. The database is read as it comes. An image is collected first: it is a
/// bitstream if the preamble is somewhere in it, and else a text.
#[derive(Drop)]
pub struct DesignInput {
    layouts: Layouts,
    db: DbReader,
    image: Collected,
    second: Collected,
    next: NextText,
    ghost laid: { AreLayouts layouts },
}

impl DesignInput {
    ghost use Rattle.tool_inputs.specs.DesignInput.{TakesInput, fed_input, input_answer, two_answer};

    /// Nothing is taken yet. Images are read under the layouts of the layout file if one is named, and else under the standard layouts.
    ///
    /// # Errors
    /// `Stop::Refused` with the first faulty line of the layout file, and for no other cause.
    pub fn begin(alloc: Global, layout: Option<&[u8]>) -> Result<DesignInput, Stop<'static>>
        ensures taken { IfOk result (λ input. TakesInput (text_of layout.entry) [] input []) }
        ensures none { IfOk result (λ input. fed_input input ≡ 0) }
        ensures refused { IfErr result (StopsLayouts (layouts_for (text_of layout.entry))) }
        ensures stops { IfErr result (λ stop. (answer : LayoutsSeen → Answer) → StopsWith (answer_under (layouts_for (text_of layout.entry)) answer) stop) }
    {
        match layouts_for(layout) {
            Ok(layouts) => Ok(DesignInput {
                layouts,
                db: DbReader::new(alloc),
                image: Collected::new(alloc),
                second: Collected::new(alloc),
                next: NextText::Database,
            }),
            Err(stop) => Err(stop),
        }
    }

    /// Takes the next piece of a text.
    pub fn feed(&mut self, piece: &[u8])
        requires few { fed_input self.old + length piece.now < 2 ^ 32 }
        ensures taken { (layout : Option (List ℕ)) → TakesMore (TakesInput layout) self.old self.new piece.now }
        ensures bound { fed_input self.new ≤ fed_input self.old + length piece.now }
    {
        match self.next {
            NextText::Database => {
                // If memory was out, the reader remembers that, and tells it at the end.
                let _ = self.db.feed(piece);
            }
            NextText::Image => self.image.push(piece),
            NextText::Second => self.second.push(piece),
            NextText::Other => {}
        }
    }

    /// Ends the text that was taken last.
    pub fn close(&mut self)
        ensures closed { (layout : Option (List ℕ)) (texts : List (List ℕ)) (bytes : List ℕ) → TakesInput layout texts self.old bytes
            → TakesInput layout (texts ++ bytes ∷ []) self.new [] }
        ensures none { fed_input self.new ≡ 0 }
    {
        match self.next {
            NextText::Database => self.next = NextText::Image,
            NextText::Image => self.next = NextText::Second,
            NextText::Second => self.next = NextText::Other,
            NextText::Other => {}
        }
    }

    /// The database and the image, after all texts were taken.
    ///
    /// # Errors
    /// `Stop::Refused` with the first fault, of the database, else of the image. `Stop::Memory` if memory is out.
    pub fn read(self, alloc: Global) -> Result<(ChipDb, AnyImage), Stop<'static>>
        ensures read { IfOk result (λ read. (layout : Option (List ℕ)) (texts : List (List ℕ)) (answer : Database → Configuration → Answer)
            → TakesInput layout texts self [] → input_answer layout answer texts ≡ answer (database_in read.0) (configuration_of read.1)) }
        ensures stops { IfErr result (λ stop. (layout : Option (List ℕ)) (texts : List (List ℕ)) (answer : Database → Configuration → Answer)
            → TakesInput layout texts self [] → StopsWith (input_answer layout answer texts) stop) }
    {
        let db = finish_database(self.db)?;
        let image = collected_image(alloc, None, &self.image, self.layouts)?;
        Ok((db, image))
    }

    /// The database and the image, as [`DesignInput::read`] gives them, and the names of nets that the image gives.
    ///
    /// # Errors
    /// As [`DesignInput::read`].
    pub fn read_with_symbols(self, alloc: Global) -> Result<(ChipDb, AscFile), Stop<'static>>
        ensures read { IfOk result (λ read. (layout : Option (List ℕ)) (texts : List (List ℕ)) (answer : Database → Configuration → Answer)
            → TakesInput layout texts self [] → input_answer layout answer texts ≡ answer (database_in read.0) (configuration_of read.1.image)) }
        ensures symbols { IfOk result (λ read. (layout : Option (List ℕ)) (texts : List (List ℕ))
            → TakesInput layout texts self [] → read.1.symbols.items ≡ symbols_read (get_or texts 1 [])) }
        ensures stops { IfErr result (λ stop. (layout : Option (List ℕ)) (texts : List (List ℕ)) (answer : Database → Configuration → Answer)
            → TakesInput layout texts self [] → StopsWith (input_answer layout answer texts) stop) }
    {
        let DesignInput {
            layouts,
            db,
            image,
            ..
        } = self;
        let db = finish_database(db)?;
        let file = collected_file(alloc, &image, layouts)?;
        Ok((db, file))
    }

    /// The database and two images, after all texts were taken. The images are in files of these names.
    ///
    /// # Errors
    /// `Stop::Refused` with the first fault, of the database, else of the first image, else of the second. Before a fault of an image stands
    /// the name of its file. `Stop::Memory` if memory is out.
    pub fn read_two<'a>(
        self,
        alloc: Global,
        first: &'a str,
        second: &'a str,
    ) -> Result<(ChipDb, AnyImage, AnyImage), Stop<'a>>
        ensures read { IfOk result (λ read. (layout : Option (List ℕ)) (texts : List (List ℕ)) (answer : Database → Configuration → Configuration → Answer)
            → TakesInput layout texts self []
            → two_answer layout first.entry.now second.entry.now answer texts ≡ answer (database_in read.0) (configuration_of read.1) (configuration_of read.2)) }
        ensures stops { IfErr result (λ stop. (layout : Option (List ℕ)) (texts : List (List ℕ)) (answer : Database → Configuration → Configuration → Answer)
            → TakesInput layout texts self [] → StopsWith (two_answer layout first.entry.now second.entry.now answer texts) stop) }
    {
        let database = finish_database(self.db)?;
        let one = collected_image(alloc, Some(first), &self.image, self.layouts)?;
        let two = collected_image(alloc, Some(second), &self.second, self.layouts)?;
        Ok((database, one, two))
    }
}

// The image of the bytes that were collected, or why there is none. Their file is named if there are several.
fn collected_image<'a>(
    alloc: Global,
    file: Option<&'a str>,
    collected: &Collected,
    layouts: Layouts,
) -> Result<AnyImage, Stop<'a>>
    requires { AreLayouts layouts }
    ensures image { IfOk result (λ image. (bytes : List ℕ) → Collects bytes collected.now → image_read layouts bytes ≡ Ok (configuration_of image)) }
    ensures stops { IfErr result (λ stop. (bytes : List ℕ) → Collects bytes collected.now → StopsImage (image_in (text_of file.entry) (image_read layouts bytes)) stop) }
{
    match collected.text() {
        Ok(bytes) => read_image(alloc, file, bytes, layouts),
        Err(_) => Err(Stop::Memory),
    }
}

// The image of the bytes that were collected and the names of nets that they give, or why there is none.
fn collected_file(
    alloc: Global,
    collected: &Collected,
    layouts: Layouts,
) -> Result<AscFile, Stop<'static>>
    requires { AreLayouts layouts }
    ensures image { IfOk result (λ file. (bytes : List ℕ) → Collects bytes collected.now → image_read layouts bytes ≡ Ok (configuration_of file.image)) }
    ensures symbols { IfOk result (λ file. (bytes : List ℕ) → Collects bytes collected.now → file.symbols.items ≡ symbols_read bytes) }
    ensures stops { IfErr result (λ stop. (bytes : List ℕ) → Collects bytes collected.now → StopsImage (image_in None (image_read layouts bytes)) stop) }
{
    match collected.text() {
        Ok(bytes) => read_with_symbols(alloc, bytes, layouts),
        Err(_) => Err(Stop::Memory),
    }
}
