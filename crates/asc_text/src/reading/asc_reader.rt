// A text that comes in pieces.
ghost use Rattle.std.specs.Prelude.{◌≡◌, ◌+◌, ◌<◌, ◌≤◌, ◌^◌};
ghost use Rattle.std.specs.Option.{ForNone};
ghost use Rattle.text_lines.specs.Feeding.{fed_with, refusal_of as refusal_of_feed, taker_of};
ghost use Rattle.asc_text.specs.inside.Feeding.{CanTake};

use crate::fault::AscFault;
use crate::reading::asc_lines::AscLines;
use crate::reading::reader::TextReader;
use ice_image::AnyImage;
use layout_file::Layouts;
use std::alloc::Global;
use text_lines::LineFeed;

/// A reader of a text that comes in pieces. It keeps what the lines so far have given, and the bytes of a line that hasn't
/// ended yet. The names of nets are checked and not kept.
#[derive(Drop)]
pub struct AscReader {
    /// How many bytes were fed.
    fed: u64,
    /// The lines that have ended go to what takes them, up to the first faulty one.
    lines: LineFeed<AscLines, AscFault>,
    ghost reached: { ForNone (refusal_of_feed lines) (CanTake (taker_of lines)) },
    ghost room: { ForNone (refusal_of_feed lines) (fed_with (λ taker. taker.count) lines ≤ fed) },
    ghost limit: { fed + 1 < 2 ^ 64 },
}

impl AscReader {
    ghost use Rattle.std.specs.Prelude.{List, ℕ, [], Err, Some, None, ◌++◌, IfOk, IfErr, OnOk, length};
    ghost use Rattle.layout_file.specs.Layouts.{AreLayouts};
    ghost use Rattle.ice_image.specs.Either.{configuration_of};
    ghost use Rattle.asc_text.specs.Faults.{asc_fault_of, Tells};
    ghost use Rattle.asc_text.specs.Meaning.{AscMeans, asc_symbols_of};
    ghost use Rattle.asc_text.specs.Characters.{HasBits};
    ghost use Rattle.asc_text.specs.Ended.{IsFaultless};
    ghost use Rattle.asc_text.specs.Feeding.{fed_to, refusal_of, StandsFor};

    /// A new reader of a text under the layouts. It allocates nothing.
    pub fn with(alloc: Global, layouts: Layouts) -> AscReader
        requires { AreLayouts layouts }
        ensures stands { StandsFor layouts [] result }
        ensures fed { fed_to result ≡ 0 }
        ensures fresh { refusal_of result ≡ None }
    {
        let reader = TextReader::new(alloc, layouts);
        AscReader {
            fed: 0,
            lines: LineFeed::new(alloc, AscLines { reader, count: 0 }),
        }
    }

    /// Takes the next bytes.
    ///
    /// # Errors
    /// `AscFault::At` exactly if a line that has ended is faulty: the first such line. It is the fault of the whole text, whatever follows,
    /// and each later call returns it again. `AscFault::Memory` if memory is out; it too comes again from each later call.
    pub fn feed(&mut self, piece: &[u8]) -> Result<(), AscFault>
        requires { fed_to self.old + length piece.now + 1 < 2 ^ 64 }
        ensures fed { fed_to self.new ≡ fed_to self.old + length piece.now }
        ensures stands { (layouts : Layouts) (text : List ℕ) → StandsFor layouts text self.old → StandsFor layouts (text ++ piece.now) self.new }
        ensures goes_on { IfOk result (λ _. (layouts : Layouts) (text : List ℕ) → StandsFor layouts text self.old → IsFaultless layouts (text ++ piece.now)) }
        ensures refused { IfErr result (λ fault. (layouts : Layouts) (text more : List ℕ) → StandsFor layouts text self.old → Tells (asc_fault_of layouts (text ++ piece.now ++ more)) fault) }
        ensures clear { IfOk result (λ _. refusal_of self.new ≡ None) }
        ensures kept { IfErr result (λ fault. refusal_of self.new ≡ Some fault) }
        ensures again { (fault : AscFault) → refusal_of self.old ≡ Some fault → result ≡ Err fault }
    {
        self.fed += piece.len() as u64;
        self.lines.feed(piece)
    }

    /// The image that the text gives.
    ///
    /// # Errors
    /// The error that `feed` returned, if it returned one; `AscFault::At` for the first faulty line; `AscFault::Memory` if memory is out.
    pub fn finish(self) -> Result<AnyImage, AscFault>
        ensures means { IfOk result (λ image. (layouts : Layouts) (text : List ℕ) → StandsFor layouts text self → AscMeans layouts text (configuration_of image) (asc_symbols_of text)) }
        // Each bit is the character, the digit or the statement that stands for it.
        ensures bits { IfOk result (λ image. (layouts : Layouts) (text : List ℕ) → StandsFor layouts text self → HasBits text (configuration_of image)) }
        ensures accepted { OnOk result ((layouts : Layouts) (text : List ℕ) → StandsFor layouts text self → asc_fault_of layouts text ≡ None) }
        ensures refused { IfErr result (λ fault. (layouts : Layouts) (text : List ℕ) → StandsFor layouts text self → Tells (asc_fault_of layouts text) fault) }
        ensures again { (fault : AscFault) → refusal_of self ≡ Some fault → result ≡ Err fault }
    {
        let AscReader { lines, .. } = self;
        let AscLines { reader, count } = lines.finish()?;
        reader.finish(count + 1)
    }
}
