// Reading a bitstream that comes in pieces.
ghost use Rattle.std.specs.Prelude.{◌≡◌, ◌≤◌};
ghost use Rattle.layout_file.specs.Layouts.{AreLayouts};
ghost use Rattle.bin_stream.specs.inside.Stages.{length_kept};

use super::head::fault_at;
use super::stage::Stage;
use crate::fault::{BinCause, BinFault};
use ice_image::AnyImage;
use layout_file::Layouts;
use std::alloc::Global;
use std::mem;

/// A decoder of a bitstream that comes in pieces.
///
/// It keeps the image so far and the bytes of a command that isn't complete, and the bytes before the preamble only if they may have a
/// comment.
#[derive(Drop)]
pub struct Decoder {
    alloc: Global,
    layouts: Layouts,
    /// How many bytes were fed.
    fed: usize,
    stage: Stage,
    ghost laid: { AreLayouts layouts },
    ghost room: { length_kept stage ≤ fed },
}

impl Decoder {
    ghost use Rattle.std.specs.Prelude.{List, ℕ, [], Ok, Err, Some, None, ◌++◌, ◌+◌, ◌<◌, ◌^◌, IfOk, IfErr, length};
    ghost use Rattle.layout_file.specs.Layouts.{standard_layouts};
    ghost use Rattle.ice_image.specs.Either.{configuration_of};
    ghost use Rattle.bin_stream.specs.Spelling.{IsDecided, bin_read_of, Tells};
    ghost use Rattle.bin_stream.specs.Settled.{Settles, IsOpen};
    ghost use Rattle.bin_stream.specs.Decoding.{fed_to, refusal_of, StandsFor};
    ghost use Rattle.bin_stream.specs.declared.fault.BinFault.{BinFault as Fault};

    /// A new decoder of images under the standard layouts. It allocates nothing. The code of this project calls [`Decoder::with`]: this is
    /// the short form, for users of the library.
    pub fn new(alloc: Global) -> Decoder
        ensures stands { StandsFor standard_layouts [] result }
        ensures fed { fed_to result ≡ 0 }
        ensures fresh { refusal_of result ≡ None }
    {
        Decoder::with(alloc, Layouts::standard())
    }

    /// A new decoder of images under the layouts. It allocates nothing.
    pub fn with(alloc: Global, layouts: Layouts) -> Decoder
        requires { AreLayouts layouts }
        ensures stands { StandsFor layouts [] result }
        ensures fed { fed_to result ≡ 0 }
        ensures fresh { refusal_of result ≡ None }
    {
        Decoder {
            alloc,
            layouts,
            fed: 0,
            stage: Stage::Front {
                kept: Vec::new(alloc),
            },
        }
    }

    /// Takes the next bytes.
    ///
    /// # Errors
    /// `BinFault::At` if the bytes so far have a fault other than that they end too early (`NoPreamble` or `Truncated`). It is the fault of
    /// the whole bitstream, whatever follows, and each later call returns it again. `BinFault::Memory` if memory is out; it too comes again
    /// from each later call.
    pub fn feed(&mut self, piece: &[u8]) -> Result<(), BinFault>
        requires { fed_to self.old + length piece.now < 2 ^ 32 }
        ensures fed { fed_to self.new ≡ fed_to self.old + length piece.now }
        ensures decided { (layouts : Layouts) (bytes : List ℕ) → StandsFor layouts bytes self.old → IsDecided layouts (bytes ++ piece.now) }
        ensures stands { (layouts : Layouts) (bytes : List ℕ) → StandsFor layouts bytes self.old → StandsFor layouts (bytes ++ piece.now) self.new }
        ensures goes_on { IfOk result (λ _. (layouts : Layouts) (bytes : List ℕ) → StandsFor layouts bytes self.old → IsOpen (bin_read_of layouts (bytes ++ piece.now))) }
        ensures refused { IfErr result (λ fault. (layouts : Layouts) (bytes : List ℕ) → StandsFor layouts bytes self.old → Settles (bin_read_of layouts (bytes ++ piece.now)) fault) }
        ensures stays { IfErr result (λ fault. (layouts : Layouts) (bytes more : List ℕ) → StandsFor layouts bytes self.old → Tells (bin_read_of layouts (bytes ++ piece.now ++ more)) fault) }
        ensures clear { IfOk result (λ _. refusal_of self.new ≡ None) }
        ensures kept { IfErr result (λ fault. refusal_of self.new ≡ Some fault) }
        ensures again { (fault : Fault) → refusal_of self.old ≡ Some fault → result ≡ Err fault }
    {
        let stage = mem::replace(
            &mut self.stage,
            Stage::Refused(fault_at(0, BinCause::Truncated)),
        );
        let stage = stage.after(self.alloc, self.layouts, self.fed, piece);
        let answer = stage.answer();
        self.fed += piece.len();
        self.stage = stage;
        answer
    }

    /// The image that the bytes that were fed spell.
    ///
    /// # Errors
    /// The error that `feed` returned, if it returned one; `BinFault::At` for the first fault of the bytes; `BinFault::Memory` if memory is
    /// out.
    pub fn finish(self) -> Result<AnyImage, BinFault>
        ensures decided { (layouts : Layouts) (bytes : List ℕ) → StandsFor layouts bytes self → IsDecided layouts bytes }
        ensures image { IfOk result (λ image. (layouts : Layouts) (bytes : List ℕ) → StandsFor layouts bytes self → bin_read_of layouts bytes ≡ Ok (configuration_of image)) }
        ensures refused { IfErr result (λ fault. (layouts : Layouts) (bytes : List ℕ) → StandsFor layouts bytes self → Tells (bin_read_of layouts bytes) fault) }
        ensures again { (fault : Fault) → refusal_of self ≡ Some fault → result ≡ Err fault }
    {
        let Decoder { fed, stage, .. } = self;
        match stage {
            Stage::Front { .. } => Err(fault_at(fed, BinCause::NoPreamble)),
            Stage::Plain { .. } => Err(fault_at(fed, BinCause::NoPreamble)),
            Stage::Commands { .. } => Err(fault_at(fed, BinCause::Truncated)),
            Stage::Image(image) => Ok(image),
            Stage::Refused(fault) => Err(fault),
        }
    }
}
