// Reads the pins of a package from a chip database that comes in pieces.
ghost use Rattle.std.specs.Prelude.{◌≡◌, [], List, ℕ, ◌++◌, Err, None, Some, IfOk, MatchResult};
ghost use Rattle.std.specs.declared.alloc.AllocError.{AllocError as NoMemory};

use crate::package_pins::PackagePins;
use crate::pin_lines::PinLines;
use std::alloc::{AllocError, Global};
use text_lines::LineFeed;

/// Reads a chip database that comes in pieces. It keeps the pins of one package, and the bytes of a line that hasn't ended yet.
#[derive(Drop)]
pub struct PinReader {
    lines: LineFeed<PinLines, AllocError>,
}

impl PinReader {
    ghost use Rattle.pin_file.specs.Feeding.{StandsFor, kept_in, lack_of};
    ghost use Rattle.pin_file.specs.Packages.{package_of};

    /// A reader for the package with that name; nothing was fed to it yet.
    ///
    /// # Errors
    /// `AllocError` if memory is out, and for no other cause.
    #[tactic(auto, unfolding(crate::specs::Feeding::StandsFor))]
    pub fn new(alloc: Global, name: &[u8]) -> Result<PinReader, AllocError>
        ensures stands { IfOk result (StandsFor name.now []) }
        ensures fresh { IfOk result (λ reader. lack_of reader ≡ None) }
    {
        let taker = PinLines::new(alloc, name)?;
        let lines = LineFeed::new(alloc, taker);
        Ok(PinReader { lines })
    }

    /// Takes the next bytes of the database.
    ///
    /// # Errors
    /// `AllocError` if memory is out, and for no other cause. Each later call returns it again.
    #[tactic(auto, unfolding(crate::specs::Feeding::StandsFor))]
    pub fn feed(&mut self, piece: &[u8]) -> Result<(), AllocError>
        ensures stands { (name text : List ℕ) → StandsFor name text self.old → StandsFor name (text ++ piece.now) self.new }
        ensures lacks { MatchResult result (λ _. lack_of self.new ≡ None) (λ e. lack_of self.new ≡ Some e) }
        ensures again { (e : NoMemory) → lack_of self.old ≡ Some e → result ≡ Err e }
    {
        self.lines.feed(piece)
    }

    /// The pins of the package, after the last piece.
    ///
    /// # Errors
    /// `AllocError` if memory is out, now or in an earlier call, and for no other cause.
    #[tactic(auto, unfolding(crate::specs::Feeding::StandsFor))]
    pub fn finish(self) -> Result<PackagePins, AllocError>
        ensures pins { IfOk result (λ pins. (name text : List ℕ) → StandsFor name text self → kept_in pins ≡ package_of name text) }
        ensures again { (e : NoMemory) → lack_of self ≡ Some e → result ≡ Err e }
    {
        let PinReader { lines } = self;
        match lines.finish() {
            Err(e) => Err(e),
            Ok(taker) => Ok(taker.finish()),
        }
    }
}
