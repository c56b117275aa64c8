// The lines of a chip database, one after the other.
ghost use Rattle.std.specs.Prelude.{◌≡◌, [], List, ℕ, OnOk, IfOk};

use crate::database::{begins_package, is_statement, pin_in_line};
use crate::package_pins::PackagePins;
use std::alloc::{AllocError, Global};
use text_lines::{LineTaker, first_line};

/// What the lines so far have given of a package.
#[derive(Drop)]
pub(crate) struct PinLines {
    name: Vec<u8>,
    /// Whether the next line is below `.pins PACKAGE` with that package's name.
    below: bool,
    pins: PackagePins,
}

impl PinLines {
    ghost use Rattle.pin_file.specs.Feeding.{HasTaken, TakesLine, kept_in};
    ghost use Rattle.pin_file.specs.Packages.{package_in};

    /// A taker that has read no line.
    pub(crate) fn new(alloc: Global, name: &[u8]) -> Result<PinLines, AllocError>
        ensures { IfOk result (HasTaken name.now []) }
    {
        let name = Vec::from_slice(alloc, name)?;
        Ok(PinLines {
            name,
            below: false,
            pins: PackagePins::new(alloc),
        })
    }

    /// Takes the next line.
    fn take_line(&mut self, line: &[u8]) -> Result<(), AllocError>
        ensures { OnOk result (TakesLine self.old line.now self.new) }
    {
        if is_statement(line) {
            self.take_statement(line);
            return Ok(());
        }
        if self.below {
            return self.take_pin(line);
        }
        Ok(())
    }

    /// Takes the next line, which is a statement.
    fn take_statement(&mut self, line: &[u8])
        requires { is_statement line.now ≡ true }
        ensures { TakesLine self.old line.now self.new }
    {
        self.below = begins_package(&self.name, line);
        self.pins.list_if(self.below);
    }

    /// Takes the next line, which isn't a statement and is below `.pins PACKAGE` with that package's name.
    fn take_pin(&mut self, line: &[u8]) -> Result<(), AllocError>
        requires below { self.old.below ≡ true }
        requires other { is_statement line.now ≡ false }
        ensures { OnOk result (TakesLine self.old line.now self.new) }
    {
        match pin_in_line(line) {
            None => Ok(()),
            Some((pin, place)) => self.pins.add(pin, place),
        }
    }

    /// The pins of the package, after all lines were read.
    pub(crate) fn finish(self) -> PackagePins
        ensures { (name : List ℕ) (lines : List (List ℕ)) → HasTaken name lines self → kept_in result ≡ package_in name lines }
    {
        let PinLines { pins, .. } = self;
        pins
    }
}

ghost use Rattle.std.specs.Prelude.{true, false};
ghost use Rattle.pin_file.specs.Packages.{is_statement};

impl LineTaker for PinLines {
    ghost use Rattle.std.specs.Prelude.{◌^◌};
    ghost use Rattle.pin_file.specs.Feeding.{refused_with, taken_by};

    type Refusal = AllocError;

    ghost Setting = { List ℕ };

    ghost has_taken = { taken_by };

    ghost refuses = { refused_with };

    ghost is_ready = { λ taker. Unit {0} };

    ghost fed = { λ taker. 0 };

    ghost MOST = { 2 ^ 65 };

    fn out_of_memory(e: AllocError) -> AllocError {
        e
    }

    fn take_lines(&mut self, text: &[u8]) -> Result<(), AllocError> {
        let mut left = text;
        while let Some(line) = first_line(left) {
            self.take_line(line.content)?;
            left = line.rest;
        }
        Ok(())
    }
}
