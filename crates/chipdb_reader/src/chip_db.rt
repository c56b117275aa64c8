// A database as it is kept.
ghost use Rattle.std.specs.Prelude.{◌≡◌, IfOk, IfErr};

use crate::fault::DbFault;
use crate::items::{Extra, Function, LinkLine, PllCell};
use crate::nets::Nets;
use crate::reading::DatabaseState;
use crate::texts::Texts;
use chipdb_lines::{BitTable, Chip, GlobalInput, GlobalPin};
use std::marker::Model;

/// A chip database: a device, the names of its nets, the links between them, the functions of its tiles, and its extra bits. In contracts,
/// the lists that are kept; what the database says is a function of these.
#[derive(Drop)]
pub struct ChipDb {
    pub(crate) chip: Chip,
    pub(crate) texts: Texts,
    pub(crate) bits: BitTable,
    pub(crate) nets: Nets,
    pub(crate) buffers: Vec<LinkLine>,
    pub(crate) routings: Vec<LinkLine>,
    pub(crate) functions: Vec<Function>,
    pub(crate) extras: Vec<Extra>,
    pub(crate) global_inputs: Vec<GlobalInput>,
    pub(crate) global_pins: Vec<GlobalPin>,
    pub(crate) plls: Vec<PllCell>,
}

impl Model for ChipDb {
    ghost use Rattle.chipdb_reader.specs.Kept.{Kept};

    ghost Value = { Kept };

    ghost use Rattle.chipdb_reader.specs.Inside.{kept_of, IsDatabase};

    ghost view = { kept_of };

    ghost invariant = { IsDatabase };
}

impl ChipDb {
    ghost use Rattle.chipdb_reader.specs.Fit.{IsFit};
    ghost use Rattle.chipdb_reader.specs.Kept.{Kept, database_in};
    ghost use Rattle.chipdb_reader.specs.Reading.{FitsReader, IsReady, IsOutOfMemory};
    ghost use Rattle.chipdb_reader.specs.Sound.{IsSound};

    /// The database that the lines of a text give.
    pub(crate) fn of(chip: Chip, reader: DatabaseState) -> Result<ChipDb, DbFault>
        requires ready { IsReady reader }
        requires sound { (kept : Kept) → FitsReader chip reader kept → IsSound kept }
        requires fit { (kept : Kept) → FitsReader chip reader kept → IsFit (database_in kept) }
        ensures kept { IfOk result (FitsReader chip reader) }
        ensures refused { IfErr result IsOutOfMemory }
    {
        let mut nets = reader.nets;
        nets.close()?;
        let plls = reader.plls.into_cells()?;
        Ok(ChipDb {
            chip,
            texts: reader.texts,
            bits: reader.bits,
            nets,
            buffers: reader.buffers.into_lines(),
            routings: reader.routings,
            functions: reader.functions,
            extras: reader.extras,
            global_inputs: reader.global_inputs,
            global_pins: reader.global_pins,
            plls,
        })
    }
}
