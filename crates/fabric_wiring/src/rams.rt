// What RAMs drive.
ghost use Rattle.std.specs.Prelude.{◌≡◌, ◌++◌, ◌%◌, ◌==◌, map, flat_map, OnOk};
ghost use Rattle.narrow_words.specs.Narrow.{share};
ghost use Rattle.fabric_model.specs.Rams.{first_data_bit};
ghost use Rattle.fabric_model.specs.Fabric.{numbered};
ghost use Rattle.fabric_model.specs.Drivers.{ram_drives, read_data_rule};
ghost use Rattle.fabric_wiring.specs.Drives.{drive_of, rule_of};

use crate::drive::{Drive, Rule};
use crate::push::push_if;
use fabric_model::{Driver, RamCell, place_of};
use std::alloc::AllocError;

/// The least port bit at which a mode has data.
fn first_data_bit(mode: u8) -> u8
    ensures { result ≡ first_data_bit mode }
{
    match mode {
        2 => 1,
        3 => 3,
        _ => 0,
    }
}

/// Whether a port bit has data, counted from the first one that has: in mode 0 all have, and in modes 1, 2 and 3 every second, fourth and
/// eighth one.
fn is_data_bit(mode: u8, place: u8) -> bool
    ensures { result ≡ (place % share mode == 0) }
{
    match 2_u8.checked_pow(u32::from(mode)) {
        Some(share) => place % share == 0,
        None => place == 0,
    }
}

/// How a port bit of the read data of a RAM makes its value, given the RAM's index and read mode.
fn read_data_rule(ram: u32, mode: u8, bit: u8) -> Rule
    ensures { rule_of result ≡ read_data_rule ram mode bit }
{
    match bit.checked_sub(first_data_bit(mode)) {
        Some(place) if is_data_bit(mode, place) => Rule::ReadBit { ram, bit: place },
        _ => Rule::Constant(false),
    }
}

/// Appends what a RAM drives, given its index among the used RAMs.
fn append_ram(drives: &mut Vec<Drive>, place: u32, ram: &RamCell) -> Result<(), AllocError>
    ensures { OnOk result (map drive_of drives.new.items ≡ map drive_of drives.old.items ++ ram_drives (place, ram.now)) }
{
    for bit in 0..16u8 {
        let driver = Driver::Ram {
            x: ram.x,
            y: ram.y,
            bit,
        };
        let rule = read_data_rule(place, ram.read, bit);
        push_if(drives, driver, rule, ram.rdata[bit as usize])?;
    }
    Ok(())
}

/// Appends what RAMs drive.
pub(crate) fn append_rams(drives: &mut Vec<Drive>, rams: &[RamCell]) -> Result<(), AllocError>
    ensures { OnOk result (map drive_of drives.new.items ≡ map drive_of drives.old.items ++ flat_map ram_drives (numbered rams.now)) }
{
    for (i, ram) in rams.iter().enumerate() {
        append_ram(drives, place_of(i)?, ram)?;
    }
    Ok(())
}
