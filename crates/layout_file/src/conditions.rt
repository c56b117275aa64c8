// What the numbers of a field have to fulfil.
ghost use Rattle.std.specs.Prelude.{◌≡◌, ℕ, ◌≤◌, ◌*◌, ◌^◌, length};
ghost use Rattle.plane_map.specs.Layout.{are_below, are_distinct, are_places, are_wide, are_widths, cram_width, half_width, least_width, occurs, start_in};
ghost use Rattle.layout_file.specs.Faults.{count_of, numbers_cause};

use crate::fault::LayoutCause;
use crate::field::Numbers;
use plane_map::DeviceName;

/// How many numbers a field has.
pub(crate) fn count_of(device: DeviceName, field: Numbers) -> usize
    ensures { result ≡ count_of device field }
{
    match field {
        Numbers::Widths => half_width(device),
        Numbers::SideColumns | Numbers::PadColumns => 18,
        Numbers::PadRows => 16,
        Numbers::Banks => 4,
    }
}

/// Why the numbers of a field are refused, or `None` if they are taken.
pub(crate) fn numbers_cause(
    device: DeviceName,
    field: Numbers,
    numbers: &[u32],
) -> Option<LayoutCause>
    ensures { result ≡ numbers_cause device field numbers.now }
{
    let (accepted, cause) = match field {
        Numbers::Widths => (are_widths(device, numbers), LayoutCause::Width),
        Numbers::SideColumns => (are_places(18, 18, numbers), LayoutCause::Place),
        Numbers::PadColumns => (are_places(18, 42, numbers), LayoutCause::Place),
        Numbers::PadRows => (are_places(16, 16, numbers), LayoutCause::Place),
        Numbers::Banks => (are_places(4, 4, numbers), LayoutCause::Place),
    };
    if accepted { None } else { Some(cause) }
}

/// How many columns of tiles a half has.
fn half_width(device: DeviceName) -> usize
    ensures { result ≡ half_width device }
{
    device.columns() as usize / 2
}

/// How many columns of bits a column of tiles needs at least, by how far it is from the side edge.
fn least_width(device: DeviceName, column: usize) -> u32
    ensures { result ≡ least_width device column }
{
    let ram_column = match device {
        DeviceName::Lp384 => 0,
        DeviceName::Hx1k => 3,
        DeviceName::Hx8k => 8,
    };
    if column == 0 {
        18
    } else if column == ram_column {
        42
    } else {
        54
    }
}

/// Whether the columns of tiles are as wide as they need to be, and a plane has room for them.
fn are_widths(device: DeviceName, widths: &[u32]) -> bool
    ensures { result ≡ are_widths device widths.now }
{
    let half = half_width(device);
    widths.len() == half
        && are_wide(device, widths, half)
        && start_in(widths, half) <= u64::from(device.cram_columns())
}

/// Whether each of the first columns of tiles is as wide as it needs to be.
fn are_wide(device: DeviceName, widths: &[u32], columns: usize) -> bool
    requires { columns ≤ length widths.now }
    ensures { result ≡ are_wide device widths.now columns }
{
    if columns == 0 {
        return true;
    }
    let last = columns - 1;
    are_wide(device, widths, last) && least_width(device, last) <= widths[last]
}

/// How many columns of bits the first columns of tiles take.
fn start_in(widths: &[u32], columns: usize) -> u64
    requires within { columns ≤ length widths.now }
    requires few { columns ≤ 18 }
    ensures is { result ≡ start_in widths.now columns }
    ensures small { result ≤ columns * 2 ^ 32 }
{
    if columns == 0 {
        return 0;
    }
    let last = columns - 1;
    start_in(widths, last) + u64::from(widths[last])
}

/// Whether a list has exactly `count` entries, all different and each below a bound.
fn are_places(count: usize, bound: u32, entries: &[u32]) -> bool
    ensures { result ≡ are_places count bound entries.now }
{
    entries.len() == count && are_distinct(entries) && are_below(bound, entries)
}

/// Whether no entry occurs twice.
fn are_distinct(entries: &[u32]) -> bool
    ensures { result ≡ are_distinct entries.now }
{
    match entries {
        [] => true,
        [first, rest @ ..] => !occurs(*first, rest) && are_distinct(rest),
    }
}

/// Whether a number is an entry.
fn occurs(number: u32, entries: &[u32]) -> bool
    ensures { result ≡ occurs number entries.now }
{
    match entries {
        [] => false,
        [first, rest @ ..] => number == *first || occurs(number, rest),
    }
}

/// Whether each entry is below a number.
fn are_below(bound: u32, entries: &[u32]) -> bool
    ensures { result ≡ are_below bound entries.now }
{
    match entries {
        [] => true,
        [first, rest @ ..] => *first < bound && are_below(bound, rest),
    }
}
