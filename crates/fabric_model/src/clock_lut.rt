// What a LUT does to a clock that passes through it.
ghost use Rattle.std.specs.Prelude.{◌≡◌, ◌<◌, ℕ, Bool, true, false, Some};
ghost use Rattle.fabric_model.specs.declared.signal.Signal.TheVariants.{Net};
ghost use Rattle.fabric_model.specs.ClockLuts.{input_at, is_at_open, is_open_otherwise, pass_along, pass_by, pass_of};
ghost use Rattle.fabric_model.specs.ClockPasses.{AreOpen, is_open_by, pass_in, value_by};

use crate::lut_inputs::entry;
use crate::{LutTable, Signal};

/// What a LUT does to a clock that passes through it. Only entries that can occur count: an unconnected input is 0.
#[derive(Clone, Copy, Debug, PartialEq, Eq)]
pub enum LutPass {
    /// Its value is always this bit.
    Holds(bool),
    /// Its value is that of a net, or the inverse of it if it is turned.
    Follows { turned: bool, net: u32 },
    /// Its value is neither.
    Mixes,
}

/// Finds what a LUT does to a clock. `live` says which of its inputs can be 1: those that are connected.
#[tactic(auto, unfolding(crate::specs::ClockLuts::pass_of))]
pub fn pass_of(table: &LutTable, live: [bool; 4]) -> LutPass
    ghost connected: { ℕ → Bool }
    requires { AreOpen connected table.now live }
    ensures { pass_in result ≡ pass_of connected table.now }
{
    if is_at_open(table, live, None, false) {
        LutPass::Holds(false)
    } else if is_at_open(table, live, None, true) {
        LutPass::Holds(true)
    } else {
        let third = pass_by(table, live, 3, LutPass::Mixes);
        let second = pass_by(table, live, 2, third);
        let first = pass_by(table, live, 1, second);
        pass_by(table, live, 0, first)
    }
}

/// What a LUT does if it follows input `k`, and `otherwise` if it doesn't.
fn pass_by(table: &LutTable, live: [bool; 4], k: u8, otherwise: LutPass) -> LutPass
    ghost connected: { ℕ → Bool }
    requires live { AreOpen connected table.now live }
    requires input { k < 4 }
    ensures { pass_in result ≡ pass_by connected table.now k (pass_in otherwise) }
{
    let source = table.ins[usize::from(k)];
    match source {
        Signal::Net {
            net: Some(net),
            otherwise: false,
        } if live[usize::from(k)] => pass_along(table, live, k, net, otherwise),
        _ => otherwise,
    }
}

/// What a LUT does if it follows input `k`, which reads a net that is connected, and `otherwise` if it doesn't.
fn pass_along(table: &LutTable, live: [bool; 4], k: u8, net: u32, otherwise: LutPass) -> LutPass
    ghost connected: { ℕ → Bool }
    requires live { AreOpen connected table.now live }
    requires input { k < 4 }
    requires connected { connected net ≡ true }
    ensures { pass_in result ≡ pass_along connected table.now k (pass_in otherwise) (Net (Some net) false) }
{
    if is_at_open(table, live, Some(u32::from(k)), false) {
        LutPass::Follows { turned: false, net }
    } else if is_at_open(table, live, Some(u32::from(k)), true) {
        LutPass::Follows { turned: true, net }
    } else {
        otherwise
    }
}

/// Whether each entry that can occur has the value of an input, or the inverse of it if it is turned. Without an input the value is 0.
fn is_at_open(table: &LutTable, live: [bool; 4], input: Option<u32>, turned: bool) -> bool
    ghost connected: { ℕ → Bool }
    requires live { AreOpen connected table.now live }
    requires input { (k : ℕ) → input ≡ Some k → k < 4 }
    ensures { result ≡ is_at_open connected table.now (value_by turned input) }
{
    for n in 0..16 {
        if is_open_otherwise(table, live, input, turned, n) {
            return false;
        }
    }
    true
}

/// Whether entry `n` can occur, and hasn't that value.
#[tactic(auto, using(crate::proofs::ClockPasses::open_by))]
fn is_open_otherwise(
    table: &LutTable,
    live: [bool; 4],
    input: Option<u32>,
    turned: bool,
    n: u32,
) -> bool
    ghost connected: { ℕ → Bool }
    requires live { AreOpen connected table.now live }
    requires input { (k : ℕ) → input ≡ Some k → k < 4 }
    ensures { result ≡ is_open_otherwise connected table.now (value_by turned input) n }
{
    is_open(live, n) && entry(table.word, n) != value_of(turned, input, n)
}

/// Whether entry `n` can occur.
fn is_open(live: [bool; 4], n: u32) -> bool
    ensures { result ≡ is_open_by live n }
{
    (!input_at(0, n) || live[0])
        && (!input_at(1, n) || live[1])
        && (!input_at(2, n) || live[2])
        && (!input_at(3, n) || live[3])
}

/// The value of an input at entry `n`, or the inverse of it if it is turned. Without an input it is 0.
fn value_of(turned: bool, input: Option<u32>, n: u32) -> bool
    requires { (k : ℕ) → input ≡ Some k → k < 4 }
    ensures { result ≡ value_by turned input n }
{
    match input {
        None => turned,
        Some(k) => input_at(k, n) != turned,
    }
}

/// The value of input `k` at entry `n`.
#[tactic(auto, using(crate::proofs::Entries::set_bit))]
fn input_at(k: u32, n: u32) -> bool
    requires { k < 4 }
    ensures { result ≡ input_at k n }
{
    (n >> k) & 1 == 1
}
