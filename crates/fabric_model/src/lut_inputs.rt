// Which inputs LUTs read.
ghost use Rattle.std.specs.Prelude.{◌≡◌, ◌<◌};
ghost use Rattle.fabric_model.specs.Luts.{entry_of, entry_differs, uses_input, used_input, inputs_read};

/// Which inputs the LUTs of cells read.
#[derive(Clone, Copy, Debug, PartialEq, Eq)]
pub enum LutInputs {
    /// All four.
    All,
    /// Only those that the LUT uses. A LUT uses an input if two of its entries differ whose numbers differ in the bit of that input
    /// alone. An input that it doesn't use can't change its value.
    Used,
}

/// Entry `n` of a LUT; 0 past the last entry.
#[tactic(auto, using(crate::proofs::Entries::entry_within, crate::proofs::Entries::entry_past))]
pub(crate) fn entry(lut: u16, n: u32) -> bool
    ensures { result ≡ entry_of lut n }
{
    n < 16 && (lut >> n) & 1 == 1
}

/// Whether bit `k` of `n` is 0, and entry `n` differs from the entry whose number has a 1 there instead.
#[tactic(auto, using(crate::proofs::Entries::clear_bit))]
fn entry_differs(lut: u16, k: u32, n: u32) -> bool
    requires input { k < 4 }
    requires number { n < 16 }
    ensures { result ≡ entry_differs lut k n }
{
    (n >> k) & 1 == 0 && entry(lut, n) != entry(lut, n + (1 << k))
}

/// Whether a LUT uses input `k`.
fn uses_input(lut: u16, k: u32) -> bool
    requires { k < 4 }
    ensures { result ≡ uses_input lut k }
{
    for n in 0..16 {
        if entry_differs(lut, k, n) {
            return true;
        }
    }
    false
}

/// The net of input `k`, or `None` if the LUT doesn't use it.
fn used_input(lut: u16, ins: &[Option<u32>; 4], k: u8) -> Option<u32>
    requires { k < 4 }
    ensures { result ≡ used_input lut ins.now k }
{
    if uses_input(lut, u32::from(k)) {
        ins[usize::from(k)]
    } else {
        None
    }
}

/// The inputs of its cell that a LUT reads: all of them, or only those that it uses, with `None` in place of the others.
pub fn inputs_read(inputs: LutInputs, lut: u16, ins: &[Option<u32>; 4]) -> [Option<u32>; 4]
    ensures { result ≡ inputs_read inputs lut ins.now }
{
    match inputs {
        LutInputs::All => *ins,
        LutInputs::Used => [
            used_input(lut, ins, 0),
            used_input(lut, ins, 1),
            used_input(lut, ins, 2),
            used_input(lut, ins, 3),
        ],
    }
}
