// Numbers of a line in the types that a layout keeps.
ghost use Rattle.std.specs.Prelude.{◌≡◌, ℕ, ◌≤◌, ◌<◌, ◌^◌, ◌-◌, ◌++◌, All, length, replicate};

/// `N` numbers as bytes.
pub(crate) fn bytes<const N: usize>(numbers: &[u32]) -> [u8; N]
    requires count { length numbers.now ≡ N }
    requires small { All (λ number. number < 2 ^ 8) numbers.now }
    ensures { result ≡ numbers.now }
{
    let mut bytes = [0; N];
    for place in 0..N {
        bytes[place] = numbers[place] as u8;
    }
    bytes
}

/// At most 17 numbers in 16 bits each, and 0 after them.
pub(crate) fn widths(numbers: &[u32]) -> [u16; 17]
    requires few { length numbers.now ≤ 17 }
    requires small { All (λ number. number < 2 ^ 16) numbers.now }
    ensures { result ≡ numbers.now ++ replicate (17 - length numbers.now) 0 }
{
    let mut widths = [0; 17];
    for place in 0..numbers.len() {
        widths[place] = numbers[place] as u16;
    }
    widths
}
