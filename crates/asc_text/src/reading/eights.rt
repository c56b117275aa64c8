// Lines of the characters 0 and 1 as numbers. Eight characters become eight bits in one step, in code that is made for each width.
ghost use Rattle.std.specs.Prelude.{◌≡◌, ◌+◌, ◌-◌, ◌%◌, ◌≤◌, List, ℕ, take, drop, map, length};
ghost use Rattle.std.specs.List.{list_all};
ghost use Rattle.bit_plane.specs.BitList.{word_of};
ghost use Rattle.asc_text.specs.inside.RowNumbers.{is_bit, is_odd, bytes_number, AreEight};

/// The bytes of a line as a row of bits.
#[derive(Drop)]
pub(crate) struct RowBits {
    /// Their lowest bits as a number. The bit of the first byte is the bit of value 1.
    pub(crate) ones: u64,
    /// Whether each is the character 0 or 1.
    pub(crate) are_bits: bool,
}

/// Eight bytes of a line as a row of bits.
#[derive(Drop)]
struct EightBits {
    ones: u8,
    are_bits: bool,
}

/// A line as a number, column c being worth 2^c, and whether it is one of the characters 0 and 1.
#[inline(always)]
pub(crate) fn row_bits_of(line: &[u8]) -> RowBits
    requires long { 8 ≤ length line.now }
    requires short { length line.now ≤ 64 }
    ensures ones { result.ones ≡ word_of (map is_odd line.now) }
    ensures bits { result.are_bits ≡ list_all is_bit line.now }
{
    // The first eight bytes. Those from `start` on are read a second time with the tail.
    let head = eight_at(line, 0);
    let start = line.len() % 8;
    let tail = in_eights(line, start);
    RowBits {
        ones: u64::from(head.ones) % (1 << start) | tail.ones << start,
        are_bits: head.are_bits & tail.are_bits,
    }
}

/// The bytes of a line from a place on, whose number is a multiple of eight and not 0, as a row of bits.
#[inline(always)]
fn in_eights(line: &[u8], start: usize) -> RowBits
    requires within { start ≤ length line.now }
    requires whole { (length line.now - start) % 8 ≡ 0 }
    requires short { length line.now ≤ 64 }
    ensures ones { result.ones ≡ word_of (drop start (map is_odd line.now)) }
    ensures bits { result.are_bits ≡ list_all is_bit (drop start line.now) }
{
    let mut place = line.len();
    let mut ones = 0;
    let mut are_bits = true;
    while start < place {
        place -= 8;
        let eight = eight_at(line, place);
        ones = 256 * ones + u64::from(eight.ones);
        are_bits &= eight.are_bits;
    }
    RowBits { ones, are_bits }
}

/// The lowest bits of eight bytes of a line as a number, the bit of the first byte worth 1, and whether each byte is the character 0
/// or 1.
fn eight_at(line: &[u8], start: usize) -> EightBits
    requires { start + 8 ≤ length line.now }
    ensures ones { result.ones ≡ word_of (map is_odd (take 8 (drop start line.now))) }
    ensures bits { result.are_bits ≡ list_all is_bit (take 8 (drop start line.now)) }
{
    let word = word_at(line, start);
    EightBits {
        ones: packed(word),
        are_bits: are_bits(word),
    }
}

/// Eight bytes of a line as a number, the first worth 1.
fn word_at(line: &[u8], start: usize) -> u64
    requires { start + 8 ≤ length line.now }
    ensures { result ≡ bytes_number (take 8 (drop start line.now)) }
{
    u64::from_le_bytes([
        line[start],
        line[start + 1],
        line[start + 2],
        line[start + 3],
        line[start + 4],
        line[start + 5],
        line[start + 6],
        line[start + 7],
    ])
}

/// The lowest bits of eight bytes as a number, the bit of the first byte worth 1.
fn packed(word: u64) -> u8
    ensures { (bytes : List ℕ) → AreEight bytes → word ≡ bytes_number bytes → result ≡ word_of (map is_odd bytes) }
{
    // The product has the sum of 2^i times the lowest bit of byte i in its highest byte.
    ((word & 0x0101_0101_0101_0101).wrapping_mul(0x0102_0408_1020_4080) >> 56) as u8
}

/// Whether each of eight bytes is the character 0 or 1.
fn are_bits(word: u64) -> bool
    ensures { (bytes : List ℕ) → AreEight bytes → word ≡ bytes_number bytes → result ≡ list_all is_bit bytes }
{
    word & 0xFEFE_FEFE_FEFE_FEFE == 0x3030_3030_3030_3030
}
