// The size of a memory.
ghost use Rattle.std.specs.Prelude.{◌≡◌, ◌&&◌, ◌/◌, true, is_some, IfSome};
ghost use Rattle.random_words.specs.Draws.{is_depth, is_width};

/// How many bits a word of a memory has, and how many words there are: 4 to 256 bits, a multiple of 4, and 256 to 65,536 words, a multiple
/// of 256.
#[derive(Clone, Copy, Debug, PartialEq, Eq)]
pub struct MemorySize {
    width: u32,
    depth: u32,
    ghost width_taken: { is_width width ≡ true },
    ghost depth_taken: { is_depth depth ≡ true },
}

impl MemorySize {
    /// The size with these numbers, if they are taken.
    pub fn of(width: u32, depth: u32) -> Option<MemorySize>
        ensures width { IfSome result (λ size. size.width ≡ width) }
        ensures depth { IfSome result (λ size. size.depth ≡ depth) }
        ensures taken { is_some result ≡ (is_width width && is_depth depth) }
    {
        if is_width(width) && is_depth(depth) {
            Some(MemorySize { width, depth })
        } else {
            None
        }
    }

    /// How many words there are.
    pub(crate) fn depth(self) -> u32
        ensures { result ≡ self.depth }
    {
        self.depth
    }

    /// How many digits a word has.
    pub(crate) fn digits(self) -> u32
        ensures { result ≡ self.width / 4 }
    {
        self.width / 4
    }
}

fn is_width(width: u32) -> bool
    ensures { result ≡ is_width width }
{
    4 <= width && width <= 256 && width % 4 == 0
}

fn is_depth(depth: u32) -> bool
    ensures { result ≡ is_depth depth }
{
    256 <= depth && depth <= 65_536 && depth % 256 == 0
}
