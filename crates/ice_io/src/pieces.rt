// Shared by the sources, sinks and files in memory: which calls fail, and copying a piece.
ghost use Rattle.std.specs.Prelude.{◌≡◌, ◌++◌, ◌↔◌, min, length, take, drop, IsTrue, Contains};

// Whether a call is one of those that are listed.
pub(crate) fn is_listed(failing: &[u64], call: u64) -> bool
    ensures { IsTrue result ↔ Contains failing.now call }
{
    failing.contains(&call)
}

// Copies at most `most` bytes from the front of one slice over the front of another.
pub(crate) fn copy_front(from: &[u8], most: usize, into: &mut [u8]) -> usize
    ensures size { result ≡ min most (min (length from.now) (length into.old)) }
    ensures copied { into.new ≡ take result from.now ++ drop result into.old }
{
    let count = most.min(from.len()).min(into.len());
    into[..count].copy_from_slice(&from[..count]);
    count
}
