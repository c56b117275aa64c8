// What a tool made of what it read.
ghost use Rattle.std.specs.Prelude.{◌≡◌, [], ℕ, List};

use ice_io::Content;

/// What a tool made: the bytes for its target, and those for the file beside it. Content alone is for the target, and has no byte for that
/// file.
pub trait Product: Drop {
    /// The bytes for the target.
    ghost bytes: { Self → List ℕ };

    /// The bytes for the file beside it.
    ghost beside: { Self → List ℕ };

    /// The bytes for the target, as the tool gives them.
    type Target: Content;

    /// The bytes for the file beside the target. They lie in memory.
    fn beside(&self) -> &[u8]
        ensures { result.now ≡ beside self.now };

    /// The bytes for the target, which may be made while they are written.
    fn target(self) -> Self::Target
        ensures { Self.Target.bytes result ≡ bytes self };
}

impl<C: Content> Product for C {
    ghost use Rattle.std.specs.Prelude.{[]};

    ghost bytes = { λ content. C.bytes content };

    ghost beside = { λ content. [] };

    type Target = C;

    fn beside(&self) -> &[u8] {
        &[]
    }

    fn target(self) -> C {
        self
    }
}

/// Content for the target, with the bytes for a file beside it.
#[derive(Drop)]
pub struct WithFile<C: Content> {
    pub target: C,
    pub beside: Vec<u8>,
}

impl<C: Content> Product for WithFile<C> {
    ghost bytes = { λ product. C.bytes product.target };

    ghost beside = { λ product. product.beside.items };

    type Target = C;

    fn beside(&self) -> &[u8] {
        &self.beside
    }

    fn target(self) -> C {
        self.target
    }
}
