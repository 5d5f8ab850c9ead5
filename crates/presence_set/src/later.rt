//! The blocks behind the first.
ghost use Rattle.std.specs.Prelude.{◌≡◌, []};
ghost use Rattle.presence_set.specs.declared.lack.Lack.TheVariants.{Anywhere};

use crate::lack::Lack;
use std::alloc::Global;

/// The blocks behind the first, of which none is empty, and which block may lack room, so that
/// making room looks at few of them.
pub struct LaterBlocks<B> {
    pub blocks: Vec<B>,
    pub lack: Lack,
}

impl<B: Drop> Drop for LaterBlocks<B> {
    fn drop(self) {
        let LaterBlocks { blocks: _, lack: _ } = self;
    }
}

impl<B: Drop> LaterBlocks<B> {
    /// No block. It takes no memory yet.
    pub fn none(alloc: Global) -> LaterBlocks<B>
        ensures blocks { result.blocks.items ≡ [] }
        ensures lack { result.lack ≡ Anywhere }
    {
        LaterBlocks {
            blocks: Vec::new(alloc),
            lack: Lack::Anywhere,
        }
    }
}
