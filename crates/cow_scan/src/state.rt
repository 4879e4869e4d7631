//! One block, owned or shared.

ghost use Rattle.std.specs.Prelude.{◌≡◌, true, false, IfSome, OnSome};
ghost use Rattle.std.specs.Borrow.{sem};
ghost use Rattle.cow_scan.specs.State.{block_of, is_shared, LendsOwned};

use std::alloc::{AllocError, Global};
use std::sync::Arc;
use tuple_block::Block;

/// A block that can be written, or one that a scan may be reading.
#[derive(Drop)]
pub enum State {
    Owned(Block),
    Shared(Arc<Block>),
}

impl State {
    /// The block.
    pub fn block(&self) -> &Block
        ensures { result.now ≡ block_of self.now }
    {
        match self {
            State::Owned(block) => block,
            State::Shared(block) => block,
        }
    }

    /// The block, to be written.
    pub fn owned(&mut self) -> &mut Block
        requires { is_shared self.old ≡ false }
        ensures* writes_back { sem 𝓛 (LendsOwned self.entry result) }
        ensures value { result.now ≡ block_of self.old }
    {
        match self {
            State::Owned(block) => block,
            State::Shared(_) => unreachable!(),
        }
    }

    /// The block as a shared one, and one more owner of it. Out of memory, there is no other owner,
    /// and the block is the same.
    pub fn share(self, alloc: Global) -> (State, Option<Arc<Block>>)
        ensures block { block_of result.0 ≡ block_of self }
        ensures other { IfSome result.1 (λ a. a.value ≡ block_of self) }
        ensures shared { OnSome result.1 (is_shared result.0 ≡ true) }
    {
        let shared = match self {
            State::Shared(block) => block,
            State::Owned(block) => match Arc::new(alloc, block) {
                Ok(block) => block,
                Err(failed) => return (State::Owned(failed.value), None),
            },
        };
        let other = Arc::try_clone(&shared).ok();
        (State::Shared(shared), other)
    }
}
