//! What a scan reads.

ghost use Rattle.std.specs.Prelude.{◌≡◌, [], ◌++◌, map, option_map, IfNone};
ghost use Rattle.std.specs.Option.{option_to_list};

use std::collections::VecDeque;
use std::marker::Model;
use std::sync::Arc;
use tuple_block::Block;

/// The blocks that a scan has yet to give, each as it stood when the scan began. Another thread may
/// read them while the blocks are written.
#[derive(Drop)]
pub struct CowScan {
    rest: VecDeque<Arc<Block>>,
}

impl Model for CowScan {
    ghost use Rattle.std.specs.Prelude.{List, map};
    ghost use Rattle.tuple_block.specs.Tuples.{Tuples};

    ghost Value = { List Tuples };

    ghost view = { λ s. map (λ a. a.value) s.rest.items };
}

impl CowScan {
    /// A scan of these blocks, in order.
    pub(crate) fn of(blocks: VecDeque<Arc<Block>>) -> CowScan
        ensures { result ≡ map (λ a. a.value) blocks.items }
    {
        CowScan { rest: blocks }
    }

    /// Takes the next block, or `None` where none is left. It takes no memory.
    pub fn next_block(&mut self) -> Option<Arc<Block>>
        ensures next { self.old ≡ option_to_list (option_map (λ a. a.value) result) ++ self.new }
        ensures end { IfNone result (self.old ≡ []) }
    {
        self.rest.pop_front()
    }
}
