ghost use Rattle.std.specs.Prelude.{◌≡◌, OnOk};
ghost use Rattle.one_host_model.specs.World.{told_after};

use one_host_model::Msg;
use std::alloc::AllocError;

/// The actor that does the items of the script, by what it is told of calls.
#[derive(Debug, Drop)]
pub struct Director {
    /// How many calls it was told of.
    pub told: u64,
}

impl Director {
    /// A director that was told of no call.
    pub fn new() -> Director
        ensures { result.told ≡ 0 }
    {
        Director { told: 0 }
    }

    /// Takes a message: Told counts one. A count that passes its type is running out of memory.
    pub fn take(&mut self, msg: Msg) -> Result<(), AllocError>
        ensures { OnOk result (self.new.told ≡ told_after self.old.told msg) }
    {
        if let Msg::Told = msg {
            self.told = self.told.checked_add(1).ok_or(AllocError)?;
        }
        Ok(())
    }
}
