//! The memory of a block. All that is above it knows it by these contracts alone.

ghost use Rattle.std.specs.Prelude.{◌≡◌, ◌+◌, ◌≤◌, ◌++◌, length, take, drop, replicate, IfOk};

use crate::memory::{Address, Allocation, Memory, allocate, free};
use std::alloc::{AllocError, Global};
use std::marker::Model;

/// A run of bytes of a fixed length, seen as their list. It is one allocation: a pointer and a
/// length.
pub struct Bytes {
    address: Address,
    len: usize,
    memory: Memory,
    allocation: Allocation<Global>,
    alloc: Global,
}

impl Model for Bytes {
    ghost use Rattle.std.specs.Prelude.{◌≡◌, ◌^◌, ◌<◌, ℕ, List, length};

    ghost Value = { List ℕ };

    ghost view = { λ b. b.memory.bytes };

    ghost invariant = { λ b. (b.memory.at ≡ b.address.ptr) × (length b.memory.bytes ≡ b.len) × (b.len < 2 ^ 63) × (b.allocation.at ≡ b.address.ptr) × (b.allocation.len ≡ b.len) × (b.allocation.alloc ≡ b.alloc) };
}

impl Drop for Bytes {
    fn drop(self) {
        let Bytes {
            address,
            len,
            memory,
            allocation,
            alloc,
        } = self;
        free(&alloc, address, len, memory, allocation);
    }
}

impl Bytes {
    /// So many bytes, all of them 0.
    pub fn zeros(alloc: Global, len: usize) -> Result<Bytes, AllocError>
        ensures { IfOk result (λ b. b ≡ replicate len 0) }
    {
        if len > isize::MAX as usize {
            return Err(AllocError);
        }
        let (address, memory, allocation) = allocate(&alloc, len)?;
        Ok(Bytes {
            address,
            len,
            memory,
            allocation,
            alloc,
        })
    }

    /// The same bytes, in memory of their own.
    pub fn copy(&self, alloc: Global) -> Result<Bytes, AllocError>
        ensures { IfOk result (λ b. b ≡ self.now) }
    {
        let mut copy = Bytes::zeros(alloc, self.len)?;
        copy.write(0, self.run(0, self.len));
        Ok(copy)
    }

    /// The `len` bytes from `from` on.
    pub fn run(&self, from: usize, len: usize) -> &[u8]
        requires { from + len ≤ length self.now }
        ensures { result.now ≡ take len (drop from self.now) }
    {
        &self.memory.as_slice(self.address, self.len)[from..from + len]
    }

    /// Puts bytes over those from `from` on.
    pub fn write(&mut self, from: usize, source: &[u8])
        requires { from + length source.now ≤ length self.old }
        ensures { self.new ≡ take from self.old ++ source.now ++ drop (from + length source.now) self.old }
    {
        let bytes = self.memory.as_mut_slice(self.address, self.len);
        bytes[from..from + source.len()].copy_from_slice(source);
    }
}
