//! One allocation of bytes. All raw pointers of the crate are here, and each function with one is
//! proved by hand.

ghost use Rattle.std.specs.Prelude.{◌≡◌, ◌^◌, ℕ, ◌<◌, List, length, replicate, IfOk};
ghost use Rattle.std.specs.Borrow.{sem};
ghost use denote.RawPtr.{Ptr, room_for};
ghost use base.Fml.{ftrue};
ghost use Rattle.tuple_block.specs.Ownership.{block_type, bytes_at, bytes_lent};

use std::alloc::{AllocError, Allocator};
use std::marker::{Model, PhantomData, Send, Sync};
use std::slice;

/// Where a run of bytes begins. It owns nothing.
#[derive(Clone, Copy)]
pub struct Address {
    ptr: *mut u8,
}

unsafe impl Send for Address {}

unsafe impl Sync for Address {}

/// The bytes at an address. It takes no space: the address and the length are kept beside it.
pub struct Memory {
    mark: PhantomData<*const u8>,
    ghost at: { Ptr },
    ghost bytes: { List ℕ },
}

impl Model for Memory {
    ghost also_owns = { λ m. bytes_at m.at m.bytes };

    ghost also_shares = { λ m _ κ. bytes_lent m.at m.bytes κ };
}

unsafe impl Send for Memory {}

unsafe impl Sync for Memory {}

/// The right to give the block of `len` bytes at an address back to its allocator. It takes no space.
pub struct Allocation<A: Allocator> {
    mark: PhantomData<*const A>,
    ghost at: { Ptr },
    ghost len: { ℕ },
    ghost alloc: { A },
}

impl<A: Allocator> Model for Allocation<A> {
    ghost also_owns = { λ a. A.dealloc_token a.alloc (block_type a.len) a.at };

    ghost also_shares = { λ _ _ _. ftrue };
}

unsafe impl<A: Allocator + Send> Send for Allocation<A> {}

// A `&` to it gives no right.
unsafe impl<A: Allocator> Sync for Allocation<A> {}

/// So many bytes in a block of their own, all of them 0. A byte may lie anywhere: its alignment is 1.
pub(crate) fn allocate<A: Allocator>(
    alloc: &A,
    len: usize,
) -> Result<(Address, Memory, Allocation<A>), AllocError>
    requires { len < 2 ^ 63 }
    ensures { IfOk result (λ r. (r.1.at ≡ r.0.ptr) × (r.1.bytes ≡ replicate len 0) × (r.2.at ≡ r.0.ptr) × (r.2.len ≡ len) × (r.2.alloc ≡ alloc.now)) }
{
    match alloc.allocate(len, 1) {
        Ok(ptr) => {
            unsafe { set_zero(ptr, len) };
            Ok((
                Address { ptr },
                Memory { mark: PhantomData },
                Allocation { mark: PhantomData },
            ))
        }
        Err(error) => Err(error),
    }
}

/// Gives the block back, whatever its bytes are.
pub(crate) fn free<A: Allocator>(
    alloc: &A,
    address: Address,
    len: usize,
    memory: Memory,
    allocation: Allocation<A>,
)
    requires { (memory.at ≡ address.ptr) × (length memory.bytes ≡ len) × (allocation.at ≡ address.ptr) × (allocation.len ≡ len) × (allocation.alloc ≡ alloc.now) }
{
    let Memory { mark: _ } = memory;
    let Allocation { mark: _ } = allocation;
    unsafe {
        alloc.deallocate(address.ptr, len, 1);
    }
}

// Writes 0 to each of the bytes from a pointer on.
unsafe fn set_zero(ptr: *mut u8, len: usize)
    requires* { sem 𝓛 (room_for (block_type len) ptr) }
    ensures* { sem 𝓛 (bytes_at ptr (replicate len 0)) }
{
    let mut i = 0;
    while i < len {
        unsafe {
            ptr.add(i).write(0);
        }
        i += 1;
    }
}

impl Memory {
    ghost use Rattle.tuple_block.specs.Lends.{lends_bytes};

    /// All of the bytes. The address and the length are those kept beside the memory.
    pub(crate) fn as_slice(&self, address: Address, len: usize) -> &[u8]
        requires { (address.ptr ≡ self.now.at) × (length self.now.bytes ≡ len) × (len < 2 ^ 63) }
        ensures { result.now ≡ self.now.bytes }
    {
        unsafe { slice::from_raw_parts(address.ptr, len) }
    }

    /// All of the bytes, to be written. The address and the length are those kept beside the memory.
    pub(crate) fn as_mut_slice(&mut self, address: Address, len: usize) -> &mut [u8]
        requires { (address.ptr ≡ self.old.at) × (length self.old.bytes ≡ len) × (len < 2 ^ 63) }
        ensures* writes_back { sem 𝓛 (lends_bytes self.entry result) }
        ensures value { result.now ≡ self.old.bytes }
    {
        unsafe { slice::from_raw_parts_mut(address.ptr, len) }
    }
}
