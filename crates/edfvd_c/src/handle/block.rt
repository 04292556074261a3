//! The part of a handle that owns memory: the raw pointer to a box with a scheduler or a monitor in it, or null.
ghost use Rattle.std.specs.Prelude.{◌≡◌, Option, Some, None, IsSome};
ghost use Rattle.edfvd_c.specs.declared.handle.held.Held.{Held};
ghost use Rattle.std.specs.Borrow.{sem};
ghost use Rattle.edfvd_c.specs.Handle.{block_owns, held_coded};

use crate::handle::held::Held;
use crate::handle::parts::Parts;
use std::alloc::Global;
use std::marker::Model;
use std::ptr::null_mut;

/// Nothing, or memory of the allocator with a scheduler or a monitor in it. Dropping a block frees nothing: the memory is freed
/// with the box that `into_parts` leads back to.
#[repr(C)]
#[derive(Drop)]
pub struct Block {
    at: *mut u8,
    alloc: Global,
    pub ghost held: { Option Held } by { held_coded },
}

impl Model for Block {
    ghost also_owns = { λ h. block_owns h.alloc h.at h.held };
}

impl Block {
    ghost use Rattle.edfvd_c.specs.Handle.Lending.{BlockLends};

    /// The block of a closed handle, with nothing in it.
    pub fn closed(alloc: Global) -> Block
        ensures { result.held ≡ None }
    {
        Block {
            at: null_mut(),
            alloc,
        }
    }

    /// The block that owns the memory of the box that had these parts.
    pub fn of_parts(parts: Parts<Held, Global>) -> Block
        ensures { result.held ≡ Some parts.value }
    {
        let Parts { ptr, alloc } = parts;
        Block {
            at: ptr as *mut u8,
            alloc,
        }
    }

    /// Lends the scheduler or the monitor in the block to the caller, who may change it there.
    pub fn held_mut(&mut self) -> &mut Held
        requires { IsSome self.old.held }
        ensures* writes_back { sem 𝓛 (BlockLends self.entry result) }
        ensures value { self.old.held ≡ Some result.now }
    {
        unsafe { &mut *(self.at as *mut Held) }
    }

    /// The parts of the box whose memory the block owns.
    pub fn into_parts(self) -> Parts<Held, Global>
        requires { IsSome self.held }
        ensures { self.held ≡ Some result.value }
    {
        let Block { at, alloc } = self;
        Parts {
            ptr: at as *mut Held,
            alloc,
        }
    }
}
