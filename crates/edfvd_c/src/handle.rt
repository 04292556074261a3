//! The struct by which a caller in C holds a scheduler or a monitor: a mark, and a block with the pointer to it.
ghost use Rattle.std.specs.Borrow.{sem};
ghost use Rattle.std.specs.Prelude.{◌≡◌, Some, None, IfSome, IfNone, is_some};
ghost use Rattle.edfvd_c.specs.Handle.{IsMarked};

mod block;
mod held;
mod parts;

use block::Block;
pub use held::Held;
pub(crate) use held::{on_scheduler, read_scheduler};
use parts::Parts;
use std::alloc::Global;
use std::mem::replace;

// The mark of an open handle: the letters `edfvd_op` in ASCII, the first of them in the highest byte. A handle with any other
// mark, for example 0, is closed.
const OPEN_MARK: u64 = 0x6564_6676_645f_6f70;

/// An open handle holds a scheduler or a monitor, a closed one nothing. A caller in C makes it of zeros, so that it is closed,
/// and does not write in it after that. Clauses read what it holds as `block.held`.
#[repr(C)]
#[derive(Drop)]
pub struct Handle {
    mark: u64,
    block: Block,
    ghost marked: { IsMarked mark block.held },
}

impl Handle {
    ghost use Rattle.edfvd_c.specs.Handle.Lending.{HandleLends};

    /// Whether the handle holds a scheduler or a monitor.
    pub fn is_open(&self) -> bool
        ensures { result ≡ is_some self.now.block.held }
    {
        self.mark == OPEN_MARK
    }

    /// Lends the scheduler or the monitor in the handle to the caller, who may change it there; `None` if the handle is closed.
    pub fn held(&mut self) -> Option<&mut Held>
        ensures* writes_back { sem 𝓛 (HandleLends self.entry result) }
        ensures some { IfSome result (λ held. self.old.block.held ≡ Some held.now) }
        ensures none { IfNone result (self.old.block.held ≡ None) }
    {
        if self.mark == OPEN_MARK {
            Some(self.block.held_mut())
        } else {
            None
        }
    }

    /// Takes the scheduler or the monitor out of the handle, which is closed after; `None` if it was closed before.
    pub fn take(&mut self, alloc: Global) -> Option<Box<Held>>
        ensures some { IfSome result (λ held. self.old.block.held ≡ Some held.value) }
        ensures none { IfNone result (self.old.block.held ≡ None) }
        ensures left { self.new.block.held ≡ None }
    {
        if self.mark != OPEN_MARK {
            return None;
        }
        let none = Handle {
            mark: 0,
            block: Block::closed(alloc),
        };
        let old = replace(self, none);
        Some(old.block.into_parts().into_box())
    }

    /// Opens a closed handle, with this scheduler or monitor in it. What an open one held would never be freed, since dropping a
    /// block frees nothing.
    pub fn put(&mut self, held: Box<Held>)
        requires { self.old.block.held ≡ None }
        ensures { self.new.block.held ≡ Some held.value }
    {
        *self = Handle {
            mark: OPEN_MARK,
            block: Block::of_parts(Parts::of(held)),
        };
    }
}
