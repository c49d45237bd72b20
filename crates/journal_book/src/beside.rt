// What goes beside an act and is no part of it.
ghost use Rattle.std.specs.Prelude.{◌≡◌, None};

use repl_walker::{Ending, Walk};
use std::alloc::Global;
use std::boxed::Box;
use tenant_parts::Aside;
use tenant_world::Tenant;

// A size, in bytes, for which the usual allocators keep no list of their own.
const SETTLING: usize = 2_048;

/// What was done for an act beforehand, and what it leaves to nobody. Whoever has a book under a
/// lock frees that behind it.
pub struct Beside {
    pub aside: Aside,
    /// The ending of a form that is finished: the journal keeps none of it but how it ended.
    pub ending: Option<Box<Ending>>,
    /// The evaluation of a form that was interrupted.
    pub walk: Option<Walk>,
    /// A tenant that is gone.
    pub tenant: Option<Box<Tenant>>,
}

impl Drop for Beside {
    fn drop(self) {
        let Beside {
            aside: _aside,
            ending: _ending,
            walk: _walk,
            tenant: _tenant,
        } = self;
    }
}

impl Beside {
    /// Nothing was done, and nothing is left.
    pub fn nothing() -> Beside
        ensures { result.aside.spelled ≡ None }
    {
        Beside {
            aside: Aside::nothing(),
            ending: None,
            walk: None,
            tenant: None,
        }
    }

    /// Frees what is left. Then it asks for a little memory, once: an allocator that sorts what was
    /// freed only when memory is next asked for does it now, and not while others wait for a lock.
    pub fn free(self, alloc: Global) {
        drop(self);
        drop(Vec::<u8>::with_capacity(alloc, SETTLING));
    }
}
