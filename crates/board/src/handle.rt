// An installation as C holds it: a pointer that owns it, or nothing.
ghost use Rattle.std.specs.Prelude.{◌≡◌, Some, None, IsSome};
ghost use Rattle.std.specs.declared.option.Option.{Option};
ghost use Rattle.installation.specs.declared.installation.Installation.{Installation};
ghost use Rattle.board.specs.Held.{held, held_coded};

use installation::Installation;
use loose::Loose;
use std::alloc::Global;
use std::marker::Model;

#[repr(C)]
#[derive(Drop)]
pub struct Handle {
    // Where the installation lies. C sees no type that has a `Vec`, so it is a pointer to a byte.
    at: *mut u8,
    pub ghost installation: { Option Installation } by { held_coded },
}

impl Model for Handle {
    ghost also_owns = { λ h. held h.at h.installation };
}

impl Handle {
    pub(crate) fn of(loose: Loose<Installation, Global>) -> Handle
        ensures { result.installation ≡ Some loose.value }
    {
        let Loose { at, alloc: _ } = loose;
        Handle { at: at as *mut u8 }
    }

    pub(crate) fn into_loose(self, alloc: Global) -> Loose<Installation, Global>
        requires { IsSome self.installation }
        ensures { self.installation ≡ Some result.value }
    {
        let Handle { at } = self;
        Loose {
            at: at as *mut Installation,
            alloc,
        }
    }

    pub(crate) fn none() -> Handle
        ensures { result.installation ≡ None }
    {
        Handle {
            at: std::ptr::null_mut(),
        }
    }
}
