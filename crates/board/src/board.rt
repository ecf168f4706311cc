// A board.
ghost use Rattle.std.specs.Prelude.{◌≡◌, is_some, Some, None};
ghost use Rattle.board.specs.Held.{opened};

use crate::handle::Handle;
use installation::Installation;
use loose::Loose;
use std::alloc::Global;

pub mod work;

// All bytes zero, it is a board that was not made.
#[repr(C)]
#[derive(Drop)]
pub struct Board {
    made: bool,
    handle: Handle,
    ghost agree: { made ≡ is_some handle.installation },
}

impl Board {
    fn unmade() -> Board
        ensures { result.handle.installation ≡ None }
    {
        Board {
            made: false,
            handle: Handle::none(),
        }
    }

    pub(crate) fn of(installation: Box<Installation>) -> Board
        ensures { result.handle.installation ≡ Some installation.value }
    {
        Board {
            made: true,
            handle: Handle::of(Loose::of(installation)),
        }
    }

    fn open(self, heap: Global) -> Option<Box<Installation>>
        ensures { opened result ≡ self.handle.installation }
    {
        if self.made {
            Some(self.handle.into_loose(heap).into_box())
        } else {
            None
        }
    }

    // Takes the installation out of it, if there is one.
    pub(crate) fn take(&mut self, heap: Global) -> Option<Box<Installation>>
        ensures taken { opened result ≡ self.old.handle.installation }
        ensures left { self.new.handle.installation ≡ None }
    {
        std::mem::replace(self, Board::unmade()).open(heap)
    }
}
