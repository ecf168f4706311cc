// Why a call is refused.
ghost use Rattle.std.specs.Prelude.{◌≡◌};
ghost use Rattle.installation.specs.declared.fault.CallFault.TheVariants.{Load, Exchange};
ghost use Rattle.installation.specs.Numbers.{call_described, call_place, call_told};

use engine::LoadFault;
use noninterference::{Description, Detail, Refusal};

#[derive(Clone, Copy, PartialEq, Eq, Debug)]
pub enum CallFault {
    // A load after GO, a step, a run or a ring before it, or anything after the read-out.
    OutOfTurn,
    Load(LoadFault),
    Exchange(Refusal),
}

impl From<LoadFault> for CallFault {
    ghost from_gives = { λ fault r. r ≡ Load fault };

    fn from(below: LoadFault) -> CallFault {
        CallFault::Load(below)
    }
}

impl From<Refusal> for CallFault {
    ghost from_gives = { λ refusal r. r ≡ Exchange refusal };

    fn from(below: Refusal) -> CallFault {
        CallFault::Exchange(below)
    }
}

impl CallFault {
    pub fn describe(self) -> Description
        ensures { result ≡ call_described self }
    {
        match self {
            CallFault::OutOfTurn => Description {
                number: 12,
                detail: Detail::None,
            },
            CallFault::Load(fault) => fault.describe(),
            CallFault::Exchange(refusal) => refusal.fault.describe(),
        }
    }

    // The first stained address that a refused step read.
    pub fn told(self) -> Option<u16>
        ensures { result ≡ call_told self }
    {
        match self {
            CallFault::OutOfTurn | CallFault::Load(_) => None,
            CallFault::Exchange(refusal) => refusal.told,
        }
    }

    // Only the exchange has a place.
    pub fn place(self) -> u16
        ensures { result ≡ call_place self }
    {
        match self {
            CallFault::OutOfTurn | CallFault::Load(_) => 0,
            CallFault::Exchange(refusal) => refusal.place,
        }
    }
}
