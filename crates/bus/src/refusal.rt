// Why a bus refuses, and how far below the bus that was asked.
ghost use Rattle.std.specs.Prelude.{◌≡◌};
ghost use Rattle.bus.specs.Meaning.{cause_number, refusal_number, refusal_detail, here, raised};

#[derive(Clone, Copy, PartialEq, Eq, Debug)]
pub enum Cause {
    NoByte = 4,
    RomStore = 5,
    Guarded = 6,
    OutsideShadow = 7,
}

impl Cause {
    // The refusal's number.
    pub fn number(self) -> u8
        ensures { result ≡ cause_number self }
    {
        self as u8
    }
}

// The depth is the number of layers between the bus that was asked and the one that refused; it stops at 255.
#[derive(Clone, Copy, PartialEq, Eq, Debug)]
pub struct BusRefusal {
    pub cause: Cause,
    pub depth: u8,
}

impl BusRefusal {
    // A refusal by the bus that was asked.
    #[inline(always)]
    pub fn here(cause: Cause) -> BusRefusal
        ensures { result ≡ here cause }
    {
        BusRefusal { cause, depth: 0 }
    }

    pub fn number(self) -> u8
        ensures { result ≡ refusal_number self }
    {
        self.cause.number()
    }

    // What the refusal says besides: the address that was asked, which is its caller's to add, and the depth.
    pub fn detail(self, address: u16) -> (u16, u8)
        ensures { result ≡ refusal_detail address self }
    {
        (address, self.depth)
    }
}

// What a bus below answered, as the layer above it passes it on.
#[inline(always)]
pub fn raise<T>(answer: Result<T, BusRefusal>) -> Result<T, BusRefusal>
    ensures { result ≡ raised answer }
{
    answer.map_err(|refusal| BusRefusal {
        depth: refusal.depth.saturating_add(1),
        ..refusal
    })
}
