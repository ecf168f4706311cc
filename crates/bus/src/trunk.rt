// A trunk of the line board: an outside line.
ghost use Rattle.std.specs.Prelude.{◌≡◌, ◌+◌, ◌*◌, ◌/◌, ◌%◌, ◌≤◌, ◌&&◌, is_some, IfSome, nat_le};

#[derive(Clone, Copy, PartialEq, Eq, Debug)]
pub struct Trunk {
    class: u8,
    party: u8,
    ghost ok: { (class ≤ 15) × (party ≤ 15) },
}

impl Trunk {
    // A trunk of a class and a party of 0 to 15 each; none for larger ones.
    pub fn new(class: u8, party: u8) -> Option<Trunk>
        ensures test { is_some result ≡ (nat_le class 15 && nat_le party 15) }
        ensures value { IfSome result (λ t. (t.class ≡ class) × (t.party ≡ party)) }
    {
        if class <= 15 && party <= 15 {
            Some(Trunk { class, party })
        } else {
            None
        }
    }

    pub fn class(self) -> u8
        ensures { result ≡ self.class }
    {
        self.class
    }

    pub fn party(self) -> u8
        ensures { result ≡ self.party }
    {
        self.party
    }
}

// The byte that the trunk reads as.
impl From<Trunk> for u8 {
    ghost from_gives = { λ trunk byte. byte ≡ 16 * trunk.class + trunk.party };

    fn from(trunk: Trunk) -> u8 {
        16 * trunk.class + trunk.party
    }
}

// The trunk that a store of the byte leaves.
impl From<u8> for Trunk {
    ghost from_gives = { λ byte trunk. (trunk.class ≡ byte / 16) × (trunk.party ≡ byte % 16) };

    fn from(byte: u8) -> Trunk {
        Trunk {
            class: byte / 16,
            party: byte % 16,
        }
    }
}
