// Sets of terminals, as document 01 has them in a table's items: terminal a has worth 2^a. What each operation does is said by
// what the set holds.
#![tactic(auto)]

ghost use Rattle.std.specs.Prelude.{◌≡◌, ◌^◌, ◌<◌};
ghost use Rattle.definitions.specs.States.{Holds};
ghost use Rattle.theory.specs.Check.Says.{Says};
ghost use Rattle.terminals.specs.Members.{One, Join, Within, Empty};

// A set of terminals below 64.
#[derive(Clone, Copy, PartialEq, Eq)]
pub struct Terminals {
    // the worths of its terminals together
    pub bits: u64,
}

// The set with these worths.
impl From<u64> for Terminals {
    ghost from_gives = { λ bits r. r.bits ≡ bits };

    fn from(bits: u64) -> Terminals {
        Terminals { bits }
    }
}

impl Terminals {
    // The set that holds nothing.
    pub const EMPTY: Terminals = Terminals { bits: 0 };

    // The set of one.
    pub fn one(a: u8) -> Terminals
        requires { a < 64 }
        ensures { One a result.bits }
    {
        Terminals { bits: 1 << a }
    }

    // What either of two sets holds.
    pub fn join(self, other: Terminals) -> Terminals
        ensures { Join self.bits other.bits result.bits }
    {
        Terminals {
            bits: self.bits | other.bits,
        }
    }

    // Does the set hold a?
    pub fn holds(self, a: u8) -> bool
        requires { a < 64 }
        ensures { Says result (Holds self.bits a) }
    {
        (self.bits >> a) % 2 == 1
    }

    // Does the other set hold all that this one holds?
    pub fn within(self, other: Terminals) -> bool
        ensures { Says result (Within self.bits other.bits) }
    {
        (self.bits | other.bits) == other.bits
    }

    // Does the set hold nothing?
    pub fn is_empty(self) -> bool
        ensures { Says result (Empty self.bits) }
    {
        self.bits == 0
    }

    // Is all that the set holds below n?
    pub fn below(self, n: u8) -> bool
        ensures { Says result (self.bits < 2 ^ n) }
    {
        n >= 64 || self.bits >> n == 0
    }
}
