// Condition 1 of one state, and the lookaheads of its items with the dot at 0, which condition 2 goes by.
ghost use Rattle.std.specs.Prelude.{◌≡◌, ℕ, ◌<◌};
ghost use Rattle.definitions.specs.Sheet.{count, prod};
ghost use Rattle.theory.specs.Check.Says.{Says};
ghost use Rattle.states.specs.Gathering.{Puts};
ghost use Rattle.states.specs.First.{DotFits, EndFits, FirstFits, Condition1At};
ghost use Rattle.states.specs.Zeros.{Zero, Zeros};
ghost use Rattle.states.specs.View.{sheet};

use crate::items::State;
use terminals::Terminals;

// ---- condition 1

// May (p,d) stand in s: in state 0 its dot is 0, and it is (0,0) in state 0 alone?
fn dot_fits(s: usize, p: usize, d: usize) -> bool
    ensures { Says result (DotFits s p d) }
{
    if s == 0 { d == 0 } else { p != 0 || d != 0 }
}

impl<'a> State<'a> {
    // Where item i is of production 0: is its set that of the end alone?
    fn end_fits(&self, i: usize) -> bool
        requires { i < self.now.n }
        ensures { Says result (EndFits (sheet self.now) self.now.s i) }
    {
        self.prod(i) != 0 || self.ahead(i) == Terminals::one(0)
    }

    // Both of item i.
    fn first_at(&self, i: usize) -> bool
        requires { i < self.now.n }
        ensures { Says result (FirstFits (sheet self.now) self.now.s i) }
    {
        dot_fits(self.s, self.prod(i), self.dot(i)) && self.end_fits(i)
    }

    // Both of every item.
    fn firsts_right(&self) -> bool
        ensures { let t = sheet self.now in Says result ((i : ℕ) → i < count t self.now.s → FirstFits t self.now.s i) }
    {
        (0..self.n).all(|i| self.first_at(i))
    }

    // Condition 1 at the state.
    pub fn first_right(&self) -> bool
        ensures { Says result (Condition1At (sheet self.now) self.now.s) }
    {
        self.firsts_right() && (self.s != 0 || self.find(0, 0).is_some())
    }

    // ---- for condition 2

    // The set of item i and its production, where its dot is 0.
    fn zero_at(&self, i: usize) -> Option<(usize, Terminals)>
        requires { i < self.now.n }
        ensures { Puts 200 (Zero (sheet self.now) self.now.s) i result }
    {
        if self.dot(i) == 0 {
            Some((self.prod(i), self.ahead(i)))
        } else {
            None
        }
    }

    // The sets of the items (q,0), by q; the empty set where there is none.
    pub fn zeros(&self) -> [Terminals; 200]
        ensures { Zeros (sheet self.now) self.now.s result }
    {
        self.sort(|i| self.zero_at(i))
    }
}
