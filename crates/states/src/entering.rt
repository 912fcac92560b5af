// Condition 6 of one state: which items enter a state, by the dots of the state that the transition leaves.
ghost use Rattle.std.specs.Prelude.{◌<◌};
ghost use Rattle.theory.specs.Check.Says.{Says};
ghost use Rattle.states.specs.Dots.{Dot, Dots, Entered, Condition6At};
ghost use Rattle.states.specs.Gathering.{Puts};
ghost use Rattle.states.specs.View.{sheet};

use crate::items::State;
use terminals::Terminals;

// ---- condition 6

impl<'a> State<'a> {
    // The dot of item i, as a set, and its production.
    fn dot_at(&self, i: usize) -> Option<(usize, Terminals)>
        requires { i < self.now.n }
        ensures { Puts 200 (Dot (sheet self.now) self.now.s) i result }
    {
        Some((self.prod(i), Terminals::one(self.dot(i) as u8)))
    }

    // The dots of the state's items, by production.
    pub fn dots(&self) -> [Terminals; 200]
        ensures { Dots (sheet self.now) self.now.s result }
    {
        self.sort(|i| self.dot_at(i))
    }

    // Where the dot of item i is above 0: is x before it, and the item with its dot moved back in the state s, whose dots are lent?
    fn entered_at(&self, i: usize, s: usize, x: u8, dots: &[Terminals; 200]) -> bool
        requires i_bound { i < self.now.n }
        requires dots { Dots (sheet self.now) s dots.now }
        ensures { Says result (Entered (sheet self.now) s x self.now.s i) }
    {
        let d = self.dot(i);
        if d == 0 {
            return true;
        }
        let p = self.prod(i);
        self.states.firsts.grammar.symbol(p, d - 1) == x && dots[p].holds((d - 1) as u8)
    }

    // May the state s, whose dots are lent, have a transition on x into this one?
    pub fn entered(&self, s: usize, x: u8, dots: &[Terminals; 200]) -> bool
        requires { Dots (sheet self.now) s dots.now }
        ensures { Says result (Condition6At (sheet self.now) s x self.now.s) }
    {
        (0..self.n).all(|i| self.entered_at(i, s, x, dots))
    }
}
