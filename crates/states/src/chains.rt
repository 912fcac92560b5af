// Condition 7 of one state: each item with the dot at 0 is led to by a chain of items.
ghost use Rattle.definitions.specs.Sheet.{count};
ghost use Rattle.std.specs.Prelude.{◌<◌};
ghost use Rattle.theory.specs.Check.Says.{Says};
ghost use Rattle.states.specs.Gathering.{Exactly};
ghost use Rattle.states.specs.Chains.{Ready, Opens, Sound, Round, LedSet, Condition7At};
ghost use Rattle.states.specs.View.{sheet};

use crate::items::State;
use terminals::Terminals;

// ---- condition 7

impl<'a> State<'a> {
    // Is item i the first of a chain, or its left side in the set?
    fn ready(&self, i: usize, set: Terminals) -> bool
        requires { i < self.now.n }
        ensures { Says result (Ready (sheet self.now) self.now.s set.bits i) }
    {
        let p = self.prod(i);
        self.dot(i) > 0 || p == 0 || set.holds(self.states.firsts.grammar.left(p))
    }

    // The nonterminal after the dot of item i where it is ready, as a set.
    fn opens_at(&self, i: usize, set: Terminals) -> Terminals
        requires { i < self.now.n }
        ensures { Exactly result.bits (Opens (sheet self.now) self.now.s set.bits i) }
    {
        if self.ready(i, set) {
            self.nonterminal_after(i)
        } else {
            Terminals::EMPTY
        }
    }

    // The set with what a round over the items adds.
    fn led_round(&self, set: Terminals) -> Terminals
        requires { Sound (sheet self.now) self.now.s set.bits }
        ensures { let t = sheet self.now in Round t self.now.s set.bits (count t self.now.s) result.bits }
    {
        let mut more = set;
        for i in 0..self.n {
            more = more.join(self.opens_at(i, more));
        }
        more
    }

    // The nonterminals after the dots of the items to which a chain leads: rounds until one adds nothing.
    fn led(&self) -> Terminals
        ensures { LedSet (sheet self.now) self.now.s result.bits }
    {
        let mut set = Terminals::EMPTY;
        loop {
            let more = self.led_round(set);
            if more == set {
                return set;
            }
            set = more;
        }
    }

    // Condition 7 at the state: does a chain of its own items lead to every (p,0) with p > 0?
    pub fn chains_right(&self) -> bool
        ensures { Says result (Condition7At (sheet self.now) self.now.s) }
    {
        let set = self.led();
        (0..self.n).all(|i| self.ready(i, set))
    }
}
