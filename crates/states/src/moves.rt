// Conditions 3 to 5 of one state: where its items lead, what complete ones ask for, and that no other action or goto is there.
ghost use Rattle.std.specs.Prelude.{◌≡◌, ℕ, ◌+◌, ◌≤◌, ◌<◌};
ghost use Rattle.definitions.specs.Sheet.{T, N, count};
ghost use Rattle.theory.specs.Check.Says.{Says};
ghost use Rattle.states.specs.Items.{Covers, Asks, Condition3At, Condition4At};
ghost use Rattle.states.specs.Gathering.{Exactly, Among, AfterTerminal, AfterNonterminal, Done};
ghost use Rattle.states.specs.Weak.{WeakAction, WeakGoto};
ghost use Rattle.states.specs.View.{sheet};

use crate::items;
use crate::items::State;
use terminals::Terminals;

// The action that a complete item of production p asks for: to accept for p = 0, else to reduce by p.
fn asked(p: usize) -> u32
    requires { p < 200 }
    ensures { Asks p result }
{
    if p == 0 { 1 } else { 512 + p as u32 }
}

impl<'a> State<'a> {
    // ---- condition 3

    // Is (p,d) in the state with all that the set holds?
    fn covers(&self, p: usize, d: usize, set: Terminals) -> bool
        requires { (p < 200) × (d < 16) × (1 ≤ set.bits) }
        ensures { Says result (Covers (sheet self.now) self.now.s p d set.bits) }
    {
        match self.find(p, d) {
            Some(j) => set.within(self.ahead(j)),
            None => false,
        }
    }

    // Where X stands after the dot of item i: is there a transition on X, whose target has the item with its dot moved on, and its set?
    pub fn moves_on(&self, i: usize) -> bool
        requires { i < self.now.n }
        ensures { Says result (Condition3At (sheet self.now) self.now.s i) }
    {
        let Some(x) = self.after(i) else {
            return true;
        };
        let Some(u) = self.target(x) else {
            return false;
        };
        let next = self.states.state(u);
        next.covers(self.prod(i), self.dot(i) + 1, self.ahead(i))
    }

    // ---- condition 4

    // Where item i is complete and holds a: is the action on a the one it asks for?
    pub fn ahead_right(&self, i: usize, a: usize) -> bool
        requires { (i < self.now.n) × (a < T (sheet self.now)) }
        ensures { Says result (Condition4At (sheet self.now) self.now.s i a) }
    {
        if !self.complete(i) || !self.ahead(i).holds(a as u8) {
            return true;
        }
        sheet::action(self.states.firsts.grammar.sheet, self.s, a) == asked(self.prod(i))
    }

    // ---- the sets that condition 5 goes by

    // The terminal after the dot of item i, as a set.
    fn terminal_after(&self, i: usize) -> Terminals
        requires { i < self.now.n }
        ensures { Exactly result.bits (AfterTerminal (sheet self.now) self.now.s i) }
    {
        match self.after(i) {
            Some(x) if x < 128 => Terminals::one(x),
            _ => Terminals::EMPTY,
        }
    }

    // The nonterminal after it, as a set.
    pub fn nonterminal_after(&self, i: usize) -> Terminals
        requires { i < self.now.n }
        ensures { Exactly result.bits (AfterNonterminal (sheet self.now) self.now.s i) }
    {
        match self.nonterminal(i) {
            Some(m) => Terminals::one(m),
            None => Terminals::EMPTY,
        }
    }

    // The set of item i where it is complete, else none.
    fn done_at(&self, i: usize) -> Terminals
        requires { i < self.now.n }
        ensures { Exactly result.bits (Done (sheet self.now) self.now.s i) }
    {
        if self.complete(i) {
            self.ahead(i)
        } else {
            Terminals::EMPTY
        }
    }

    // The terminals that stand after the dots.
    pub fn terminals(&self) -> Terminals
        ensures { let t = sheet self.now in Exactly result.bits (Among (AfterTerminal t self.now.s) (count t self.now.s)) }
    {
        self.gather(|i| self.terminal_after(i))
    }

    // The nonterminals that stand after the dots.
    pub fn nonterminals(&self) -> Terminals
        ensures { let t = sheet self.now in Exactly result.bits (Among (AfterNonterminal t self.now.s) (count t self.now.s)) }
    {
        self.gather(|i| self.nonterminal_after(i))
    }

    // What the complete items look ahead to.
    pub fn done(&self) -> Terminals
        ensures { let t = sheet self.now in Exactly result.bits (Among (Done t self.now.s) (count t self.now.s)) }
    {
        self.gather(|i| self.done_at(i))
    }

    // ---- condition 5

    // A shift on a stands only where a is after a dot, an accept or a reduce only where a complete item looks ahead to a.
    pub fn action_kept(&self, a: usize, afters: Terminals, ended: Terminals) -> bool
        requires a_bound { a < T (sheet self.now) }
        requires afters { let t = sheet self.now in Exactly afters.bits (Among (AfterTerminal t self.now.s) (count t self.now.s)) }
        requires ended { let t = sheet self.now in Exactly ended.bits (Among (Done t self.now.s) (count t self.now.s)) }
        ensures { Says result (WeakAction (sheet self.now) self.now.s a) }
    {
        let w = sheet::action(self.states.firsts.grammar.sheet, self.s, a);
        if w == 0 {
            return true;
        }
        match items::shift_of(w) {
            Some(_) => afters.holds(a as u8),
            None => ended.holds(a as u8),
        }
    }

    // A goto on nonterminal m stands only where m is after a dot.
    pub fn goto_kept(&self, m: usize, afters: Terminals) -> bool
        requires m_bound { m < N (sheet self.now) }
        requires afters { let t = sheet self.now in Exactly afters.bits (Among (AfterNonterminal t self.now.s) (count t self.now.s)) }
        ensures { Says result (WeakGoto (sheet self.now) self.now.s m) }
    {
        sheet::goto_byte(self.states.firsts.grammar.sheet, self.s, m) == 255
            || afters.holds(m as u8)
    }
}
