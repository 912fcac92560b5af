// FIRST: of each nonterminal, found by rounds in place until one changes nothing; and of the symbols after a dot and then a set.
ghost use Rattle.std.specs.Prelude.{◌≡◌, ◌↔◌, ℕ, ◌+◌, ◌^◌, ◌≤◌, ◌<◌};
ghost use Rattle.definitions.specs.Sheet.{T, P, len};
ghost use Rattle.definitions.specs.States.{Holds};
ghost use Rattle.grammar.specs.Productions.{Small};
ghost use Rattle.grammar.specs.Least.{Nulls};
ghost use Rattle.grammar.specs.First.{Starts, Gathers, Turn, Firsts, FirstOf};

use crate::least;
use crate::productions::Grammar;
use terminals::Terminals;

// A grammar with its nullable nonterminals, and FIRST of each nonterminal.
#[derive(Drop)]
pub struct FirstSets<'a> {
    pub grammar: &'a Grammar<'a>,
    pub nullable: Terminals,
    pub sets: [Terminals; 64],
    ghost nulls: { ∥ Nulls grammar.now.sheet.now nullable.bits ∥₁ },
    ghost firsts: { ∥ Firsts grammar.now.sheet.now sets ∥₁ },
}

// What the rounds go by: a grammar, and its nullable nonterminals.
#[derive(Clone, Copy)]
struct Rounds<'a> {
    grammar: &'a Grammar<'a>,
    nullable: Terminals,
    ghost nulls: { ∥ Nulls grammar.now.sheet.now nullable.bits ∥₁ },
}

// The terminals that a string of the symbol x can begin with, as far as the sets of the nonterminals say.
fn starts(sets: &[Terminals; 64], x: u8) -> Terminals
    requires { Small x }
    ensures { (b : ℕ) → Holds result.bits b ↔ Starts sets.now b x }
{
    if x < 128 {
        Terminals::one(x)
    } else {
        sets[usize::from(x - 128)]
    }
}

impl Rounds<'_> {
    // The same of the symbols of production p from place d on, and then the set.
    fn gather(&self, sets: &[Terminals; 64], p: usize, d: usize, set: Terminals) -> Terminals
        requires { (p < P self.now.grammar.now.sheet.now) × (d ≤ len self.now.grammar.now.sheet.now p) }
        ensures { Gathers self.now.grammar.now.sheet.now sets.now p d set.bits result.bits }
    {
        let mut r = Terminals::EMPTY;
        for x in &self.grammar.right(p)[d..] {
            r = r.join(starts(sets, *x));
            if !least::passes(self.nullable, false, *x) {
                return r;
            }
        }
        r.join(set)
    }

    // The left side of production p is given what its right side can begin with. Was there anything new?
    fn turn(&self, sets: &mut [Terminals; 64], p: usize) -> bool
        requires { p < P self.now.grammar.now.sheet.now }
        ensures { Turn self.now.grammar.now.sheet.now p (p + 1) sets.old sets.new result }
    {
        let n = usize::from(self.grammar.left(p));
        let old = sets[n];
        let new = old.join(self.gather(sets, p, 0, Terminals::EMPTY));
        if new == old {
            return false;
        }
        sets[n] = new;
        true
    }

    // One round over the productions. Was there anything new?
    fn round(&self, sets: &mut [Terminals; 64]) -> bool
        ensures { Turn self.now.grammar.now.sheet.now 0 (P self.now.grammar.now.sheet.now) sets.old sets.new result }
    {
        let mut more = false;
        for p in 0..self.grammar.count() {
            if self.turn(sets, p) {
                more = true;
            }
        }
        more
    }
}

// FIRST of every nonterminal: the set of the terminals that a string of it can begin with.
pub fn firsts<'a>(grammar: &'a Grammar<'a>) -> FirstSets<'a>
    ensures { result.grammar.now.sheet.now ≡ grammar.now.sheet.now }
{
    let nullable = least::nullable(grammar);
    let rounds = Rounds { grammar, nullable };
    let mut sets = [Terminals::EMPTY; 64];
    while rounds.round(&mut sets) {}
    FirstSets {
        grammar,
        nullable,
        sets,
    }
}

// FIRST of the symbols of production p from place d on and then the lookaheads of a set that is not empty.
pub fn first_of(firsts: &FirstSets<'_>, p: usize, d: usize, set: Terminals) -> Terminals
    requires p_bound { (p < P firsts.now.grammar.now.sheet.now) × (d ≤ len firsts.now.grammar.now.sheet.now p) }
    requires le_bits { (1 ≤ set.bits) × (set.bits < 2 ^ T firsts.now.grammar.now.sheet.now) }
    ensures { FirstOf firsts.now.grammar.now.sheet.now p d set.bits result.bits }
{
    let rounds = Rounds {
        grammar: firsts.grammar,
        nullable: firsts.nullable,
    };
    rounds.gather(&firsts.sets, p, d, set)
}
