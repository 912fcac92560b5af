// The nonterminals that derive some string of terminals, and those that derive the empty string: one search by rounds, in which a
// terminal passes or not. A round that adds nothing is the last.
ghost use Rattle.std.specs.Prelude.{◌↔◌, ℕ, ◌+◌, ◌<◌};
ghost use Rattle.definitions.specs.Sheet.{P};
ghost use Rattle.definitions.specs.States.{Holds};
ghost use Rattle.definitions.specs.Grammar.{Derives};
ghost use Rattle.theory.specs.Check.Says.{Says};
ghost use Rattle.grammar.specs.Least.{Passes, Ready, Least, Round, Nulls};

use crate::productions::Grammar;
use terminals::Terminals;

// Does the symbol x pass: a terminal where `tokens`, a nonterminal where it is in the set? `tokens` is the answer for every terminal,
// so it picks no step.
pub fn passes(set: Terminals, tokens: bool, x: u8) -> bool
    requires { x < 192 }
    ensures { Says result (Passes tokens set.bits x) }
{
    if x < 128 { tokens } else { set.holds(x - 128) }
}

// Does every symbol of production p pass?
fn ready(grammar: &Grammar<'_>, set: Terminals, tokens: bool, p: usize) -> bool
    requires { p < P grammar.now.sheet.now }
    ensures { Says result (Ready grammar.now.sheet.now tokens set.bits p) }
{
    grammar.right(p).iter().all(|x| passes(set, tokens, *x))
}

// The set with the left side of production p, where every symbol of it passes.
fn grown(grammar: &Grammar<'_>, set: Terminals, tokens: bool, p: usize) -> Terminals
    requires { p < P grammar.now.sheet.now }
    ensures { Round grammar.now.sheet.now tokens p (p + 1) set.bits result.bits }
{
    let n = grammar.left(p);
    if !set.holds(n) && ready(grammar, set, tokens, p) {
        set.join(Terminals::one(n))
    } else {
        set
    }
}

// One round: the set grown by each production in turn.
fn round(grammar: &Grammar<'_>, set: Terminals, tokens: bool) -> Terminals
    ensures { Round grammar.now.sheet.now tokens 0 (P grammar.now.sheet.now) set.bits result.bits }
{
    let mut next = set;
    for p in 0..grammar.count() {
        next = grown(grammar, next, tokens, p);
    }
    next
}

// The least set that holds each left side of a production whose symbols all pass.
fn least(grammar: &Grammar<'_>, tokens: bool) -> Terminals
    ensures { (n : ℕ) → Holds result.bits n ↔ Least grammar.now.sheet.now tokens n }
{
    let mut set = Terminals::EMPTY;
    loop {
        let next = round(grammar, set, tokens);
        if next == set {
            return set;
        }
        set = next;
    }
}

// The nonterminals that derive some string of terminals.
pub fn productive(grammar: &Grammar<'_>) -> Terminals
    ensures { (n : ℕ) → Holds result.bits n ↔ Derives grammar.now.sheet.now n }
{
    least(grammar, true)
}

// The nonterminals that derive the empty string.
pub fn nullable(grammar: &Grammar<'_>) -> Terminals
    ensures { Nulls grammar.now.sheet.now result.bits }
{
    least(grammar, false)
}
