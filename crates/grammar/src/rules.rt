// Document 01's grammar rules: whether the grammar of a sheet well laid out keeps them.
ghost use Rattle.std.specs.Prelude.{◌↔◌, ℕ, ◌≤◌, ◌<◌};
ghost use Rattle.definitions.specs.Sheet.{P};
ghost use Rattle.definitions.specs.States.{Holds};
ghost use Rattle.definitions.specs.Grammar.{GrammarRules};
ghost use Rattle.theory.specs.Check.Says.{Says};
ghost use Rattle.grammar.specs.Rules.{Inside, Only, Each, Top};

use crate::least;
use crate::productions::Grammar;
use terminals::Terminals;

// Is no symbol of production p the end mark, nor nonterminal 0?
fn inside_kept(grammar: &Grammar<'_>, p: usize) -> bool
    requires { p < P grammar.now.sheet.now }
    ensures { Says result (Inside grammar.now.sheet.now p) }
{
    grammar.right(p).iter().all(|x| *x % 128 != 0)
}

// Is production p production 0, if its left side is nonterminal 0?
fn only_kept(grammar: &Grammar<'_>, p: usize) -> bool
    requires { p < P grammar.now.sheet.now }
    ensures { Says result (Only grammar.now.sheet.now p) }
{
    p == 0 || grammar.left(p) != 0
}

// Does every production keep both rules?
fn each_kept(grammar: &Grammar<'_>) -> bool
    ensures { Says result (Each grammar.now.sheet.now) }
{
    (0..grammar.count()).all(|p| inside_kept(grammar, p) && only_kept(grammar, p))
}

// Has production 0 left side 0, length 1 and a nonterminal?
fn top_kept(grammar: &Grammar<'_>) -> bool
    ensures { Says result (Top grammar.now.sheet.now) }
{
    grammar.left(0) == 0 && grammar.len(0) == 1 && grammar.symbol(0, 0) >= 128
}

// The set of all below n: 64 ones without the last 64 - n.
fn all_below(n: usize) -> Terminals
    requires { (1 ≤ n) × (n ≤ 64) }
    ensures { (b : ℕ) → Holds result.bits b ↔ (b < n) }
{
    Terminals::from(u64::MAX >> (64 - n))
}

// Does the grammar keep the rules?
pub fn rules_kept(grammar: &Grammar<'_>) -> bool
    ensures { Says result (GrammarRules grammar.now.sheet.now) }
{
    top_kept(grammar)
        && each_kept(grammar)
        && all_below(sheet::nonterminals_of(grammar.sheet)).within(least::productive(grammar))
}
