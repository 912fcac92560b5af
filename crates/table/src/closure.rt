// Condition 2 of one state: what its items need of the items with the dot at 0, and whether these have it.
ghost use Rattle.std.specs.Prelude.{◌<◌};
ghost use Rattle.definitions.specs.Sheet.{P};
ghost use Rattle.theory.specs.Check.Says.{Says};
ghost use Rattle.states.specs.View.{sheet};
ghost use Rattle.states.specs.Gathering.{Puts};
ghost use Rattle.states.specs.Zeros.{Zeros};
ghost use Rattle.table.specs.Needs.{Need, Needs, Met, Condition2At};

use grammar::first;
use states::items::State;
use terminals::Terminals;

// ---- condition 2

// The nonterminal after the dot of item i, with what the item needs of its productions: FIRST of what follows, and then its set.
fn need_at(state: &State<'_>, i: usize) -> Option<(usize, Terminals)>
    requires { i < state.now.n }
    ensures { Puts 64 (Need (sheet state.now) state.now.s) i result }
{
    let m = state.nonterminal(i)?;
    let need = first::first_of(
        state.states.firsts,
        state.prod(i),
        state.dot(i) + 1,
        state.ahead(i),
    );
    Some((usize::from(m), need))
}

// What the items of the state need of the productions of each nonterminal.
fn needs_of(state: &State<'_>) -> [Terminals; 64]
    ensures { Needs (sheet state.now) state.now.s result }
{
    state.sort(|i| need_at(state, i))
}

// Has (q,0) what is needed of production q? An item that is not there has the empty set.
fn met(state: &State<'_>, q: usize, needs: &[Terminals; 64], zeros: &[Terminals; 200]) -> bool
    requires q_bound { q < P (sheet state.now) }
    requires needs { Needs (sheet state.now) state.now.s needs.now }
    requires zeros { Zeros (sheet state.now) state.now.s zeros.now }
    ensures { Says result (Met (sheet state.now) state.now.s q) }
{
    let m = usize::from(state.states.firsts.grammar.left(q));
    needs[m].within(zeros[q])
}

// Condition 2 at the state.
pub fn closed(state: &State<'_>) -> bool
    ensures { Says result (Condition2At (sheet state.now) state.now.s) }
{
    // without a nonterminal after a dot nothing is needed, and the arrays are not made
    if state.nonterminals() == Terminals::EMPTY {
        return true;
    }
    let needs = needs_of(state);
    let zeros = state.zeros();
    (0..state.states.firsts.grammar.count()).all(|q| met(state, q, &needs, &zeros))
}
