// The check of a whole table: condition 2 and the transitions of one state, the search over the states for a broken condition, and
// the answer on any lent bytes. What is built once, the grammar, FIRST and the places of the states, is reached from each state.
#![tactic(auto)]

ghost use Rattle.std.specs.Prelude.{◌≡◌, ◌≤◌, ◌<◌};
ghost use Rattle.definitions.specs.Sheet.{IsSymbol};
ghost use Rattle.definitions.specs.Grammar.{GrammarRules};
ghost use Rattle.theory.specs.Check.Says.{Says};
ghost use Rattle.theory.specs.Answers.{check};
ghost use Rattle.theory.specs.Demands.Calls.{Checks};
ghost use Rattle.states.specs.View.{sheet, sheet_of};
ghost use Rattle.states.specs.Weak.{Weak5};
ghost use Rattle.states.specs.Dots.{Dots};
ghost use Rattle.table.specs.Conditions.{condition};
ghost use Rattle.table.specs.Codes.{Tells, Moves, Into, Condition6From, Kept, BrokenAt};
ghost use Rattle.table.specs.Search.{Searched};
ghost use Rattle.table.specs.Answer.{number, Named};

use answers::Refusal;
use grammar::productions::Grammar;
use grammar::{first, rules};
use states::items::{State, States};
use terminals::Terminals;

// condition 2 of one state
mod closure;

// ---- the answer

// A state condition of document 01.
#[derive(Clone, Copy, PartialEq, Eq, Debug)]
pub enum Condition {
    // 1: how state 0 begins, and the items of production 0
    Start,
    // 2: for a nonterminal after a dot, the items (q,0) of its productions
    Closure,
    // 3: for a symbol after a dot, a transition to the item with its dot moved on
    Move,
    // 4: for a complete item, the action it asks for
    End,
    // 5: no other action or goto
    Only,
    // 6: the items that a transition enters come from items of the state that it leaves
    Entry,
    // 7: a chain of items leads to each item (q,0)
    Chain,
}

impl Condition {
    // Its number in the document.
    pub fn number(self) -> u8
        ensures is { result ≡ condition self }
        ensures first { 1 ≤ result }
        ensures last { result ≤ 7 }
    {
        match self {
            Condition::Start => 1,
            Condition::Closure => 2,
            Condition::Move => 3,
            Condition::End => 4,
            Condition::Only => 5,
            Condition::Entry => 6,
            Condition::Chain => 7,
        }
    }
}

// Why a table is refused.
#[derive(Clone, Copy, PartialEq, Eq, Debug)]
pub enum Broken {
    // 2: the sheet is not well laid out, or out of range
    Layout,
    // 3: the grammar breaks a rule
    Grammar,
    // 4: a state condition is broken; which of the seven, and at which state
    States(Condition, usize),
}

impl From<Broken> for Refusal {
    ghost use Rattle.table.specs.Refusals.{refusal};

    ghost from_gives = { λ b r. r ≡ refusal b };

    fn from(broken: Broken) -> Refusal {
        match broken {
            Broken::Layout => Refusal::Layout,
            Broken::Grammar => Refusal::Grammar,
            Broken::States(_, _) => Refusal::States,
        }
    }
}

// ---- conditions 5 and 6: the transitions of a state

// Where the state, whose dots are lent, has a transition on x: does it keep condition 6? Inlined, so that the action is read once.
#[inline(always)]
fn into_right(state: &State<'_>, x: u8, dots: &[Terminals; 200]) -> bool
    requires x_bound { IsSymbol (sheet state.now) x }
    requires dots { Dots (sheet state.now) state.now.s dots.now }
    ensures { Says result (Into (sheet state.now) state.now.s x) }
{
    match state.target(x) {
        Some(u) => state.states.state(u).entered(state.s, x, dots),
        None => true,
    }
}

// The transitions of the state, the actions and then the gotos.
fn moves_kept(state: &State<'_>) -> Result<(), Condition>
    ensures { Moves (Weak5 (sheet state.now) state.now.s) (Condition6From (sheet state.now) state.now.s) result }
{
    let t = state.states.firsts.grammar.sheet;
    let dots = state.dots();
    let shifts = state.terminals();
    let ended = state.done();
    for a in 0..sheet::terminals_of(t) {
        if !state.action_kept(a, shifts, ended) {
            return Err(Condition::Only);
        }
        if !into_right(state, a as u8, &dots) {
            return Err(Condition::Entry);
        }
    }
    let gotos = state.nonterminals();
    for m in 0..sheet::nonterminals_of(t) {
        if !state.goto_kept(m, gotos) {
            return Err(Condition::Only);
        }
        if !into_right(state, 128 + m as u8, &dots) {
            return Err(Condition::Entry);
        }
    }
    Ok(())
}

// ---- a state

// What is judged once of the state.
fn state_kept(state: &State<'_>) -> Result<(), Condition>
    requires { GrammarRules (sheet state.now) }
    ensures { Tells (Kept (sheet state.now) state.now.s) (BrokenAt (sheet state.now) state.now.s) result }
{
    if !state.first_right() {
        return Err(Condition::Start);
    }
    if !state.chains_right() {
        return Err(Condition::Chain);
    }
    if !closure::closed(state) {
        return Err(Condition::Closure);
    }
    moves_kept(state)
}

// ---- the search

// The search over states, items and lookaheads: it stops at the first broken condition found.
pub fn first_broken<'a>(states: &'a States<'a>) -> Result<(), Broken>
    requires { GrammarRules (sheet_of states.now) }
    ensures { Searched (sheet_of states.now) result }
{
    let t = states.firsts.grammar.sheet;
    'search: loop {
        for s in 0..sheet::states_of(t) {
            let state = states.state(s);
            if let Err(c) = state_kept(&state) {
                break 'search Err(Broken::States(c, s));
            }
            for i in 0..state.n {
                if !state.moves_on(i) {
                    break 'search Err(Broken::States(Condition::Move, s));
                }
                for a in 0..sheet::terminals_of(t) {
                    if !state.ahead_right(i, a) {
                        break 'search Err(Broken::States(Condition::End, s));
                    }
                }
            }
        }
        break 'search Ok(());
    }
}

// Is the table taken, and if not, which refusal is it?
pub fn check_table(table: &[u8]) -> Result<(), Broken>
    ensures result_value { number result ≡ check table.now }
    ensures checks { Checks table.now (number result) }
    ensures named { Named table.now result }
{
    if !layout::laid_out(table) {
        return Err(Broken::Layout);
    }
    let grammar = Grammar::new(table);
    if !rules::rules_kept(&grammar) {
        return Err(Broken::Grammar);
    }
    let firsts = first::firsts(&grammar);
    let states = States::new(&firsts);
    first_broken(&states)
}
