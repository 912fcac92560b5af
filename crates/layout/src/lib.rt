// Is a lent run of bytes a table sheet that is well laid out and in range? `laid_out` answers exactly that, of any bytes: each
// function tests one part of the definitions' `Layout`, and none reads past the end.
#![tactic(auto)]

ghost use Rattle.std.specs.Prelude.{◌≡◌, List, ℕ, ◌+◌, ◌*◌, ◌^◌, ◌≤◌, ◌<◌, length};
ghost use Rattle.definitions.specs.Sheet.{T, N, P, S, items_at, state_at, item_at, Head, IsSymbol, IsAction, IsGoto, Production, Item, Rises, State, Layout};
ghost use Rattle.theory.specs.Check.Says.{Says};
ghost use Rattle.layout.specs.Parts.{Placed, Productions, Actions, Gotos, Known, Fits, States};

// ---- the head

// Is there room for all that stands before the first state?
fn head_fits(t: &[u8]) -> bool
    ensures { Says result (items_at t.now ≤ length t.now) }
{
    t.len() >= 9 && sheet::items_at(t) <= t.len()
}

// Is the head right: its letters, its version, and the four counts?
fn head_right(t: &[u8]) -> bool
    requires { 9 ≤ length t.now }
    ensures { Says result (Head t.now) }
{
    t.starts_with(b"LRT")
        && sheet::word(t, 3) == 1
        && (1..=64).contains(&sheet::terminals_of(t))
        && (2..=64).contains(&sheet::nonterminals_of(t))
        && (2..=200).contains(&sheet::productions_of(t))
        && (2..=200).contains(&sheet::states_of(t))
}

// ---- the productions

// Is x a symbol: a terminal, or 128 + a nonterminal?
fn is_symbol(x: usize, terminals: usize, nonterminals: usize) -> bool
    requires { nonterminals < 256 }
    ensures { (t : List ℕ) → T t ≡ terminals → N t ≡ nonterminals → Says result (IsSymbol t x) }
{
    x < terminals || (128..128 + nonterminals).contains(&x)
}

// Is x right as symbol k of a right side of n?
fn symbol_right(x: usize, k: usize, n: usize, terminals: usize, nonterminals: usize) -> bool
    requires { nonterminals < 256 }
    ensures { (t : List ℕ) → T t ≡ terminals → N t ≡ nonterminals → Says result (Placed t x k n) }
{
    if k < n {
        is_symbol(x, terminals, nonterminals)
    } else {
        x == 0
    }
}

// Is production p right?
fn production_right(t: &[u8], p: usize, terminals: usize, nonterminals: usize) -> bool
    requires { (9 + 10 * p + 10 ≤ length t.now) × (T t.now ≡ terminals) × (N t.now ≡ nonterminals) × (nonterminals < 256) }
    ensures { Says result (Production t.now p) }
{
    let n = usize::from(sheet::len(t, p));
    usize::from(sheet::left(t, p)) < nonterminals
        && n <= 8
        && (0..8).all(|k| symbol_right(
            usize::from(sheet::symbol(t, p, k)),
            k,
            n,
            terminals,
            nonterminals,
        ))
}

// Are all productions right?
fn productions_right(t: &[u8]) -> bool
    requires { items_at t.now ≤ length t.now }
    ensures { Says result (Productions t.now) }
{
    let terminals = sheet::terminals_of(t);
    let nonterminals = sheet::nonterminals_of(t);
    (0..sheet::productions_of(t)).all(|p| production_right(t, p, terminals, nonterminals))
}

// ---- the actions and the gotos

// Is w an action word: error, accept, a shift to a state, or a reduction by a production, that exists?
fn is_action(w: u32, states: u32, productions: u32) -> bool
    requires { (states < 256) × (productions < 256) }
    ensures { (t : List ℕ) → S t ≡ states → P t ≡ productions → Says result (IsAction t w) }
{
    w <= 1 || (256..256 + states).contains(&w) || (512..512 + productions).contains(&w)
}

// Are all action words right? They are one run, by state and terminal. The loop stays, for speed: it is compiled to tests of several words
// at once, and with `all`, which stops early, here and for the gotos the check of tables/large.lrt takes 5 % more instructions.
fn actions_right(t: &[u8]) -> bool
    requires { items_at t.now ≤ length t.now }
    ensures { Says result (Actions t.now) }
{
    let states = sheet::states_of(t) as u32;
    let productions = sheet::productions_of(t) as u32;
    let at = sheet::actions_at(t);
    let words = (sheet::gotos_at(t) - at) / 2;
    let mut ok = true;
    for k in 0..words {
        ok &= is_action(sheet::word(t, at + 2 * k), states, productions);
    }
    ok
}

// Is g a goto byte: a state that exists, or 255?
fn is_goto(g: u8, states: u8) -> bool
    ensures { (t : List ℕ) → S t ≡ states → Says result (IsGoto t g) }
{
    g < states || g == 255
}

// Are all goto bytes right? They are one run, by state and nonterminal. The loop stays, for the speed told at the actions.
fn gotos_right(t: &[u8]) -> bool
    requires { items_at t.now ≤ length t.now }
    ensures { Says result (Gotos t.now) }
{
    let states = t[8];
    let at = sheet::gotos_at(t);
    let bytes = sheet::items_at(t) - at;
    let mut ok = true;
    for k in 0..bytes {
        ok &= is_goto(sheet::byte(t, at + k), states);
    }
    ok
}

// ---- the states' items

// The set of all terminals, the largest number that a set may be.
fn all_terminals(terminals: usize) -> u64
    requires { terminals ≤ 64 }
    ensures { result + 1 ≡ 2 ^ terminals }
{
    if terminals < 64 {
        (1 << terminals) - 1
    } else {
        u64::MAX
    }
}

// Is x one of 1..all, so not empty and of terminals that exist?
fn is_set(x: u64, all: u64) -> bool
    ensures { Says result ((1 ≤ x) × (x < all + 1)) }
{
    (1..=all).contains(&x)
}

// Does the item at place `at` come before the next one, by production and dot?
fn rises(t: &[u8], at: usize) -> bool
    requires { at + 20 ≤ length t.now }
    ensures { (s i : ℕ) → at ≡ item_at t.now s i → Says result (Rises t.now s i) }
{
    sheet::word(t, at) < sheet::word(t, at + 10)
}

// Has the state at place `at` items, do they stand within the sheet, and are they, with so many before them, not too many?
fn state_fits(t: &[u8], at: usize, passed: usize) -> bool
    requires { (at ≤ length t.now) × (passed ≤ 2400) }
    ensures { Says result (Fits t.now at passed) }
{
    let left = t.len() - at;
    if left < 2 {
        return false;
    }
    let n = sheet::count(t, at);
    n >= 1 && passed + n <= 2400 && 2 + 10 * n <= left
}

// A sheet with all that stands before its states, and what the walk over them asks of it: how many productions there are, and the largest
// set of terminals.
#[derive(Clone, Copy)]
struct Walk<'a> {
    t: &'a [u8],
    productions: usize,
    all: u64,
    ghost known: { Known t.now productions all },
}

impl<'a> Walk<'a> {
    // Is the item at place `at` right?
    fn item_right(&self, at: usize) -> bool
        requires { at + 10 ≤ length self.now.t.now }
        ensures { (s i : ℕ) → at ≡ item_at self.now.t.now s i → Says result (Item self.now.t.now s i) }
    {
        let p = usize::from(sheet::prod(self.t, at));
        p < self.productions
            && sheet::dot(self.t, at) <= sheet::len(self.t, p)
            && is_set(sheet::eight(self.t, at + 2), self.all)
    }

    // Is item i + 1 of the state at place `at` right, and does it come after item i?
    fn next_right(&self, at: usize, i: usize) -> bool
        requires { at + (2 + 10 * i) + 20 ≤ length self.now.t.now }
        ensures { (s : ℕ) → at ≡ state_at self.now.t.now s → Says result (Item self.now.t.now s (i + 1) × Rises self.now.t.now s i) }
    {
        let item = at + (2 + 10 * i);
        self.item_right(item + 10) && rises(self.t, item)
    }

    // Are the items of the state at place `at` right, and do they rise?
    fn items_right(&self, at: usize) -> bool
        requires { Fits self.now.t.now at 0 }
        ensures { (s : ℕ) → at ≡ state_at self.now.t.now s → Says result (State self.now.t.now s) }
    {
        let others = sheet::count(self.t, at) - 1;
        self.item_right(at + 2) && (0..others).all(|i| self.next_right(at, i))
    }

    // Does the state at place `at` fit, and is it right?
    fn state_right(&self, at: usize, passed: usize) -> bool
        requires { (at ≤ length self.now.t.now) × (passed ≤ 2400) }
        ensures { (s : ℕ) → at ≡ state_at self.now.t.now s → Says result (Fits self.now.t.now at passed × State self.now.t.now s) }
    {
        state_fits(self.t, at, passed) && self.items_right(at)
    }
}

// Are all states right, and does nothing follow them? One walk, which stops where a state passes the end or the items are too many.
fn states_right(t: &[u8]) -> bool
    requires { Head t.now × (items_at t.now ≤ length t.now) }
    ensures { Says result (States t.now) }
{
    let walk = Walk {
        t,
        productions: sheet::productions_of(t),
        all: all_terminals(sheet::terminals_of(t)),
    };
    let mut at = sheet::items_at(t);
    let mut passed: usize = 0;
    for s in 0..sheet::states_of(t) {
        if !walk.state_right(at, passed) {
            return false;
        }
        passed += sheet::count(t, at);
        at = sheet::next_state(t, at);
    }
    at == t.len()
}

// ---- the whole

// Is the sheet well laid out and in range?
pub fn laid_out(t: &[u8]) -> bool
    ensures { Says result (Layout t.now) }
{
    head_fits(t)
        && head_right(t)
        && productions_right(t)
        && actions_right(t)
        && gotos_right(t)
        && states_right(t)
}
