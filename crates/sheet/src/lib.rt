// The lent table sheet, read where it stands: each function answers what the definitions say of the sheet's bytes, and asks only
// that the place lies within the sheet. That the places of a sheet well laid out do is said in specs/Within.antt.
#![tactic(auto)]

ghost use Rattle.std.specs.Prelude.{◌≡◌, ◌+◌, ◌*◌, ◌≤◌, ◌<◌, length};
ghost use Rattle.definitions.specs.Sheet.{byte, word, eight, T, N, P, S, left, len, symbol, actions_at, gotos_at, items_at, action, goto};
ghost use Rattle.sheet.specs.Places.{action_at, goto_at};

use terminals::Terminals;

// ---- one byte, two and eight, high first

// The byte at place i.
pub fn byte(t: &[u8], i: usize) -> u8
    requires { i < length t.now }
    ensures { result ≡ byte t.now i }
{
    t[i]
}

// The two bytes at place i.
pub fn word(t: &[u8], i: usize) -> u32
    requires { i + 2 ≤ length t.now }
    ensures { (result ≡ word t.now i) × (result < 65536) }
{
    u32::from(u16::from_be_bytes([t[i], t[i + 1]]))
}

// The eight bytes at place i. So written they are compiled to one load.
pub fn eight(t: &[u8], i: usize) -> u64
    requires { i + 8 ≤ length t.now }
    ensures { result ≡ eight t.now i }
{
    u64::from_be_bytes([
        t[i],
        t[i + 1],
        t[i + 2],
        t[i + 3],
        t[i + 4],
        t[i + 5],
        t[i + 6],
        t[i + 7],
    ])
}

// ---- the head. Here and below each part has a function by its own name: one function that takes the place would say less

// How many terminals the table has.
pub fn terminals_of(t: &[u8]) -> usize
    requires { 9 ≤ length t.now }
    ensures { (result ≡ T t.now) × (result < 256) }
{
    usize::from(t[5])
}

// How many nonterminals it has.
pub fn nonterminals_of(t: &[u8]) -> usize
    requires { 9 ≤ length t.now }
    ensures { (result ≡ N t.now) × (result < 256) }
{
    usize::from(t[6])
}

// How many productions it has.
pub fn productions_of(t: &[u8]) -> usize
    requires { 9 ≤ length t.now }
    ensures { (result ≡ P t.now) × (result < 256) }
{
    usize::from(t[7])
}

// How many states it has.
pub fn states_of(t: &[u8]) -> usize
    requires { 9 ≤ length t.now }
    ensures { (result ≡ S t.now) × (result < 256) }
{
    usize::from(t[8])
}

// ---- productions

// The left side of production p, a nonterminal.
pub fn left(t: &[u8], p: usize) -> u8
    requires { 9 + 10 * p + 10 ≤ length t.now }
    ensures { result ≡ left t.now p }
{
    t[9 + 10 * p]
}

// The length of its right side.
pub fn len(t: &[u8], p: usize) -> u8
    requires { 9 + 10 * p + 10 ≤ length t.now }
    ensures { result ≡ len t.now p }
{
    t[10 + 10 * p]
}

// Symbol k of its right side, as document 01's sheet has it: a terminal, or 128 + a nonterminal.
pub fn symbol(t: &[u8], p: usize, k: usize) -> u8
    requires { (9 + 10 * p + 10 ≤ length t.now) × (k < 8) }
    ensures { result ≡ symbol t.now p k }
{
    t[11 + 10 * p + k]
}

// ---- where the actions, the gotos and the items start

// Where the action words start, by state and terminal.
pub fn actions_at(t: &[u8]) -> usize
    requires { 9 ≤ length t.now }
    ensures { (result ≡ actions_at t.now) × (result < 2560) }
{
    9 + 10 * productions_of(t)
}

// The product of two counts.
fn product(m: usize, n: usize) -> usize
    requires { (m < 256) × (n < 256) }
    ensures { (result ≡ m * n) × (result < 65536) }
{
    m * n
}

// Where the goto bytes start, by state and nonterminal.
pub fn gotos_at(t: &[u8]) -> usize
    requires { 9 ≤ length t.now }
    ensures { (result ≡ gotos_at t.now) × (result < 133632) }
{
    actions_at(t) + 2 * product(states_of(t), terminals_of(t))
}

// Where state 0 stands; `next_state` goes on from there.
pub fn items_at(t: &[u8]) -> usize
    requires { 9 ≤ length t.now }
    ensures { (result ≡ items_at t.now) × (result < 199168) }
{
    gotos_at(t) + product(states_of(t), nonterminals_of(t))
}

// ---- actions and gotos

// The action word of state s on terminal a, as document 01's sheet has it: 0 error, 1 accept, 256 + s shift to s, 512 + p reduce by p.
pub fn action(t: &[u8], s: usize, a: usize) -> u32
    requires { action_at t.now s a + 2 ≤ length t.now }
    ensures { (result ≡ action t.now s a) × (result < 65536) }
{
    word(t, actions_at(t) + 2 * (s * terminals_of(t) + a))
}

// The goto byte of state s on nonterminal n, as document 01's sheet has it: a state, or 255 for none.
pub fn goto_byte(t: &[u8], s: usize, n: usize) -> u8
    requires { goto_at t.now s n + 1 ≤ length t.now }
    ensures { result ≡ goto t.now s n }
{
    byte(t, gotos_at(t) + (s * nonterminals_of(t) + n))
}

// ---- states and items, by their places

// How many items the state at place `at` has.
pub fn count(t: &[u8], at: usize) -> usize
    requires { at + 2 ≤ length t.now }
    ensures { (result ≡ word t.now at) × (result < 65536) }
{
    word(t, at) as usize
}

// Where the state after the one at place `at` stands.
pub fn next_state(t: &[u8], at: usize) -> usize
    requires { at + 2 ≤ length t.now }
    ensures { result ≡ at + (2 + 10 * word t.now at) }
{
    at + (2 + 10 * count(t, at))
}

// The production of the item at place `at`.
pub fn prod(t: &[u8], at: usize) -> u8
    requires { at + 10 ≤ length t.now }
    ensures { result ≡ byte t.now at }
{
    t[at]
}

// Its dot.
pub fn dot(t: &[u8], at: usize) -> u8
    requires { at + 10 ≤ length t.now }
    ensures { result ≡ byte t.now (at + 1) }
{
    t[at + 1]
}

// Its set of lookahead terminals.
pub fn ahead(t: &[u8], at: usize) -> Terminals
    requires { at + 10 ≤ length t.now }
    ensures { result.bits ≡ eight t.now (at + 2) }
{
    Terminals::from(eight(t, at + 2))
}
