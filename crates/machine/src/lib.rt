// The machine of document 01 over a lent working room: the table's actions and gotos, a record put on, pieces taken off by their
// sizes, a shift, a reduction, and the wiping of the room. specs/Room.antt says how the room holds the stack.
#![tactic(auto)]

ghost use Rattle.std.specs.Prelude.{◌≡◌, ◌+◌, ◌-◌, ◌*◌, ◌≤◌, ◌<◌, length, drop};
ghost use Rattle.definitions.specs.Sheet.{P, Layout};
ghost use Rattle.definitions.specs.Table.{act_of, goto_of, table_of};
ghost use Rattle.definitions.specs.Tree.{Row, mk, ∅};
ghost use Rattle.definitions.specs.Reading.{leaf, Stack, bot, push, top, pop, settle};
ghost use Rattle.definitions.specs.Moves.{turn};
ghost use Rattle.definitions.specs.Answers.{cleared};
ghost use Rattle.machine.specs.Lookups.{act_is, goto_is};
ghost use Rattle.machine.specs.Room.{Holds, put, states_end};
ghost use Rattle.machine.specs.Back.{Backs, Lands};
ghost use Rattle.machine.specs.Steps.{Stands, Did, Takes};

// ---- the room's layout: 0 to 6,143 the records of the nodes held, three words each; 6,144 to 8,192 the state after the first p nodes
// Document 01 has the room lent as words, so records and states are parts of one row and no arrays of structs.

// How many nodes may be held.
pub const NODES: usize = 2048;

// Where the states start.
pub const STATES: usize = 6144;

// The first word past the states: from there on the room is free for a caller's own.
pub const FREE: usize = 8193;

// How many words a reading may use; all are 0 after it.
pub const ROOM: usize = 16384;

// ---- the table's moves

// An action: the state that a shift leads to, the production that a reduction is by.
#[derive(Clone, Copy, PartialEq, Eq, Debug)]
pub enum Act {
    Error,
    Accept,
    Shift(u32),
    Reduce(u32),
}

impl From<u32> for Act {
    ghost from_gives = { λ w r. act_is r ≡ act_of w };

    // What an action word says.
    fn from(w: u32) -> Act {
        match w {
            1 => Act::Accept,
            256..512 => Act::Shift(w - 256),
            512.. => Act::Reduce(w - 512),
            _ => Act::Error,
        }
    }
}

// The action of state s on terminal a: error beyond the table's states and terminals.
pub fn act_of(t: &[u8], s: usize, a: usize) -> Act
    requires { Layout t.now }
    ensures { act_is result ≡ (table_of t.now).act s a }
{
    if s >= sheet::states_of(t) || a >= sheet::terminals_of(t) {
        return Act::Error;
    }
    Act::from(sheet::action(t, s, a))
}

// The goto of state s on nonterminal n: none beyond the table's states and nonterminals.
// One function for this and act_of would take their four readings of the sheet as closures, and be longer than the two.
pub fn goto_of(t: &[u8], s: usize, n: usize) -> Option<u32>
    requires { Layout t.now }
    ensures { goto_is result ≡ (table_of t.now).goto s n }
{
    if s >= sheet::states_of(t) || n >= sheet::nonterminals_of(t) {
        return None;
    }
    led(sheet::goto_byte(t, s, n))
}

// What a goto byte says.
fn led(g: u8) -> Option<u32>
    ensures { goto_is result ≡ goto_of g }
{
    if g == 255 { None } else { Some(u32::from(g)) }
}

// The left side of production p.
pub fn left_of(t: &[u8], p: usize) -> usize
    requires { Layout t.now × (p < P t.now) }
    ensures { result ≡ (table_of t.now).lhs p }
{
    usize::from(sheet::left(t, p))
}

// The length of its right side.
pub fn length_of(t: &[u8], p: usize) -> usize
    requires { Layout t.now × (p < P t.now) }
    ensures { result ≡ length ((table_of t.now).rhs p) }
{
    usize::from(sheet::len(t, p))
}

// ---- the stack

// The empty stack: the state after no nodes is 0.
pub fn begin(room: &mut [u32; ROOM])
    ensures holds { Holds room.new 0 bot }
    ensures room_unchanged { drop states_end room.new ≡ drop states_end room.old }
{
    room[STATES] = 0;
}

// The state on top of n nodes.
pub fn top(room: &[u32; ROOM], n: usize) -> usize
    requires { n ≤ 2048 }
    ensures { (σ : Stack) → Holds room.now n σ → result ≡ top σ }
{
    room[STATES + n] as usize
}

// A node's three words, and the state after it. A struct of the three would be made only to be taken apart here.
// Copied from an array by copy_from_slice they cost twelve instructions more a node.
pub fn put(room: &mut [u32; ROOM], n: usize, s: u32, kind: u32, number: u32, size: u32)
    requires { n < 2048 }
    ensures room_after { room.new ≡ put room.old n s kind number size }
    ensures room_unchanged { drop states_end room.new ≡ drop states_end room.old }
{
    room[3 * n] = kind;
    room[3 * n + 1] = number;
    room[3 * n + 2] = size;
    room[STATES + (n + 1)] = s;
}

// A token shifted to state s: its terminal and its identity.
pub fn shift(room: &mut [u32; ROOM], n: usize, s: u32, kind: u32, number: u32)
    requires { n < 2048 }
    ensures holds { (σ : Stack) → Holds room.old n σ → Holds room.new (n + 1) (push σ s (leaf (mk kind number))) }
    ensures room_unchanged { drop states_end room.new ≡ drop states_end room.old }
{
    put(room, n, s, kind, number, 1);
}

// Where the top d of the n nodes' pieces start, by the sizes of their roots: none where the bottom comes first.
pub fn pop_to(room: &[u32; ROOM], n: usize, d: usize) -> Option<usize>
    requires { (n ≤ 2048) × ((σ : Stack) × Holds room.now n σ) }
    ensures { (σ : Stack) → Holds room.now n σ → Backs room.now d σ result }
{
    let mut pos = n;
    for _ in 0..d {
        let last = pos.checked_sub(1)?;
        pos -= room[3 * last + 2] as usize;
    }
    Some(pos)
}

// Why a turn stops.
#[derive(Clone, Copy, PartialEq, Eq, Debug)]
pub enum Stuck {
    // the action is error
    NoAction,
    NoRoom,
    // a reduction pops below the bottom or finds no goto
    NoGoto,
}

// A reduction by p over n nodes, with room for one more.
pub fn reduce(t: &[u8], room: &mut [u32; ROOM], n: usize, p: usize) -> Result<(), Stuck>
    requires { Layout t.now × (n < 2048) × (p < P t.now) × ((σ : Stack) × Holds room.old n σ) }
    ensures lands { (σ : Stack)
        → Holds room.old n σ
        → (f : Row)
        → Lands room.new n f (settle (table_of t.now) p f (pop (length ((table_of t.now).rhs p)) σ ∅)) result }
    ensures room_unchanged { drop states_end room.new ≡ drop states_end room.old }
{
    let pos = pop_to(room, n, length_of(t, p)).ok_or(Stuck::NoGoto)?;
    let to = goto_of(t, top(room, pos), left_of(t, p)).ok_or(Stuck::NoGoto)?;
    put(room, n, to, (256 + p) as u32, 0, (n - pos + 1) as u32);
    Ok(())
}

// ---- a turn

// What the turn of a token or the end mark comes to: one node more, or accepted.
#[derive(Clone, Copy, PartialEq, Eq, Debug)]
pub enum Move {
    Shifted,
    Reduced,
    Taken,
}

// What an action that is no reduction comes to on a token next, by its terminal and its identity, or on the end mark, whose terminal is 0.
pub fn take(
    room: &mut [u32; ROOM],
    n: usize,
    act: Act,
    kind: u32,
    number: u32,
) -> Result<Move, Stuck>
    requires { n ≤ 2048 }
    ensures takes { Takes room.old room.new n (act_is act) kind number result }
    ensures room_unchanged { drop states_end room.new ≡ drop states_end room.old }
{
    match act {
        Act::Error | Act::Reduce(_) => Err(Stuck::NoAction),
        Act::Accept => Ok(Move::Taken),
        Act::Shift(_) if n >= NODES => Err(Stuck::NoRoom),
        Act::Shift(_) if kind == 0 => Err(Stuck::NoGoto),
        Act::Shift(to) => {
            shift(room, n, to, kind, number);
            Ok(Move::Shifted)
        }
    }
}

// The turn of what stands next, over the first words of a room. The action is looked up first, then the room is judged.
fn turn_in(
    t: &[u8],
    room: &mut [u32; ROOM],
    n: usize,
    kind: u32,
    number: u32,
) -> Result<Move, Stuck>
    requires { Layout t.now × (n ≤ 2048) × ((σ : Stack) × Holds room.old n σ) }
    ensures did { (σ : Stack)
        → Holds room.old n σ
        → (f : Row)
        → Stands f kind number
        → Did room.new n σ f kind number (turn (table_of t.now) (2048 - n) σ f) result }
    ensures room_unchanged { drop states_end room.new ≡ drop states_end room.old }
{
    match act_of(t, top(room, n), kind as usize) {
        Act::Reduce(_) if n >= NODES => Err(Stuck::NoRoom),
        Act::Reduce(p) => {
            reduce(t, room, n, p as usize)?;
            Ok(Move::Reduced)
        }
        act => take(room, n, act, kind, number),
    }
}

// A token next, by its terminal and its identity, or the end mark, whose terminal is 0. The action is looked up first, then the room
// is judged.
pub fn plain(t: &[u8], room: &mut [u32], n: usize, kind: u32, number: u32) -> Result<Move, Stuck>
    requires { Layout t.now × (16384 ≤ length room.old) × (n ≤ 2048) × ((σ : Stack) × Holds room.old n σ) }
    ensures did { (σ : Stack)
        → Holds room.old n σ
        → (f : Row)
        → Stands f kind number
        → Did room.new n σ f kind number (turn (table_of t.now) (2048 - n) σ f) result }
    ensures room_unchanged { drop states_end room.new ≡ drop states_end room.old }
{
    turn_in(t, room.first_chunk_mut().unwrap(), n, kind, number)
}

// ---- the room handed back

// The words that a reading may use become 0.
pub fn wipe(room: &mut [u32])
    requires { 16384 ≤ length room.old }
    ensures { room.new ≡ cleared room.old }
{
    room[..ROOM].fill(0);
}
