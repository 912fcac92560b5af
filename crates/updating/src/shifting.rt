// A whole shift: the run's records copied up to its last token, with the states behind them, and the right-breaks counted.
ghost use Rattle.std.specs.Prelude.{◌≡◌, List, ℕ, ◌+◌, ◌-◌, ◌*◌, ◌≤◌, ◌<◌, length, get_or, drop};
ghost use Rattle.definitions.specs.Sheet.{P, Layout};
ghost use Rattle.definitions.specs.Table.{table_of, trans};
ghost use Rattle.definitions.specs.Tree.{Row, toks};
ghost use Rattle.definitions.specs.Reading.{Stack};
ghost use Rattle.definitions.specs.Moves.{to, standing, breaks};
ghost use Rattle.theory.specs.Records.Flat.{Word, flat};
ghost use Rattle.machine.specs.Lookups.{goto_is};
ghost use Rattle.machine.specs.Room.{states_at, states_end, put};
ghost use Rattle.updating.specs.Records.{sym_k, num_k, cell, Reads};
ghost use Rattle.updating.specs.Copy.{Rooted, Front, Copied};
ghost use Rattle.updating.specs.Shift.{Ripe, Shifts};

use machine::{Act, ROOM};

// ---- a whole shift

// Where a state leads on a node's kind, if anywhere. A kind stays a number: it is a word of document 01's records.
fn lead(t: &[u8], s: usize, kind: usize) -> Option<u32>
    requires { Layout t.now × (256 ≤ kind → kind - 256 < P t.now) }
    ensures { goto_is result ≡ trans (table_of t.now) s (sym_k (table_of t.now) kind) }
{
    if kind < 256 {
        match machine::act_of(t, s, kind) {
            Act::Shift(to) => Some(to),
            _ => None,
        }
    } else {
        machine::goto_of(t, s, machine::left_of(t, kind - 256))
    }
}

// The identity of a node: a token's number, 0 for others.
fn identity(kind: u32, number: u32) -> u32
    ensures { result ≡ num_k kind number }
{
    if kind < 256 { number } else { 0 }
}

// The state at the start of a record of the given size, once n nodes are held.
fn state_at_start(room: &[u32; ROOM], n: usize, size: usize) -> usize
    requires { (n < 2048) × (size ≤ n + 1) }
    ensures { result ≡ get_or room.now (states_at + (n + 1 - size)) 0 }
{
    room[machine::STATES + (n + 1 - size)] as usize
}

// A record of the run put after the n nodes held, with the state that the state at its start leads to.
fn copy_one(t: &[u8], room: &mut [u32; ROOM], n: usize, kind: u32, number: u32, size: u32)
    requires { Layout t.now × (n < 2048) × (256 ≤ kind → kind - 256 < P t.now) × (size ≤ n + 1) }
    ensures room_after { room.new
        ≡ put room.old n (to (table_of t.now) (get_or room.old (states_at + (n + 1 - size)) 0) (sym_k (table_of t.now) kind)) kind (num_k kind number) size }
    ensures room_unchanged { drop states_end room.new ≡ drop states_end room.old }
{
    let from = state_at_start(room, n, size as usize);
    let s = lead(t, from, kind as usize).unwrap_or(0);
    machine::put(room, n, s, kind, identity(kind, number), size);
}

// The first records of a run put after the n nodes held.
fn copy(t: &[u8], nodes: &[[u32; 3]], room: &mut [u32; ROOM], n: usize)
    requires { Layout t.now
        × (n + length nodes.now ≤ 2048)
        × ((ws : List Word) × Front (table_of t.now) nodes.now ws × Rooted ws) }
    ensures copied { (ws : List Word)
        → Front (table_of t.now) nodes.now ws
        → Rooted ws
        → Copied (table_of t.now) room.old room.new n ws (length nodes.now) }
    ensures room_unchanged { drop states_end room.new ≡ drop states_end room.old }
{
    for (j, &[kind, number, size]) in nodes.iter().enumerate() {
        copy_one(t, room, n + j, kind, number, size);
    }
}

// How many of the run's records stand up to its last token: what right-breaks leave of a piece.
fn standing_of(nodes: &[[u32; 3]]) -> usize
    ensures within { result ≤ length nodes.now }
    ensures behind { (i : ℕ) → result ≤ i → i < length nodes.now → 256 ≤ cell nodes.now i 0 }
    ensures last { 0 < result → cell nodes.now (result - 1) 0 < 256 }
{
    nodes
        .iter()
        .rposition(|&[kind, _, _]| kind < 256)
        .map_or(0, |last| last + 1)
}

// How many records are left before a piece of the given size that ends with record pos − 1 is broken: one without tokens starts behind the m
// records that stand and is taken off, another is opened.
fn before_break(pos: usize, size: usize, m: usize) -> usize
    requires { (0 < size) × (size ≤ pos) × (m < pos) × (pos < 4294967296) }
    ensures { ((m + size ≤ pos → result ≡ pos - size) × (pos < m + size → result ≡ pos - 1)) × (result < pos) }
{
    if m + size <= pos { pos - size } else { pos - 1 }
}

// How many right-breaks leave m records of the run standing. The walk goes back by the pieces' sizes, which no range and no iterator has.
fn breaks_of(nodes: &[[u32; 3]], m: usize) -> u32
    requires { (length nodes.now ≤ 2048)
        × ((t : List ℕ) × (f : Row) × Reads (table_of t) nodes.now (flat f) × (m ≡ standing f) × (0 < toks f)) }
    ensures { (t : List ℕ) (f : Row) → Reads (table_of t) nodes.now (flat f) → m ≡ standing f → 0 < toks f → result ≡ breaks f }
{
    let mut pos = nodes.len();
    let mut k: u32 = 0;
    while m < pos {
        let [_, _, size] = nodes[pos - 1];
        pos = before_break(pos, size as usize, m);
        k += 1;
    }
    k
}

// What a whole shift comes to: the nodes held then, and the right-breaks.
#[derive(Clone, Copy, PartialEq, Eq, Debug)]
pub struct Whole {
    pub held: usize,
    pub breaks: u32,
}

// A piece's run shifted whole, then right-broken: its records up to the last token. The room is judged for those: none where it is full.
pub fn shift_whole(t: &[u8], run: &[u32], room: &mut [u32; ROOM], n: usize) -> Option<Whole>
    requires { Layout t.now
        × (n ≤ 2048)
        × (length run.now ≤ 6144)
        × ((σ : Stack) × (q : ℕ) × (c : Row) × Ripe (table_of t.now) run.now room.old n σ q c) }
    ensures shifts { (σ : Stack) (q : ℕ) (c : Row)
        → Ripe (table_of t.now) run.now room.old n σ q c
        → Shifts (table_of t.now) room.new n σ c result }
    ensures room_unchanged { drop states_end room.new ≡ drop states_end room.old }
{
    let (nodes, _) = run.as_chunks::<3>();
    let m = standing_of(nodes);
    if n + m > machine::NODES {
        return None;
    }
    let breaks = breaks_of(nodes, m);
    copy(t, &nodes[..m], room, n);
    Some(Whole {
        held: n + m,
        breaks,
    })
}
