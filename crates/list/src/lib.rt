// The reading list of an update, in the working room: places of pieces in the old row and of codes in the inserted row, never copies of
// them. specs/Pending.antt says how the room holds it.
#![tactic(auto)]

ghost use Rattle.std.specs.Prelude.{◌≡◌, List, ℕ, ◌+◌, ◌-◌, ◌*◌, ◌≤◌, ◌<◌, length, get_or, set};
ghost use Rattle.definitions.specs.Sheet.{T};
ghost use Rattle.definitions.specs.Tree.{Row, toks, yield, look};
ghost use Rattle.theory.specs.Check.Says.{Says};
ghost use Rattle.tree.specs.Shaped.{Holds};
ghost use Rattle.list.specs.Pending.{list_at, tokens_at, Pending};
ghost use Rattle.list.specs.Entries.{entry_of};
ghost use Rattle.list.specs.Runs.{Fits, run_of, first_of};
ghost use Rattle.list.specs.Opening.{Opens, Keeps, Elsewhere};
ghost use Rattle.list.specs.Weigh.{Counting, Weighed, Weighs};

// Where the list starts in the room; it has at most 2,048 words. Its room is lent (fixed memory), so the count of its words goes beside.
pub const LIST: usize = 8193;

// Where the counts of tokens among the old row's first records start.
pub const TOKENS: usize = 10241;

// From here on an entry is the place of an inserted code; below, of a piece's root. In the list it is one word of the room (fixed memory).
pub const CODES: usize = 2048;

// What an entry stands for: a piece, by its root's record in the old row, or a code, by its place in the inserted row.
#[derive(Clone, Copy)]
pub enum Entry {
    Piece(usize),
    Code(usize),
}

impl From<usize> for Entry {
    ghost from_gives = { λ e x. x ≡ entry_of e };

    // What the entry of this number stands for.
    fn from(entry: usize) -> Entry {
        if entry < CODES {
            Entry::Piece(entry)
        } else {
            Entry::Code(entry - CODES)
        }
    }
}

// The run of an entry, handed on without copying: a piece's words in the old row, or a code in the inserted row.
pub fn next_run<'a>(old: &'a [u32], put: &'a [u32], entry: usize) -> &'a [u32]
    requires { Fits old.now put.now entry }
    ensures { result.now ≡ run_of old.now put.now entry }
{
    match Entry::from(entry) {
        Entry::Piece(v) => {
            let end = 2 + 3 * (v + 1);
            let start = end - 3 * tree::size_at(old, v);
            &old[start..end]
        }
        Entry::Code(k) => &put[k..k + 1],
    }
}

// The entry of the list's m-th word, the next one.
pub fn entry_at(room: &[u32], m: usize) -> usize
    requires { (16384 ≤ length room.now) × (0 < m) × (m ≤ 2048) }
    ensures { (result ≡ get_or room.now (list_at + (m - 1)) 0) × (result < 4294967296) }
{
    room[LIST + (m - 1)] as usize
}

// One entry more.
pub fn push(room: &mut [u32; 16384], m: usize, entry: u32)
    requires { m < 2048 }
    ensures { room.new ≡ set room.old (list_at + m) entry }
{
    room[LIST + m] = entry;
}

// ---- a left-break

// Whether there is a token among the records from a up to b.
fn has_tokens(room: &[u32; 16384], a: usize, b: usize) -> bool
    requires { (a ≤ 2048) × (b ≤ 2048) }
    ensures { Says result (get_or room.now (tokens_at + a) 0 < get_or room.now (tokens_at + b) 0) }
{
    room[TOKENS + a] < room[TOKENS + b]
}

// The piece from record `from` up to record `to` put on the list of m words, if it has a token; how many words the list has then.
fn keep_child(room: &mut [u32; 16384], m: usize, from: usize, to: usize) -> usize
    requires { (from < to) × (to ≤ 2048) × (get_or room.old (tokens_at + from) 0 < get_or room.old (tokens_at + to) 0 → m < 2048) }
    ensures { Keeps room.old room.new m from to result }
{
    if has_tokens(room, from, to) {
        push(room, m, (to - 1) as u32);
        m + 1
    } else {
        m
    }
}

// A left-break: the children of the piece whose root is record v, those without tokens dropped, put on the list of m words, the last
// first; how many words the list has then.
pub fn open(old: &[u32], room: &mut [u32], v: usize, m: usize) -> usize
    requires { (16384 ≤ length room.old) × Holds old.now × ((t put : List ℕ) × (g : Row) × Opens t old.now put room.old v m g) }
    ensures by_index { (t put : List ℕ) (g : Row) → Opens t old.now put room.old v m g → Pending t old.now put room.new result g }
    ensures elsewhere { Elsewhere room.old room.new }
{
    let room = room.first_chunk_mut::<16384>().unwrap();
    let start = v + 1 - tree::size_at(old, v);

    // No range or iterator steps so: each step back is as long as the child that ends there.
    let mut pos = v;
    let mut k = m;
    while start < pos {
        let from = pos - tree::size_at(old, pos - 1);
        k = keep_child(room, k, from, pos);
        pos = from;
    }
    k
}

// ---- what is next

// The terminal of a run's first token; where it has none the end mark's, which is 0.
fn first_token(run: &[u32]) -> u32
    ensures { result ≡ first_of run.now }
{
    for record in run.chunks(3) {
        if record[0] < 256 {
            return record[0];
        }
    }
    0
}

// The terminal that stands next in the list of m words, or the end mark's.
pub fn peek<'a>(old: &'a [u32], put: &'a [u32], room: &[u32], m: usize) -> u32
    requires { (16384 ≤ length room.now) × (m ≤ 2048) × Holds old.now × ((t : List ℕ) × (f : Row) × (T t ≤ 256) × Pending t old.now put.now room.now m f) }
    ensures { (t : List ℕ) (f : Row) → T t ≤ 256 → Pending t old.now put.now room.now m f → result ≡ look 0 (yield f) }
{
    if m == 0 {
        return 0;
    }
    let run = next_run(old, put, entry_at(room, m));
    if run.len() == 1 {
        run[0]
    } else {
        first_token(run)
    }
}

// ---- the tokens of the list

// How many tokens the run of an entry has.
fn tokens_of(old: &[u32], room: &[u32; 16384], entry: usize) -> usize
    requires { Holds old.now × ((t put : List ℕ) × (m : ℕ) × (f : Row) × Weighed t old.now put room.now m entry f) }
    ensures by_index { (t put : List ℕ) (m : ℕ) (f : Row) → Weighed t old.now put room.now m entry f → Weighs t old.now put room.now m result f }
    ensures upper_bound { result ≤ 2048 }
{
    match Entry::from(entry) {
        Entry::Piece(v) => {
            let start = v + 1 - tree::size_at(old, v);
            (room[TOKENS + (v + 1)] - room[TOKENS + start]) as usize
        }
        Entry::Code(_) => 1,
    }
}

// How many tokens the list of m words has.
pub fn tokens_left(old: &[u32], room: &[u32; 16384], m: usize) -> usize
    requires { Holds old.now × ((t put : List ℕ) × (f : Row) × Counting t old.now put room.now m f) }
    ensures { (t put : List ℕ) (f : Row) → Counting t old.now put room.now m f → result ≡ toks f }
{
    let mut total = 0;
    for entry in room[LIST..LIST + m].iter().rev() {
        total += tokens_of(old, room, *entry as usize);
    }
    total
}
