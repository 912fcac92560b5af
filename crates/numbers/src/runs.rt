// The spot words, forward: a token's by a search, and from it on its run, records side by side that stand in the old tree at one shift. All is
// linear in the nodes.
ghost use Rattle.std.specs.Prelude.{◌≡◌, List, ℕ, ◌+◌, ◌*◌, ◌≤◌, ◌<◌, length};
ghost use Rattle.numbers.specs.Records.{front, kind_of, size_of, Shape, Told};
ghost use Rattle.numbers.specs.Spots.{Finds, Judging};
ghost use Rattle.numbers.specs.Runs.{Starts, Stops, Chosen, Filled, Walking, Started};

use crate::records;
use crate::records::Old;

// ---- a token's spot

// The first old record from lo up to hi that is record j, if there is one.
fn find(old: &[u32], room: &[u32; machine::ROOM], j: usize, lo: usize, hi: usize) -> Option<usize>
    requires { (j < 2048) × (lo ≤ hi) × (2 + 3 * hi ≤ length old.now) }
    ensures { Finds old.now (front room.now) j lo hi result }
{
    (lo..hi).find(|k| records::same(old, room, j, *k))
}

// The word that says that record j is the old record k.
fn shifted(j: usize, k: usize) -> u32
    requires { (j < 2048) × (k < 2048) }
    ensures { result + j ≡ 2050 + k }
{
    (records::SHIFT + k - j) as u32
}

// The spot word of record j, a token, sought from the old record `from` on and then before it. Old tokens come in the old order, so the
// search goes on where the last one was found.
fn token_spot(old: &Old, room: &[u32; machine::ROOM], j: usize, from: usize) -> u32
    requires shape { (n : ℕ) × Shape (front room.now) n × (j < n) }
    requires from_in_old { from ≤ old.now.nodes }
    requires j_bound { kind_of (front room.now) j < 256 }
    ensures { Told old.now.row.now (front room.now) old.now.nodes j result }
{
    if records::number_of(room, j) == 0 {
        return records::LOST;
    }
    find(old.row, room, j, from, old.nodes)
        .or_else(|| find(old.row, room, j, 0, from))
        .map_or(records::LOST, |k| shifted(j, k))
}

// ---- runs: records side by side that stand in the old tree at one shift

// Where the run of records at the shift w that ends before record j starts.
fn run_start(old: &Old, room: &[u32; machine::ROOM], j: usize, w: u32) -> usize
    requires { j ≤ 2048 }
    ensures { Starts old.now.row.now (front room.now) old.now.nodes w j result }
{
    for i in (0..j).rev() {
        if !records::meets(old, room, i, w) {
            return i + 1;
        }
    }
    0
}

// Where the run of the n records at the shift w ends that starts with record j.
fn run_end(old: &Old, room: &[u32; machine::ROOM], n: usize, j: usize, w: u32) -> usize
    requires { (j ≤ n) × (n ≤ 2048) }
    ensures { Stops old.now.row.now (front room.now) old.now.nodes w n j result }
{
    (j..n)
        .find(|i| !records::meets(old, room, *i, w))
        .unwrap_or(n)
}

// The spot word of a piece from record `first` on, where the last token stands before record `last`: 0 where that token is before the piece;
// its word w where the piece is in its run, which starts at `start`; else the piece is lost.
fn word_of(first: usize, start: usize, last: usize, w: u32) -> u32
    ensures { Chosen first start last w result }
{
    if last <= first {
        0
    } else if start <= first {
        w
    } else {
        records::LOST
    }
}

// The first record of the piece that ends with record j.
fn first_of(room: &[u32; machine::ROOM], j: usize) -> usize
    requires { (n : ℕ) × Shape (front room.now) n × (j < n) }
    ensures { result + size_of (front room.now) j ≡ j + 1 }
{
    j + 1 - records::size_of(room, j)
}

// Where the last token stands once record j is passed, and one; `last` before that.
fn last_of(room: &[u32; machine::ROOM], j: usize, last: usize) -> usize
    requires { j < 2048 }
    ensures { (kind_of (front room.now) j < 256 → result ≡ j + 1) × (256 ≤ kind_of (front room.now) j → result ≡ last) }
{
    if records::kind_of(room, j) < 256 {
        j + 1
    } else {
        last
    }
}

// ---- all spots, forward

// A walk over the records: `at` is next; the last token stands before `last` and has the word `shift`; its run starts at `start`; the next old
// token is sought from the old record `from` on.
#[derive(Clone, Copy)]
pub struct Run {
    pub at: usize,
    pub last: usize,
    pub shift: u32,
    pub start: usize,
    pub from: usize,
}

// The next record, which is not of the run before it: a token, which starts a run where it stands in the old tree, or a node.
fn pass(old: &Old, room: &mut [u32; machine::ROOM], r: Run) -> Run
    requires walking { (lent : List ℕ) × ((n : ℕ) × Shape (front lent) n × (r.at < n) × Walking old.now.row.now lent old.now.nodes n room.old r) }
    ensures started { (lent : List ℕ) (n : ℕ)
        → Shape (front lent) n
        → r.at < n
        → Walking old.now.row.now lent old.now.nodes n room.old r
        → Started old.now.row.now lent old.now.nodes n room.new result }
    ensures next { result.at ≡ r.at + 1 }
{
    let j = r.at;
    if records::kind_of(room, j) < 256 {
        let w = token_spot(old, room, j, r.from);
        room[records::SPOTS + j] = w;
        Run {
            at: j + 1,
            last: j + 1,
            shift: w,
            start: run_start(old, room, j, w),
            ..r
        }
    } else {
        let v = word_of(first_of(room, j), j + 1, r.last, r.shift);
        room[records::SPOTS + j] = v;
        Run {
            at: j + 1,
            start: j + 1,
            ..r
        }
    }
}

// Writes the spot words of the records up to e, which are of the run that the last token is of; where that token stands then, and one.
fn put_run(room: &mut [u32; machine::ROOM], r: Run, e: usize) -> usize
    requires { (r.at ≤ e) × ((n : ℕ) × Shape (front room.old) n × (e ≤ n)) }
    ensures { Filled room.old room.new r.at e r.start r.last r.shift result }
{
    let mut last = r.last;
    for j in r.at..e {
        last = last_of(room, j, last);
        let v = word_of(first_of(room, j), r.start, last, r.shift);
        room[records::SPOTS + j] = v;
    }
    last
}

// The rest of the run that the last token is of.
fn fill(old: &Old, room: &mut [u32; machine::ROOM], n: usize, r: Run) -> Run
    requires started { (lent : List ℕ) × Shape (front lent) n × Started old.now.row.now lent old.now.nodes n room.old r }
    ensures walking { (lent : List ℕ)
        → Shape (front lent) n
        → Started old.now.row.now lent old.now.nodes n room.old r
        → Walking old.now.row.now lent old.now.nodes n room.new result }
    ensures on { r.at ≤ result.at }
{
    if r.shift < 2 {
        return r;
    }
    let e = run_end(old, room, n, r.at, r.shift);
    Run {
        at: e,
        last: put_run(room, r, e),
        from: (e + r.shift as usize - records::SHIFT).min(old.nodes),
        ..r
    }
}

// Writes the spot words of the n records. A turn goes on by a run, so that no range names the places.
pub fn spots(old: &Old, room: &mut [u32; machine::ROOM], n: usize)
    requires shape { Shape (front room.old) n }
    ensures { Judging old.now.row.now room.old old.now.nodes room.new n }
{
    let mut r = Run {
        at: 0,
        last: 0,
        shift: records::LOST,
        start: 0,
        from: 0,
    };
    while r.at < n {
        let s = pass(old, room, r);
        r = fill(old, room, n, s);
    }
}
