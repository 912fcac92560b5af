// The edits of an update over lent rows: whether they are in order, what they put in and remove by places, and the reading list. An edit is
// lent as a record of three words or as a struct, and the functions that walk edits are generic over which of them.
#![tactic(auto)]

ghost use Rattle.std.specs.Prelude.{◌≡◌, List, ℕ, ◌+◌, ◌≤◌, ◌<◌, length, get_or, drop, IfOk};
ghost use Rattle.std.proofs.Common.{ap};
ghost use Rattle.definitions.specs.Sheet.{T, Layout};
ghost use Rattle.definitions.specs.Tree.{Tok, yield, NRow, erase, InOrder};
ghost use Rattle.definitions.specs.Edits.{Edit as EditOf, EditsInOrder};
ghost use Rattle.theory.specs.Check.Says.{Says};
ghost use Rattle.theory.specs.Edits.FromMarks.{reading_list};
ghost use Rattle.edits.specs.Codes.{Known, Knowns};
ghost use Rattle.edits.specs.Fits.{Fit, Passes, Passed};
ghost use Rattle.edits.specs.Words.{edit, record_of, words_of};
ghost use Rattle.edits.specs.Judged.{Right};
ghost use Rattle.tree.specs.Shaped.{Holds};
ghost use Rattle.list.specs.Pending.{Pending, Counted};
ghost use Rattle.list.specs.Opening.{Elsewhere};
ghost use Rattle.edits.specs.Marks.{puts_at, mark2, Marking, Clear, NextEdit, EditPassed};
ghost use Rattle.edits.specs.Pushing.{Pushes};
ghost use Rattle.edits.specs.Going.{Case, Going, list};
ghost use Rattle.edits.specs.Stepping.{Room, CleanBy};
ghost use Rattle.edits.specs.Begin.{Ready, AllPassed, ListMade};
ghost use Rattle.edits.specs.Made.{Tokens, Lists};

use answers::Refusal;

// ---- the inserted codes

// Is the code a terminal other than the end mark?
pub fn code_known(t: &[u8], code: u32) -> bool
    requires { Layout t.now }
    ensures { Says result (Known (T t.now) code) }
{
    code != 0 && (code as usize) < sheet::terminals_of(t)
}

// Are they all codes?
pub fn codes_known(t: &[u8], codes: &[u32]) -> bool
    requires { Layout t.now }
    ensures { Says result (Knowns (T t.now) codes.now (length codes.now)) }
{
    codes.iter().all(|code| code_known(t, *code))
}

// ---- edits

// "Each edit is a record of place, tokens removed, tokens put in."
#[repr(C)]
#[derive(Clone, Copy)]
pub struct Edit {
    pub place: u32,
    pub removed: u32,
    pub put: u32,
}

impl From<[u32; 3]> for Edit {
    ghost from_gives = { λ words e. edit e ≡ record_of words };

    // The edit of a record of the document's row.
    fn from(words: [u32; 3]) -> Edit {
        let [place, removed, put] = words;
        Edit {
            place,
            removed,
            put,
        }
    }
}

// What an edit is lent as. The law says that the conversion gives the edit that it stands for.
pub trait AsEdit: Copy + Into<Edit> {
    ghost stands_for: { Self → EditOf };

    ghost converted: { (x : Self) (e : _) → Self.converts x e → edit e ≡ stands_for x };
}

impl AsEdit for Edit {
    ghost stands_for = { edit };

    ghost converted = { λ x e h. ap edit h };
}

impl AsEdit for [u32; 3] {
    ghost stands_for = { record_of };

    ghost converted = { λ x e h. h };
}

// ---- edits in order

// A walk over the edits: where the last one ends, the codes that they use and the tokens that they remove.
#[derive(Clone, Copy, Default)]
pub struct Walk {
    pub from: usize,
    pub used: usize,
    pub out: usize,
}

// Whether an edit stands behind `from` in n old tokens and puts in at most `left` tokens.
fn edit_fits(e: Edit, from: usize, n: usize, left: usize) -> bool
    ensures { Says result (Fit from n left (edit e)) }
{
    e.place as usize >= from && e.place as usize + e.removed as usize <= n && e.put as usize <= left
}

impl Walk {
    // The walk with one edit more, of n old tokens and `left` inserted codes; none where the edit breaks the rules. The codes used are
    // refused as soon as they are more than are left, so no sum wraps however long the list is.
    pub fn pass(self, e: Edit, n: usize, left: usize) -> Option<Walk>
        requires { (n ≤ 2048) × (self.used ≤ left) × (self.out ≤ self.from) }
        ensures { Passes n left self (edit e) result }
    {
        if edit_fits(e, self.from, n, left - self.used) {
            Some(Walk {
                from: e.place as usize + e.removed as usize,
                used: self.used + e.put as usize,
                out: self.out + e.removed as usize,
            })
        } else {
            None
        }
    }

    // Whether a walk over all edits of n old tokens found them in order, with their inserted codes.
    pub fn is_right(self, t: &[u8], put: &[u32], n: usize) -> bool
        requires { Layout t.now × (n ≤ 2048) × (self.out ≤ self.from) }
        ensures { Says result (Right t.now put.now n self) }
    {
        self.from <= n
            && self.used == put.len()
            && put.len() <= 2048 - (n - self.out)
            && codes_known(t, put)
    }
}

// The walk over all edits; none where they break the rules.
fn walk_all<E: AsEdit>(edits: &[E], n: usize, left: usize) -> Option<Walk>
    requires { n ≤ 2048 }
    ensures { Passed (words_of E.stands_for edits.now) n left (length (words_of E.stands_for edits.now)) result }
{
    let mut w = Walk::default();
    for e in edits {
        w = w.pass((*e).into(), n, left)?;
    }
    Some(w)
}

// Whether the edits of n old tokens are in order, with their inserted codes (else refusal 6).
pub fn in_order<E: AsEdit>(t: &[u8], edits: &[E], put: &[u32], n: usize) -> bool
    requires { Layout t.now × (n ≤ 2048) }
    ensures { (old : List Tok)
        → length old ≡ n
        → Says result ((es : List EditOf) × EditsInOrder t.now old (words_of E.stands_for edits.now) put.now es) }
{
    walk_all(edits, n, put.len()).is_some_and(|w| w.is_right(t, put, n))
}

// The same of edits that are lent as a row of words; a part of a record at its end breaks the rules.
pub fn edits_right(t: &[u8], edits: &[u32], put: &[u32], n: usize) -> bool
    requires { Layout t.now × (n ≤ 2048) }
    ensures { (old : List Tok) → length old ≡ n → Says result ((es : List EditOf) × EditsInOrder t.now old edits.now put.now es) }
{
    let (records, part) = edits.as_chunks::<3>();
    part.is_empty() && in_order(t, records, put, n)
}

// ---- the marks of the edits

// Where the counts of tokens put in start in the room, and those of tokens removed. Both rows are words of the lent room (fixed memory).
const PUTS: usize = 0;

const GONE: usize = 2049;

// The marks at place i.
fn mark(room: &mut [u32; 16384], i: usize, puts: usize, out: usize)
    requires { (i ≤ 2048) × (puts ≤ 2048) × (out ≤ 2048) }
    ensures { room.new ≡ mark2 room.old i puts out }
{
    room[PUTS + i] = puts as u32;
    room[GONE + i] = out as u32;
}

// How far the marks are written: up to place `at`. The edits passed put in `puts` tokens and remove tokens up to `until`; `out` tokens before
// `at` are removed.
#[derive(Clone, Copy, Default)]
pub struct Marks {
    pub at: usize,
    pub puts: usize,
    pub out: usize,
    pub until: usize,
}

impl Marks {
    // Writes the marks of the places up to `to`, where no edit that is left comes before it.
    fn mark_to(self, room: &mut [u32; 16384], to: usize) -> Marks
        requires { (row r : List ℕ) × (n : ℕ) × (k : ℕ) × Marking row n r room.old k self × Clear row k n self.at to }
        ensures { ((row r : List ℕ) (n k : ℕ) → Marking row n r room.old k self → Clear row k n self.at to → Marking row n r room.new k result) × (result.at ≡ to) }
    {
        let mut out = self.out;
        for i in self.at..to {
            out += usize::from(i < self.until);
            mark(room, i + 1, self.puts, out);
        }
        Marks {
            at: to,
            out,
            ..self
        }
    }

    // Passes one edit: writes the marks of the places up to its own.
    pub fn mark_edit(self, room: &mut [u32; 16384], e: Edit) -> Marks
        requires { NextEdit room.old self (edit e) }
        ensures { EditPassed room.old self (edit e) room.new result }
    {
        let at = e.place as usize;
        let w = self.mark_to(room, at);
        Marks {
            at,
            puts: w.puts + e.put as usize,
            out: w.out,
            until: at + e.removed as usize,
        }
    }
}

// ---- the reading list

// Puts the inserted codes from lo up to hi on the list of m words, the last first; how many words the list has then.
fn push_codes(room: &mut [u32; 16384], m: usize, lo: usize, hi: usize) -> usize
    requires { Room m lo hi }
    ensures { Pushes room.old room.new m lo hi result }
{
    let mut k = m;
    for j in (lo..hi).rev() {
        list::push(room, k, (list::CODES + j) as u32);
        k += 1;
    }
    k
}

// Puts the codes on it that are put in before old token a.
fn push_before(room: &mut [u32; 16384], m: usize, a: usize) -> usize
    requires { (a < 2048) × Room m (get_or room.old (puts_at + a) 0) (get_or room.old (puts_at + (a + 1)) 0) }
    ensures { Pushes room.old room.new m (get_or room.old (puts_at + a) 0) (get_or room.old (puts_at + (a + 1)) 0) result }
{
    let lo = room[PUTS + a] as usize;
    let hi = room[PUTS + (a + 1)] as usize;
    push_codes(room, m, lo, hi)
}

// Whether the old tokens from a up to b remain and nothing is put in before any but the first.
fn clean(room: &[u32; 16384], a: usize, b: usize) -> bool
    requires { (a < b) × (b ≤ 2048) }
    ensures { Says result (CleanBy room.now a b) }
{
    room[GONE + b] == room[GONE + a] && room[PUTS + b] == room[PUTS + (a + 1)]
}

// Puts on the list of m words what the marks leave of the first n records, from the last back: the largest clean pieces and the codes put
// in before them. A clean piece is passed whole; a node that is not clean is passed alone, and its children are next.
fn list_pieces(old: &[u32], room: &mut [u32; 16384], n: usize, m: usize) -> usize
    requires { Holds old.now × ((C : Case old.now) × Going C room.old n m) }
    ensures pending { (C : Case old.now) → Going C room.old n m → Pending C.t old.now C.put room.new result (list C) }
    ensures elsewhere { Elsewhere room.old room.new }
{
    // No range or iterator steps so: a step back is as long as the piece that ends there, or one record into it.
    let mut pos = n;
    let mut k = m;
    while pos > 0 {
        let from = pos - tree::size_at(old, pos - 1);
        let a = room[list::TOKENS + from] as usize;
        let b = room[list::TOKENS + pos] as usize;
        if a == b {
            pos = from;
        } else if clean(room, a, b) {
            list::push(room, k, (pos - 1) as u32);
            k = push_before(room, k + 1, a);
            pos = from;
        } else if tree::kind_at(old, pos - 1) < 256 {
            k = push_before(room, k, a);
            pos = from;
        } else {
            pos -= 1;
        }
    }
    k
}

// Writes the counts of the old row's tokens in the working room, and the marks of place 0.
pub fn begin_marks(old: &[u32], room: &mut [u32; 16384]) -> Marks
    requires { Holds old.now }
    ensures { (C : Case old.now) → Ready C room.old room.new 0 result }
{
    let n = tree::count_at(old);
    tree::count_tokens(old, room, list::TOKENS, n);
    mark(room, 0, 0, 0);
    Marks::default()
}

// Makes the reading list once all edits are passed.
pub fn list_marked(old: &[u32], put: &[u32], room: &mut [u32; 16384], m: Marks) -> usize
    requires { AllPassed old.now put.now room.old m }
    ensures { ListMade old.now put.now room.old m room.new result }
{
    let n = tree::count_at(old);
    let all = room[list::TOKENS + n] as usize;
    m.mark_to(room, all);
    let last = room[PUTS + all] as usize;
    let k = push_codes(room, 0, last, put.len());
    list_pieces(old, room, n, k)
}

// Makes the reading list of an update in the working room: the largest clean pieces of the old row and the inserted codes, the next one
// last; how many words it has. The counts of the old row's tokens stand behind it.
pub fn make_list_of<E: AsEdit>(old: &[u32], edits: &[E], put: &[u32], room: &mut [u32]) -> usize
    requires in_bounds { 16384 ≤ length room.old }
    requires by_index { (t : List ℕ)
        × (tree : NRow)
        × (es : List EditOf)
        × (T t ≤ 256)
        × InOrder t old.now tree
        × EditsInOrder t (yield (erase tree)) (words_of E.stands_for edits.now) put.now es }
    ensures by_index_2 { (t : List ℕ) (tree : NRow) (es : List EditOf)
        → T t ≤ 256
        → InOrder t old.now tree
        → EditsInOrder t (yield (erase tree)) (words_of E.stands_for edits.now) put.now es
        → Pending t old.now put.now room.new result (reading_list (erase tree) es put.now) }
    ensures upper_bound { (result ≤ 2048) × Counted old.now room.new × (drop 16384 room.new ≡ drop 16384 room.old) }
{
    let room = room.first_chunk_mut::<16384>().unwrap();
    let mut m = begin_marks(old, room);
    for e in edits {
        m = m.mark_edit(room, (*e).into());
    }
    list_marked(old, put, room, m)
}

// The same of edits that are lent as a row of words.
pub fn make_list(old: &[u32], edits: &[u32], put: &[u32], room: &mut [u32]) -> usize
    requires in_bounds { 16384 ≤ length room.old }
    requires by_index { (t : List ℕ) × (tree : NRow) × (es : List EditOf) × (T t ≤ 256) × InOrder t old.now tree × EditsInOrder t (yield (erase tree)) edits.now put.now es }
    ensures by_index_2 { (t : List ℕ) (tree : NRow) (es : List EditOf)
        → T t ≤ 256
        → InOrder t old.now tree
        → EditsInOrder t (yield (erase tree)) edits.now put.now es
        → Pending t old.now put.now room.new result (reading_list (erase tree) es put.now) }
    ensures upper_bound { (result ≤ 2048) × Counted old.now room.new × (drop 16384 room.new ≡ drop 16384 room.old) }
{
    let (records, _) = edits.as_chunks::<3>();
    make_list_of(old, records, put, room)
}

// ---- both

// Judges the edits of an old tree, of which `found` says how many tokens it has, and makes their reading list in the room: how many words it
// has. A refusal found before is handed on.
pub fn list_words(
    t: &[u8],
    old: &[u32],
    edits: &[u32],
    put: &[u32],
    room: &mut [u32],
    found: Result<usize, Refusal>,
) -> Result<usize, Refusal>
    requires { IfOk found (λ n. Tokens t.now old.now room.old n) }
    ensures { Lists t.now old.now edits.now put.now room.old room.new found result }
{
    let n = found?;
    if !edits_right(t, edits, put, n) {
        return Err(Refusal::Text);
    }
    Ok(make_list(old, edits, put, room))
}

// The same of edits lent as anything that says which edit it stands for, for a caller with a type of its own; the calls of this library lend
// words or structs.
pub fn judged_list<E: AsEdit>(
    t: &[u8],
    old: &[u32],
    edits: &[E],
    put: &[u32],
    room: &mut [u32],
    found: Result<usize, Refusal>,
) -> Result<usize, Refusal>
    requires { IfOk found (λ n. Tokens t.now old.now room.old n) }
    ensures { Lists t.now old.now (words_of E.stands_for edits.now) put.now room.old room.new found result }
{
    let n = found?;
    if in_order(t, edits, put, n) {
        Ok(make_list_of(old, edits, put, room))
    } else {
        Err(Refusal::Text)
    }
}
