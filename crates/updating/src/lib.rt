// The moves of an update, as document 01 has them: the reductions that the next terminal calls for, whole shifts with their right-breaks,
// left-breaks, and the turns of tokens and the end mark, by the shifts and reductions of the machine that reads afresh.
#![tactic(auto)]

ghost use Rattle.std.specs.Prelude.{◌≡◌, List, ℕ, ◌-◌, ◌≤◌, ◌<◌, length, get_or, drop};
ghost use Rattle.definitions.specs.Sheet.{P, Layout};
ghost use Rattle.definitions.specs.Table.{table_of};
ghost use Rattle.definitions.specs.Tree as Tree;
ghost use Rattle.definitions.specs.Tree.{Row, yield, NRow};
ghost use Rattle.definitions.specs.Reading.{Stack, top, reduce};
ghost use Rattle.definitions.specs.Moves.{to, breaks, enter, turn, reading};
ghost use Rattle.definitions.specs.Edits.{Edit};
ghost use Rattle.definitions.specs.Answers.{cleared, finished};
ghost use Rattle.machine.specs.Room.{states_end, Holds, put};
ghost use Rattle.machine.specs.Lookups.{act_is};
ghost use Rattle.reading.specs.Fresh.{told};
ghost use Rattle.tree.specs.Shaped as Rows;
ghost use Rattle.updating.specs.Turns.{Reduces, Facing, Listed, Does, Above};
ghost use Rattle.updating.specs.Tokens.{Takes};
ghost use Rattle.updating.specs.Running.{Ends};
ghost use Rattle.updating.specs.Finish.{Judged, list, done, numbers, Ready};

use answers::{Answer, Counts, Refusal};
use machine::{Act, Move, ROOM, Stuck};
use shifting::Whole;

// a piece shifted whole
mod shifting;

// ---- a turn

// What a turn comes to, where it does not stop: a move as afresh; a piece shifted whole; or a left-break, with the words of the list then.
#[derive(Clone, Copy, PartialEq, Eq, Debug)]
pub enum Turn {
    Plain(Move),
    Whole(Whole),
    Left(usize),
}

// The turn of a token next, by its terminal and its identity, or of the end mark, whose terminal is 0, where the action on it is no reduction.
fn take_token(
    room: &mut [u32; ROOM],
    n: usize,
    act: Act,
    kind: u32,
    number: u32,
) -> Result<Turn, Stuck>
    requires { n ≤ 2048 }
    ensures takes { Takes room.old room.new n (act_is act) kind number result }
    ensures room_unchanged { drop states_end room.new ≡ drop states_end room.old }
{
    Ok(Turn::Plain(machine::take(room, n, act, kind, number)?))
}

// A reduction that the next piece's first token calls for, with room judged before it.
fn reduce(t: &[u8], room: &mut [u32; ROOM], n: usize, p: usize) -> Result<(), Stuck>
    requires { Layout t.now × (n ≤ 2048) × (p < P t.now) × ((σ : Stack) × Holds room.old n σ) }
    ensures reduces { (σ : Stack) → Holds room.old n σ → (f : Row) → Reduces room.new n f (reduce (table_of t.now) (2048 - n) p σ f) result }
    ensures room_unchanged { drop states_end room.new ≡ drop states_end room.old }
{
    if n >= machine::NODES {
        return Err(Stuck::NoRoom);
    }
    machine::reduce(t, room, n, p)
}

// The piece whose root is record v, next in the list of m words: shifted whole where the state s has a goto on it, else left-broken.
fn enter(
    t: &[u8],
    old: &[u32],
    run: &[u32],
    room: &mut [u32; ROOM],
    n: usize,
    m: usize,
    v: usize,
    s: usize,
) -> Result<Turn, Stuck>
    requires { Layout t.now
        × (n ≤ 2048)
        × Rows.Holds old.now
        × ((put : List ℕ) × (σ : Stack) × (f : Row) × Facing t.now old.now put run.now room.old n m v σ f × (s ≡ top σ)) }
    ensures by_index { (put : List ℕ) (σ : Stack) (f : Row) (F : Facing t.now old.now put run.now room.old n m v σ f)
        → s ≡ top σ
        → Does t.now old.now put room.new n m σ f (enter (table_of t.now) (2048 - n) σ F.kids F.rest ((table_of t.now).goto (top σ) ((table_of t.now).lhs F.prod))) result }
    ensures above { Above room.old room.new }
{
    let left = machine::left_of(t, tree::kind_at(old, v) - 256);
    if machine::goto_of(t, s, left).is_none() {
        return Ok(Turn::Left(list::open(old, room, v, m - 1)));
    }
    let whole = shifting::shift_whole(t, run, room, n).ok_or(Stuck::NoRoom)?;
    Ok(Turn::Whole(whole))
}

// The identity of the token of a run: its number in the old tree, 0 for an inserted one.
fn identity_of(run: &[u32]) -> u32
    ensures { (length run.now ≡ 3 → result ≡ get_or run.now 1 0) × (length run.now ≡ 1 → result ≡ 0) }
{
    match run {
        [_, number, _] => *number,
        _ => 0,
    }
}

// A turn over n nodes and a list of m words, where the terminal `look` stands next. The action on it is looked up once: a reduction is the
// same whatever the list has next.
// The sheet and the two rows stay three parameters: `update_tree`, `read_and_write` and `read_list` keep theirs, and below `read_words` this
// function alone takes all three.
fn take_turn<'a>(
    t: &[u8],
    old: &'a [u32],
    put: &'a [u32],
    room: &mut [u32; ROOM],
    n: usize,
    m: usize,
    look: u32,
) -> Result<Turn, Stuck>
    requires { Layout t.now
        × (n ≤ 2048)
        × Rows.Holds old.now
        × ((σ : Stack) × (f : Row) × Holds room.old n σ × Listed t.now old.now put.now room.old m f) }
    ensures does { (σ : Stack) (f : Row)
        → Holds room.old n σ
        → Listed t.now old.now put.now room.old m f
        → look ≡ Tree.look 0 (yield f)
        → Does t.now old.now put.now room.new n m σ f (turn (table_of t.now) (2048 - n) σ f) result }
    ensures above { Above room.old room.new }
{
    let s = machine::top(room, n);
    let act = machine::act_of(t, s, look as usize);
    if let Act::Reduce(p) = act {
        reduce(t, room, n, p as usize)?;
        return Ok(Turn::Plain(Move::Reduced));
    }
    if m == 0 {
        return take_token(room, n, act, look, 0);
    }
    let entry = list::entry_at(room, m);
    let run = list::next_run(old, put, entry);
    if run.len() > 3 {
        return enter(t, old, run, room, n, m, entry, s);
    }
    take_token(room, n, act, look, identity_of(run))
}

// ---- the reading of the list

// The reading of a list of m words in the first words of a room, from the empty stack to its end.
fn read_words<'a>(
    t: &[u8],
    old: &'a [u32],
    put: &'a [u32],
    room: &mut [u32; ROOM],
    m: usize,
) -> Result<(usize, Counts), Refusal>
    requires { Layout t.now × Rows.Holds old.now × ((f : Row) × Listed t.now old.now put.now room.old m f) }
    ensures ends { (f : Row)
        → Listed t.now old.now put.now room.old m f
        → Ends room.new (reading (table_of t.now) 2048 f) result }
    ensures above { Above room.old room.new }
{
    machine::begin(room);
    let total = list::tokens_left(old, room, m);
    let mut n: usize = 0;
    let mut words = m;
    let mut next = list::peek(old, put, room, m);
    let mut counts = Counts::default();
    loop {
        match take_turn(t, old, put, room, n, words, next) {
            Ok(Turn::Plain(Move::Shifted)) => {
                n += 1;
                words -= 1;
                counts.shifts += 1;
                next = list::peek(old, put, room, words);
            }
            Ok(Turn::Plain(Move::Reduced)) => {
                n += 1;
                counts.reductions += 1;
            }
            Ok(Turn::Whole(whole)) => {
                n = whole.held;
                words -= 1;
                counts.wholes += 1;
                counts.rights += whole.breaks;
                next = list::peek(old, put, room, words);
            }
            Ok(Turn::Left(left)) => {
                words = left;
                counts.lefts += 1;
            }
            Ok(Turn::Plain(Move::Taken)) => {
                return Ok((n, counts));
            }
            Err(stuck) => {
                let shifted = total - list::tokens_left(old, room, words);
                return Err(reading::refusal(stuck, shifted as u32));
            }
        }
    }
}

// The reading of a list of m words, from the empty stack to its end: the nodes held and the five counts, or the refusal.
pub fn read_list<'a>(
    t: &[u8],
    old: &'a [u32],
    put: &'a [u32],
    room: &mut [u32],
    m: usize,
) -> Result<(usize, Counts), Refusal>
    requires { Layout t.now × (16384 ≤ length room.old) × Rows.Holds old.now × ((f : Row) × Listed t.now old.now put.now room.old m f) }
    ensures ends { (f : Row)
        → Listed t.now old.now put.now room.old m f
        → Ends room.new (reading (table_of t.now) 2048 f) result }
    ensures above { Above room.old room.new }
{
    let first = room.first_chunk_mut::<ROOM>().unwrap();
    read_words(t, old, put, first, m)
}

// ---- the update

// The list read, and the tree written with its numbers where it is accepted and they suffice.
fn read_and_write<'a>(
    t: &[u8],
    old: &'a [u32],
    put: &'a [u32],
    tree: &mut [u32],
    room: &mut [u32; ROOM],
    m: usize,
) -> Answer
    requires { (6146 ≤ length tree.old) × Ready t.now old.now put.now room.old m }
    ensures lent_after { (edits lent : List ℕ) (r : NRow) (es : List Edit) (J : Judged t.now old.now edits put.now r es)
        → Listed t.now old.now put.now room.old m (list J)
        → told result tree.new (cleared lent) ≡ finished tree.old lent (numbers J) (done J) }
    ensures above { Above room.old room.new }
{
    let (n, counts) = read_list(t, old, put, room, m)?;
    if numbers::finish(old, tree, room, n) {
        Ok(counts)
    } else {
        Err(Refusal::NoNumber)
    }
}

// A tree in order updated by edits in order whose list stands in the room, under an accepted table and with room enough: the answer, the tree
// written if it is accepted, the room cleared.
pub fn update_tree<'a>(
    t: &[u8],
    old: &'a [u32],
    put: &'a [u32],
    tree: &mut [u32],
    room: &mut [u32],
    m: usize,
) -> Answer
    requires { (6146 ≤ length tree.old) × (16384 ≤ length room.old) × Ready t.now old.now put.now room.old m }
    ensures { (edits : List ℕ) (r : NRow) (es : List Edit) (J : Judged t.now old.now edits put.now r es)
        → Listed t.now old.now put.now room.old m (list J)
        → told result tree.new room.new ≡ finished tree.old room.old (numbers J) (done J) }
{
    let first = room.first_chunk_mut::<ROOM>().unwrap();
    let answer = read_and_write(t, old, put, tree, first, m);
    machine::wipe(room);
    answer
}
