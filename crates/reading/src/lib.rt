// A text of tokens read afresh over lent rows, as document 01 has it: the machine's turns over the codes, the tree's words, and the
// room wiped. The table is accepted, the text in order and room enough lent; the caller has judged that.
#![tactic(auto)]

ghost use Rattle.std.specs.Prelude.{List, ℕ, ◌≡◌, ◌+◌, ◌≤◌, length, get_or, drop};
ghost use Rattle.definitions.specs.Sheet.{T, Layout};
ghost use Rattle.definitions.specs.States.{Accepted};
ghost use Rattle.definitions.specs.Table.{table_of};
ghost use Rattle.definitions.specs.Tree.{row};
ghost use Rattle.definitions.specs.Moves.{reading};
ghost use Rattle.definitions.specs.Edits.{Codes, inserted};
ghost use Rattle.definitions.specs.Answers.{cleared, finished, TextInOrder};
ghost use Rattle.theory.specs.Numbers.Number.{number, new! };
ghost use Rattle.answers.specs.Values.{counts_of};
ghost use Rattle.machine.specs.Room.{states_end};
ghost use Rattle.machine.specs.Back.{stuck_of};
ghost use Rattle.reading.specs.Turns.{end_of, counted, Ends};
ghost use Rattle.reading.specs.Write.{inscribed};
ghost use Rattle.reading.specs.Fresh.{told};

use answers::{Answer, Counts, Refusal};
use machine::{Move, Stuck};

// The refusal of a reading that is stuck with so many tokens shifted.
pub fn refusal(stuck: Stuck, tokens: u32) -> Refusal
    ensures { end_of result ≡ stuck_of tokens stuck }
{
    match stuck {
        Stuck::NoAction => Refusal::NoAction(tokens),
        Stuck::NoRoom => Refusal::NoRoom,
        Stuck::NoGoto => Refusal::NoGoto,
    }
}

// The next code, or the end mark.
fn code_at(codes: &[u32], i: usize) -> u32
    ensures { result ≡ get_or codes.now i 0 }
{
    codes.get(i).copied().unwrap_or(0)
}

// The reading from the empty stack to its end: the nodes held and the tokens shifted.
// It ends by what a turn comes to, with nothing to iterate over; a map_err for its refusals would need a closure with clauses of its own.
fn run(t: &[u8], codes: &[u32], room: &mut [u32; machine::ROOM]) -> Result<(usize, usize), Refusal>
    requires { Layout t.now × Codes (T t.now) codes.now }
    ensures ends { Ends room.new (reading (table_of t.now) 2048 (row (inserted codes.now))) result }
    ensures room_unchanged { drop states_end room.new ≡ drop states_end room.old }
{
    machine::begin(room);
    let mut n = 0;
    let mut i = 0;
    loop {
        match machine::plain(t, room, n, code_at(codes, i), 0) {
            Ok(Move::Shifted) => i += 1,
            Ok(Move::Reduced) => {}
            Ok(Move::Taken) => return Ok((n, i)),
            Err(e) => return Err(refusal(e, i as u32)),
        }
        n += 1;
    }
}

// The tree's words off the room's records, numbered from first upward, word by word as in `machine::put`.
fn write(tree: &mut [u32], room: &[u32; machine::ROOM], n: usize, first: u32)
    requires { (6146 ≤ length tree.old) × (n ≤ 2048) × (first + n ≤ 4294967295) }
    ensures { tree.new ≡ inscribed first room.now n tree.old }
{
    tree[0] = n as u32;
    tree[1] = first + n as u32;
    for j in 0..n {
        let at = 2 + 3 * j;
        tree[at] = room[3 * j];
        tree[at + 1] = first + j as u32;
        tree[at + 2] = room[3 * j + 2];
    }
}

// The counts of a fresh reading of n nodes and i tokens: each other node is one reduction.
fn counts(n: usize, i: usize) -> Counts
    requires { (i ≤ n) × (n ≤ 2048) }
    ensures { counts_of result ≡ counted n i }
{
    Counts {
        shifts: i as u32,
        reductions: (n - i) as u32,
        ..Counts::default()
    }
}

// The answer, and the tree where it is accepted, whatever room is lent. What the machine held is left in the room.
fn read(
    t: &[u8],
    codes: &[u32],
    first: u32,
    tree: &mut [u32],
    room: &mut [u32; machine::ROOM],
) -> Answer
    requires { Accepted t.now × TextInOrder t.now codes.now first × (6146 ≤ length tree.old) }
    ensures tells { (lent : List ℕ) → told result tree.new (cleared lent)
        ≡ finished tree.old lent (λ f. number (λ q c. new!) f first) (reading (table_of t.now) 2048 (row (inserted codes.now))) }
    ensures room_unchanged { drop states_end room.new ≡ drop states_end room.old }
{
    let (n, i) = run(t, codes, room)?;
    first.checked_add(n as u32).ok_or(Refusal::NoNumber)?;
    write(tree, room, n, first);
    Ok(counts(n, i))
}

// A text read afresh: the answer, the tree to write and the working room are the definitions', in every word.
pub fn read_text(t: &[u8], codes: &[u32], first: u32, tree: &mut [u32], room: &mut [u32]) -> Answer
    requires { Accepted t.now × TextInOrder t.now codes.now first × (6146 ≤ length tree.old) × (16384 ≤ length room.old) }
    ensures { told result tree.new room.new
        ≡ finished tree.old room.old (λ f. number (λ q c. new!) f first) (reading (table_of t.now) 2048 (row (inserted codes.now))) }
{
    let front = room.first_chunk_mut().unwrap();
    let a = read(t, codes, first, tree, front);
    machine::wipe(room);
    a
}
