// What a call did, in three lines: the answer; the tree's words, or that it is as lent or touched where it should not be; the room.
// Every word of the tree was lent as TREE and every word of the room as ROOM. Printing is by `io`, and not by `println!`, which would rest
// on one more function of the C library, errno. A write that fails takes nothing from those behind it: what a case prints came to nothing
// where its last write did.
use answers::Answer;

// What the words of a tree are before the call.
pub const TREE: u32 = 2779096485;

// What the words of a room are before the call.
pub const ROOM: u32 = 1515870810;

// The output took no more.
#[derive(Clone, Copy, PartialEq, Eq, Debug)]
pub struct Unwritten;

// Some text.
pub fn say(text: &[u8]) -> Result<(), Unwritten> {
    if io::write_all(1, text) {
        Ok(())
    } else {
        Err(Unwritten)
    }
}

// A number.
pub fn say_number(n: u64) -> Result<(), Unwritten> {
    if io::print_decimal(1, n) {
        Ok(())
    } else {
        Err(Unwritten)
    }
}

// A number on a line of its own.
pub fn say_line(n: u64) -> Result<(), Unwritten> {
    let _ = say_number(n);
    say(b"\n")
}

// Each number behind a space.
fn say_all(numbers: &[u32]) {
    for n in numbers {
        let _ = say(b" ");
        let _ = say_number(u64::from(*n));
    }
}

// `number place left right whole token reductions`
fn say_answer(a: Answer) -> Result<(), Unwritten> {
    let k = answers::counts_of(a);
    let _ = say_number(u64::from(answers::number(a)));
    say_all(&[
        answers::place(a),
        k.lefts,
        k.rights,
        k.wholes,
        k.shifts,
        k.reductions,
    ]);
    say(b"\n")
}

// Is every word of the row this one?
fn all_are(row: &[u32], word: u32) -> bool {
    row.iter().all(|x| *x == word)
}

// How many words a tree says that it has: 2 + 3n.
fn words_of(tree: &[u32]) -> usize {
    match tree.first() {
        None => 0,
        Some(n) => 2 + 3 * *n as usize,
    }
}

// `tree` and its words, `tree as lent` or `tree touched`
fn say_tree(accepted: bool, tree: &[u32]) -> Result<(), Unwritten> {
    if !accepted && all_are(tree, TREE) {
        return say(b"tree as lent\n");
    }
    let n = words_of(tree);
    if accepted && n <= tree.len() && all_are(&tree[n..], TREE) {
        let _ = say(b"tree");
        say_all(&tree[..n]);
        return say(b"\n");
    }
    say(b"tree touched\n")
}

// `room as lent`, `room zero` or `room touched`
fn say_room(room: &[u32]) -> Result<(), Unwritten> {
    if all_are(room, ROOM) {
        return say(b"room as lent\n");
    }
    if room.len() >= 16384 && all_are(&room[..16384], 0) && all_are(&room[16384..], ROOM) {
        return say(b"room zero\n");
    }
    say(b"room touched\n")
}

// The three lines.
pub fn tell(a: Answer, tree: &[u32], room: &[u32]) -> Result<(), Unwritten> {
    let _ = say_answer(a);
    let _ = say_tree(answers::number(a) == 0, tree);
    say_room(room)
}
