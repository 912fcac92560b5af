// The reading list that the library makes of an update, on one line: `list`, and for each entry in reading order a space and, of a piece, its
// root's record in the old row, a stroke and its nodes; of an inserted code, a plus and the code. Where the call would be refused before it
// reads, the refusal's number is the line.
ghost use Rattle.std.specs.Prelude.{◌≤◌, length, IfOk};

use crate::input::Edited;
use crate::told;
use crate::told::Unwritten;
use answers::Refusal;
use list::Entry;

// A number behind some text, or a question mark where the row has none.
fn say_found(text: &[u8], found: Option<&u32>) -> Result<(), Unwritten> {
    let _ = told::say(text);
    match found {
        Some(n) => told::say_number(u64::from(*n)),
        None => told::say(b"?"),
    }
}

// One entry: a piece of the old row, by its root's record, or a code of the inserted row, by its place.
fn say_entry(old: &[u32], codes: &[u32], entry: usize) -> Result<(), Unwritten> {
    match Entry::from(entry) {
        Entry::Piece(v) => {
            let _ = told::say(b" ");
            let _ = told::say_number(v as u64);
            say_found(b"/", old.get(4 + 3 * v))
        }
        Entry::Code(k) => say_found(b" +", codes.get(k)),
    }
}

// The list of m words, the next one first.
fn say_list(old: &[u32], codes: &[u32], room: &[u32], m: usize) -> Result<(), Unwritten>
    requires { (16384 ≤ length room.now) × (m ≤ 2048) }
{
    let _ = told::say(b"list");
    for k in (0..m).rev() {
        let _ = say_entry(old, codes, list::entry_at(room, k + 1));
    }
    told::say(b"\n")
}

// The reading list, made in the room: how many words it has, or the refusal.
fn make_list(given: Edited, room: &mut [u32]) -> Result<usize, Refusal>
    requires { 16384 ≤ length room.old }
    ensures { IfOk result (λ m. m ≤ 2048) }
{
    table::check_table(given.table)?;
    if !tree::in_order(given.table, given.old, room) {
        return Err(Refusal::OldTree);
    }
    let all = tree::tokens_in(given.old, tree::count_at(given.old));
    edits::list_words(
        given.table,
        given.old,
        given.edits,
        given.codes,
        room,
        Ok(all),
    )
}

// The line.
pub fn tell(given: Edited, room: &mut [u32]) -> Result<(), Unwritten>
    requires { 16384 ≤ length room.old }
{
    match make_list(given, room) {
        Ok(m) => say_list(given.old, given.codes, room, m),
        Err(refusal) => told::say_line(u64::from(refusal.number())),
    }
}
