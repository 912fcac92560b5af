// The public calls over lent rows. Nothing is asked of what is lent: each call judges it, in document 01's order of refusals.
#![tactic(auto)]

ghost use Rattle.std.specs.Prelude.{◌≡◌, Err, ◌≤◌, length, drop};
ghost use Rattle.definitions.specs.Sheet.{T, Layout};
ghost use Rattle.definitions.specs.States.{Accepted};
ghost use Rattle.definitions.specs.Edits.{Codes};
ghost use Rattle.definitions.specs.Answers.{cleared, TextInOrder};
ghost use Rattle.theory.specs.Check.Says.{Says};
ghost use Rattle.theory.specs.Edits.EditsD.{text_in};
ghost use Rattle.theory.specs.Answers.{check, read_text, afresh, update};
ghost use Rattle.theory.specs.Demands.Calls.{Checks, Afreshed, UpdatedAll};
ghost use Rattle.table.specs.Answer.{number, Named};
ghost use Rattle.reading.specs.Fresh.{told};
ghost use Rattle.edit_lists.specs.Words.{words_of};
ghost use Rattle.blenkysnow.specs.Stages.{Long, OldTokens, Begun, Handed, Ended};

use answers::{Answer, Refusal};
use table::Broken;

// ---- the table

// Is the table taken, and if not, which refusal is it: 2, 3 or 4?
pub fn check_table(table: &[u8]) -> Result<(), Broken>
    ensures result_value { number result ≡ check table.now }
    ensures checks { Checks table.now (number result) }
    ensures named { Named table.now result }
{
    table::check_table(table)
}

// ---- what is lent

// Whether the tree to write and the room, of so many words, are long enough (else refusal 1).
fn enough(tree: usize, room: usize) -> bool
    ensures { Says result (Long tree room) }
{
    tree >= 6146 && room >= 16384
}

// A refusal, the room cleared.
fn refuse(room: &mut [u32], e: Refusal) -> Answer
    requires { 16384 ≤ length room.old }
    ensures { (result ≡ Err e) × (room.new ≡ cleared room.old) }
{
    machine::wipe(room);
    Err(e)
}

// ---- the text

// Whether the text is in order (else refusal 6).
pub fn text_right(t: &[u8], codes: &[u32], first: u32) -> bool
    requires { Layout t.now }
    ensures { Says result (TextInOrder t.now codes.now first) }
{
    let numbered = first != 0;
    let few = codes.len() <= 2048;
    numbered && few && edits::codes_known(t, codes)
}

// ---- reading afresh

// Once the table is taken and room enough is lent: 6, or the reading.
fn read_taken(t: &[u8], codes: &[u32], first: u32, tree: &mut [u32], room: &mut [u32]) -> Answer
    requires { Accepted t.now × (6146 ≤ length tree.old) × (16384 ≤ length room.old) }
    ensures { told result tree.new room.new
        ≡ read_text t.now codes.now first tree.old room.old (text_in t.now codes.now first) }
{
    if !text_right(t, codes, first) {
        return refuse(room, Refusal::Text);
    }
    reading::read_text(t, codes, first, tree, room)
}

// A text of tokens read afresh: the answer, with the counts or the refusal's place; the tree written if it is accepted; the room cleared.
pub fn read_afresh(
    table: &[u8],
    codes: &[u32],
    first: u32,
    tree: &mut [u32],
    room: &mut [u32],
) -> Answer
    ensures room_after { told result tree.new room.new
        ≡ afresh table.now codes.now first tree.old room.old }
    ensures afreshed { Afreshed table.now codes.now first tree.old room.old (told result tree.new room.new) }
{
    if !enough(tree.len(), room.len()) {
        return Err(Refusal::Small);
    }
    match table::check_table(table) {
        Ok(()) => read_taken(table, codes, first, tree, room),
        Err(broken) => refuse(room, broken.into()),
    }
}

// ---- updating

// How many tokens the old tree has, if it is in order; else refusal 5.
fn old_tokens(t: &[u8], old: &[u32], room: &mut [u32]) -> Result<usize, Refusal>
    requires { Accepted t.now × (16384 ≤ length room.old) }
    ensures old_tokens { OldTokens t.now old.now room.old room.new result }
    ensures room_unchanged { drop 16384 room.new ≡ drop 16384 room.old }
{
    if !tree::in_order(t, old, room) {
        return Err(Refusal::OldTree);
    }
    Ok(tree::tokens_in(old, tree::count_at(old)))
}

// Judges what is lent up to the old tree, `wide` the words of the tree to write: how many tokens the old tree has, or the refusal, 1 to 5.
fn begin(table: &[u8], old: &[u32], wide: usize, room: &mut [u32]) -> Result<usize, Refusal>
    ensures { Begun table.now old.now wide room.old room.new result }
{
    if !enough(wide, room.len()) {
        return Err(Refusal::Small);
    }
    table::check_table(table)?;
    old_tokens(table, old, room)
}

// The end of an update by what was found of all that is lent: the refusal, or the reading of the list of so many words. A room that is too
// small stays as lent.
fn finish<'a>(
    t: &[u8],
    old: &'a [u32],
    put: &'a [u32],
    tree: &mut [u32],
    room: &mut [u32],
    listed: Result<usize, Refusal>,
) -> Answer
    requires { Handed t.now old.now put.now tree.old room.old listed }
    ensures { Ended t.now old.now put.now tree.old room.old listed (told result tree.new room.new) }
{
    match listed {
        Ok(m) => updating::update_tree(t, old, put, tree, room, m),
        Err(Refusal::Small) => Err(Refusal::Small),
        Err(e) => refuse(room, e),
    }
}

// A tree updated after edits, a row of three words an edit: the answer, with the counts or the refusal's place; the tree written if it is
// accepted; the room cleared.
pub fn update<'a>(
    table: &[u8],
    old: &'a [u32],
    edits: &[u32],
    put: &'a [u32],
    tree: &mut [u32],
    room: &mut [u32],
) -> Answer
    ensures room_after { told result tree.new room.new
        ≡ update table.now old.now edits.now put.now tree.old room.old }
    ensures updated_all { UpdatedAll table.now old.now edits.now put.now tree.old room.old (told result tree.new room.new) }
{
    let n = begin(table, old, tree.len(), room);
    let m = edits::list_words(table, old, edits, put, room, n);
    finish(table, old, put, tree, room, m)
}

// The same with the edits as a lent slice of structs, a list of any length. Each of the two is three calls, of which the middle one differs:
// one function for both would take that as a closure with clauses of its own.
pub fn update_edits<'a>(
    table: &[u8],
    old: &'a [u32],
    edits: &[edit_lists::Edit],
    put: &'a [u32],
    tree: &mut [u32],
    room: &mut [u32],
) -> Answer
    ensures room_after { told result tree.new room.new
        ≡ update table.now old.now (words_of edits.now) put.now tree.old room.old }
    ensures updated_all { UpdatedAll table.now old.now (words_of edits.now) put.now tree.old room.old (told result tree.new room.new) }
{
    let n = begin(table, old, tree.len(), room);
    let m = edit_lists::list_edits(table, old, edits, put, room, n);
    finish(table, old, put, tree, room, m)
}

#[cfg(test)]
mod tests;
