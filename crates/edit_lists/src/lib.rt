// The edits of an update as a lent slice of structs: the same calls as of crate edits over a row of words. The judgement and the list are
// calls of the generic functions of crate edits, each with its own way to lend an edit; `list_edits` is the one behind the other.
#![tactic(auto)]

ghost use Rattle.std.specs.Prelude.{◌≡◌, List, ℕ, ◌≤◌, length, drop, IfOk};
ghost use Rattle.definitions.specs.Sheet.{T, Layout};
ghost use Rattle.definitions.specs.Tree.{Tok, yield, NRow, erase, InOrder};
ghost use Rattle.definitions.specs.Edits.{Edit as EditOf, EditsInOrder};
ghost use Rattle.theory.specs.Check.Says.{Says};
ghost use Rattle.theory.specs.Edits.FromMarks.{reading_list};
ghost use Rattle.list.specs.Pending.{Pending, Counted};
ghost use Rattle.edits.specs.Made.{Tokens, Lists};
ghost use Rattle.edit_lists.specs.Words.{words_of};

use answers::Refusal;
pub use edits::Edit;

// Whether the edits of n old tokens are in order, with their inserted codes (else refusal 6).
pub fn edits_right(t: &[u8], edits: &[Edit], put: &[u32], n: usize) -> bool
    requires { Layout t.now × (n ≤ 2048) }
    ensures { (old : List Tok)
        → length old ≡ n
        → Says result ((es : List EditOf) × EditsInOrder t.now old (words_of edits.now) put.now es) }
{
    edits::in_order(t, edits, put, n)
}

// Makes the reading list of an update in the working room: the largest clean pieces of the old row and the inserted codes, the next one
// last; how many words it has. The counts of the old row's tokens stand behind it.
pub fn make_list(old: &[u32], edits: &[Edit], put: &[u32], room: &mut [u32]) -> usize
    requires in_bounds { 16384 ≤ length room.old }
    requires by_index { (t : List ℕ)
        × (tree : NRow)
        × (es : List EditOf)
        × (T t ≤ 256)
        × InOrder t old.now tree
        × EditsInOrder t (yield (erase tree)) (words_of edits.now) put.now es }
    ensures by_index_2 { (t : List ℕ) (tree : NRow) (es : List EditOf)
        → T t ≤ 256
        → InOrder t old.now tree
        → EditsInOrder t (yield (erase tree)) (words_of edits.now) put.now es
        → Pending t old.now put.now room.new result (reading_list (erase tree) es put.now) }
    ensures upper_bound { (result ≤ 2048) × Counted old.now room.new × (drop 16384 room.new ≡ drop 16384 room.old) }
{
    edits::make_list_of(old, edits, put, room)
}

// Judges the edits of an old tree, of which `found` says how many tokens it has, and makes their reading list in the room: how many words it
// has. A refusal found before is handed on.
pub fn list_edits(
    t: &[u8],
    old: &[u32],
    edits: &[Edit],
    put: &[u32],
    room: &mut [u32],
    found: Result<usize, Refusal>,
) -> Result<usize, Refusal>
    requires { IfOk found (λ n. Tokens t.now old.now room.old n) }
    ensures { Lists t.now old.now (words_of edits.now) put.now room.old room.new found result }
{
    let n = found?;
    if !edits_right(t, edits, put, n) {
        return Err(Refusal::Text);
    }
    Ok(make_list(old, edits, put, room))
}
