// What C and Rust link: the functions of crate boundary under their own names, with the same clauses. include/blenkysnow.h declares them.
// A crate is linked by C or used by crates, so that each of the five functions stands in both.
#![tactic(auto)]

ghost use Rattle.std.specs.Prelude.{◌≡◌};
ghost use Rattle.definitions.specs.House.{house};
ghost use Rattle.theory.specs.Answers.{afresh, update};
ghost use Rattle.edit_lists.specs.Words.{words_of};
ghost use Rattle.boundary.specs.Said.{Tells, Checked};

// The house table, all 320 bytes of it.
#[unsafe(no_mangle)]
pub extern "C" fn blenkysnow_house(table: &mut [u8; 320])
    ensures { table.new ≡ house }
{
    boundary::blenkysnow_house(table);
}

// Is the table taken (0), and if not, which refusal is it? With 4 the two words are a broken condition and the state where it is broken,
// else zeros.
#[unsafe(no_mangle)]
pub extern "C" fn blenkysnow_check(table: &[u8], broken: &mut [u32; 2]) -> u32
    ensures { Checked table.now result broken.new }
{
    boundary::blenkysnow_check(table, broken)
}

// A text of tokens read afresh, as `blenkysnow::read_afresh`.
#[unsafe(no_mangle)]
pub extern "C" fn blenkysnow_read_afresh(
    table: &[u8],
    codes: &[u32],
    first: u32,
    tree: &mut [u32],
    room: &mut [u32],
    told: &mut [u32; 6],
) -> u32
    ensures { Tells result told.new tree.new room.new (afresh table.now codes.now first tree.old room.old) }
{
    boundary::blenkysnow_read_afresh(table, codes, first, tree, room, told)
}

// A tree updated after edits, as `blenkysnow::update`.
#[unsafe(no_mangle)]
pub extern "C" fn blenkysnow_update<'a>(
    table: &[u8],
    old: &'a [u32],
    edits: &[u32],
    put: &'a [u32],
    tree: &mut [u32],
    room: &mut [u32],
    told: &mut [u32; 6],
) -> u32
    ensures { Tells result told.new tree.new room.new (update table.now old.now edits.now put.now tree.old room.old) }
{
    boundary::blenkysnow_update(table, old, edits, put, tree, room, told)
}

// The same with the edits as an array of structs, as `blenkysnow::update_edits`.
#[unsafe(no_mangle)]
pub extern "C" fn blenkysnow_update_edits<'a>(
    table: &[u8],
    old: &'a [u32],
    edits: &[edit_lists::Edit],
    put: &'a [u32],
    tree: &mut [u32],
    room: &mut [u32],
    told: &mut [u32; 6],
) -> u32
    ensures { Tells result told.new tree.new room.new (update table.now old.now (words_of edits.now) put.now tree.old room.old) }
{
    boundary::blenkysnow_update_edits(table, old, edits, put, tree, room, told)
}
