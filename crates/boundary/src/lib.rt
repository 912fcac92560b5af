// The boundary: the calls as functions that C and Rust link, over pointers and lengths. include/blenkysnow.h declares them. Each makes the
// call of the crates below, returns the refusal's number and writes what else is answered into a small row of fixed length.
#![tactic(auto)]

ghost use Rattle.std.specs.Prelude.{◌≡◌};
ghost use Rattle.definitions.specs.House.{house};
ghost use Rattle.theory.specs.Answers.{afresh, update};
ghost use Rattle.answers.specs.Values.{value_of};
ghost use Rattle.edit_lists.specs.Words.{words_of};
ghost use Rattle.boundary.specs.Said.{Says, Tells, Checked};

use answers::Answer;
use table::Broken;

// ---- the table

// The house table, all 320 bytes of it.
#[unsafe(no_mangle)]
pub extern "C" fn blenkysnow_house(table: &mut [u8; 320])
    ensures { table.new ≡ house }
{
    *table = house::house();
}

// Is the table taken (0), and if not, which refusal is it? With 4 the two words are a broken condition and the state where it is broken,
// else zeros.
#[unsafe(no_mangle)]
pub extern "C" fn blenkysnow_check(table: &[u8], broken: &mut [u32; 2]) -> u32
    ensures { Checked table.now result broken.new }
{
    *broken = [0, 0];
    match blenkysnow::check_table(table) {
        Ok(()) => 0,
        Err(Broken::Layout) => 2,
        Err(Broken::Grammar) => 3,
        Err(Broken::States(c, s)) => {
            *broken = [u32::from(c.number()), s as u32];
            4
        }
    }
}

// ---- reading and updating

// An answer's place and five counts into the six words; its number.
fn tell(a: Answer, told: &mut [u32; 6]) -> u32
    ensures { Says result told.new (value_of a) }
{
    let k = answers::counts_of(a);
    *told = [
        answers::place(a),
        k.lefts,
        k.rights,
        k.wholes,
        k.shifts,
        k.reductions,
    ];
    answers::number(a)
}

// A text of tokens read afresh, as `blenkysnow::read_afresh`.
#[unsafe(no_mangle)]
pub extern "C" fn blenkysnow_read_afresh(
    table: &[u8],
    codes: &[u32],
    first: u32,
    tree: &mut [u32],
    room: &mut [u32],
    told: &mut [u32; 6],
) -> u32
    ensures { Tells result told.new tree.new room.new (afresh table.now codes.now first tree.old room.old) }
{
    tell(
        blenkysnow::read_afresh(table, codes, first, tree, room),
        told,
    )
}

// A tree updated after edits, as `blenkysnow::update`.
#[unsafe(no_mangle)]
pub extern "C" fn blenkysnow_update<'a>(
    table: &[u8],
    old: &'a [u32],
    edits: &[u32],
    put: &'a [u32],
    tree: &mut [u32],
    room: &mut [u32],
    told: &mut [u32; 6],
) -> u32
    ensures { Tells result told.new tree.new room.new (update table.now old.now edits.now put.now tree.old room.old) }
{
    tell(blenkysnow::update(table, old, edits, put, tree, room), told)
}

// The same with the edits as an array of structs, as `blenkysnow::update_edits`.
#[unsafe(no_mangle)]
pub extern "C" fn blenkysnow_update_edits<'a>(
    table: &[u8],
    old: &'a [u32],
    edits: &[edit_lists::Edit],
    put: &'a [u32],
    tree: &mut [u32],
    room: &mut [u32],
    told: &mut [u32; 6],
) -> u32
    ensures { Tells result told.new tree.new room.new (update table.now old.now (words_of edits.now) put.now tree.old room.old) }
{
    tell(
        blenkysnow::update_edits(table, old, edits, put, tree, room),
        told,
    )
}
