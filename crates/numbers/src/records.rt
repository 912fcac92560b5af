// The records of the new tree, in the room, beside those of the old tree: their words, and whether two of them are the same.
ghost use Rattle.std.specs.Prelude.{◌≡◌, ◌+◌, ◌*◌, ◌≤◌, ◌<◌, length};
ghost use Rattle.theory.specs.Check.Says.{Says};
ghost use Rattle.numbers.specs.Records.{front, kind_of, number_of, size_of, spot_of, OldRow, Same, Met};

// ---- the room's layout: the records of the new tree stand where the machine has them, and the spot word of each where the machine had the
// states

// Where the spot words start. A record's is one word of the lent room: an enum would be read out of it and put back at each step, which is no
// plainer.
pub const SPOTS: usize = machine::STATES;

// A spot word that says where a piece stands is its old place and so much, less its new place: above 1 for every two of 2,048 places.
pub const SHIFT: usize = 2050;

// A piece that has tokens and stands nowhere in the old tree. Of one without tokens the word is 0.
pub const LOST: u32 = 1;

// ---- the old tree

// Its row, and how many nodes that has. Their numbers are distinct and at least 1.
#[derive(Clone, Copy)]
pub struct Old<'a> {
    pub row: &'a [u32],
    pub nodes: usize,
    ghost known: { OldRow row.now nodes },
}

// ---- the records: each reads one word, as tree's do of a row, whose records start at word 2. One function over both would be no plainer.

// The kind of record j: a token's terminal, or 256 + its production.
pub fn kind_of(room: &[u32; machine::ROOM], j: usize) -> usize
    requires { j < 2048 }
    ensures { (result ≡ kind_of (front room.now) j) × (result < 4294967296) }
{
    room[3 * j] as usize
}

// Its number: a token's in the old tree, 0 for an inserted one; 0 for a node until its number is kept.
pub fn number_of(room: &[u32; machine::ROOM], j: usize) -> u32
    requires { j < 2048 }
    ensures { result ≡ number_of (front room.now) j }
{
    room[3 * j + 1]
}

// The nodes of the piece that ends with it.
pub fn size_of(room: &[u32; machine::ROOM], j: usize) -> usize
    requires { j < 2048 }
    ensures { (result ≡ size_of (front room.now) j) × (result < 4294967296) }
{
    room[3 * j + 2] as usize
}

// Its spot word.
pub fn spot_of(room: &[u32; machine::ROOM], j: usize) -> u32
    requires { j < 2048 }
    ensures { result ≡ spot_of room.now j }
{
    room[SPOTS + j]
}

// Whether record j is the old record k: kinds and sizes agree, and numbers where it is a token.
pub fn same(old: &[u32], room: &[u32; machine::ROOM], j: usize, k: usize) -> bool
    requires { (j < 2048) × (2 + 3 * k + 3 ≤ length old.now) }
    ensures { Says result (Same old.now (front room.now) j k) }
{
    tree::kind_at(old, k) == kind_of(room, j)
        && tree::size_at(old, k) == size_of(room, j)
        && (256 <= kind_of(room, j) || tree::number_at(old, k) == number_of(room, j))
}

// Whether record j is the old record at the shift w.
pub fn meets(old: &Old, room: &[u32; machine::ROOM], j: usize, w: u32) -> bool
    requires { j < 2048 }
    ensures { Says result (Met old.now.row.now (front room.now) old.now.nodes w j) }
{
    let Some(k) = (j + w as usize).checked_sub(SHIFT) else {
        return false;
    };
    k < old.nodes && same(old.row, room, j, k)
}
