// Kept numbers: the numbers of an accepted new tree, by document 01's rule, and the tree written. The room holds the new tree's records;
// each gets a spot word, which says where in the old tree its piece stands. All is linear in the nodes.
#![tactic(auto)]

ghost use Rattle.std.specs.Prelude.{◌≡◌, ◌+◌, ◌-◌, ◌*◌, ◌≤◌, ◌<◌, length, get_or, drop, set};
ghost use Rattle.definitions.specs.Tree.{Row, size, NRow, erase};
ghost use Rattle.theory.specs.Check.Says.{Says};
ghost use Rattle.theory.specs.Numbers.Number.{judge, renumber};
ghost use Rattle.machine.specs.Room.{states_end};
ghost use Rattle.numbers.specs.Records.{front, kind_of, number_of, size_of, spot_of, Shape, Spots};
ghost use Rattle.numbers.specs.Given.{Given};
ghost use Rattle.numbers.specs.Copies.{Reaches, Frame, Copies, Stepped};
ghost use Rattle.numbers.specs.Back.{Backing};
ghost use Rattle.numbers.specs.Whole.{Alike, Whole};
ghost use Rattle.numbers.specs.Write.{news, inscribed};
ghost use Rattle.numbers.specs.Kept.{kept};
ghost use Rattle.numbers.specs.Renumber.{Numbers, Answers};

// the records, and when two of them are the same
mod records;

// the spot words
mod runs;

use records::Old;

// ---- kept numbers, backward

// Gives records a up to b the numbers of the old records at the shift w.
fn copy(old: &[u32], room: &mut [u32; machine::ROOM], a: usize, b: usize, w: u32)
    requires { (a ≤ b) × (b ≤ 2048) × Reaches old.now w a b }
    ensures { Copies old.now room.old a b w room.new }
{
    for i in a..b {
        room[3 * i + 1] = tree::number_at(old, i + w as usize - records::SHIFT);
    }
}

// One step back from record e: over a piece that stands in the old tree, which takes its numbers there; or over one record, whose number
// word stands.
fn back(old: &[u32], room: &mut [u32; machine::ROOM], e: usize) -> usize
    requires e_nonzero { (0 < e) × (e ≤ 2048) }
    requires e_bound { size_of (front room.old) (e - 1) ≤ e }
    requires reaches { 2 ≤ spot_of room.old (e - 1) → Reaches old.now (spot_of room.old (e - 1)) (e - size_of (front room.old) (e - 1)) e }
    ensures { Stepped old.now room.old e room.new result }
{
    let w = records::spot_of(room, e - 1);
    if w < 2 {
        return e - 1;
    }
    let a = e - records::size_of(room, e - 1);
    copy(old, room, a, e, w);
    a
}

// Gives each record the number that it keeps, by the spot words; 0 where it gets a new one. A step goes over a whole piece, so that no range
// names the places.
fn take_over(old: &Old, room: &mut [u32; machine::ROOM], n: usize)
    requires shape { Shape (front room.old) n }
    requires spots { Spots old.now.row.now (front room.old) old.now.nodes room.old n }
    ensures frame { Frame room.old room.new 0 }
    ensures backing { (r : NRow) (f : Row) → Given old.now.row.now room.old n r f → old.now.nodes ≡ size (erase r) → Backing n r f room.new 0 }
{
    let mut e = n;
    while 0 < e {
        e = back(old.row, room, e);
    }
}

// ---- the whole tree

// Whether record j is no token and is the old record j.
fn alike(old: &[u32], room: &[u32; machine::ROOM], j: usize) -> bool
    requires { (j < 2048) × (2 + 3 * j + 3 ≤ length old.now) }
    ensures { Says result (Alike old.now (front room.now) j) }
{
    256 <= records::kind_of(room, j) && records::same(old, room, j, j)
}

// Whether the new tree has no tokens and is the old tree.
fn whole(old: &Old, room: &[u32; machine::ROOM], n: usize) -> bool
    requires { n ≤ 2048 }
    ensures { Says result (Whole old.now.row.now (front room.now) old.now.nodes n) }
{
    old.nodes == n && (0..n).all(|j| alike(old.row, room, j))
}

// Gives each of the n records the number that it keeps; 0 where it gets a new one.
fn keep(old: &[u32], room: &mut [u32; machine::ROOM], n: usize)
    requires { (r : NRow) × ((f : Row) × Given old.now room.old n r f) }
    ensures numbers { (r : NRow) (f : Row)
        → Given old.now room.old n r f
        → Numbers (front room.new) n (get_or old.now 1 0) (renumber (judge r) r (get_or old.now 1 0) f) }
    ensures room_unchanged { drop states_end room.new ≡ drop states_end room.old }
{
    let tree = Old {
        row: old,
        nodes: tree::count_at(old),
    };
    if whole(&tree, room, n) {
        copy(old, room, 0, n, records::SHIFT as u32);
    } else {
        runs::spots(&tree, room, n);
        take_over(&tree, room, n);
    }
}

// ---- the tree written

// The number that record j keeps, if it keeps one: its number word is 0 where a new one is given.
fn kept(room: &[u32; machine::ROOM], j: usize) -> Option<u32>
    requires { j < 2048 }
    ensures { result ≡ kept (number_of (front room.now) j) }
{
    let number = records::number_of(room, j);
    if number == 0 { None } else { Some(number) }
}

// How many of the n records get a new number.
fn count_new(room: &[u32; machine::ROOM], n: usize) -> u32
    requires { n ≤ 2048 }
    ensures { result ≡ news (front room.now) n }
{
    (0..n).filter(|j| kept(room, *j).is_none()).count() as u32
}

// Writes record j with the number that it has.
fn put_record(tree: &mut [u32], room: &[u32; machine::ROOM], j: usize, number: u32)
    requires { (j < 2048) × (6146 ≤ length tree.old) }
    ensures { tree.new
        ≡ set (set (set tree.old (2 + 3 * j) (kind_of (front room.now) j)) (2 + 3 * j + 1) number) (2 + 3 * j + 2) (size_of (front room.now) j) }
{
    tree[2 + 3 * j] = records::kind_of(room, j) as u32;
    tree[2 + 3 * j + 1] = number;
    tree[2 + 3 * j + 2] = records::size_of(room, j) as u32;
}

// Writes the tree: the count, the next number raised by the new ones, and the n records.
fn write(tree: &mut [u32], room: &[u32; machine::ROOM], n: usize, next: u32, new: u32)
    requires { (6146 ≤ length tree.old) × (n ≤ 2048) × (new ≡ news (front room.now) n) × (next + new ≤ 4294967295) }
    ensures { tree.new ≡ inscribed next (front room.now) n tree.old }
{
    tree[0] = n as u32;
    tree[1] = next + new;
    let mut at = next;
    for j in 0..n {
        let number = kept(room, j);
        put_record(tree, room, j, number.unwrap_or(at));
        at += u32::from(number.is_none());
    }
}

// Gives the accepted new tree its numbers, and writes it; the tree as lent where the next number would be too large.
fn number_tree(old: &[u32], tree: &mut [u32], room: &mut [u32; machine::ROOM], n: usize) -> bool
    requires { (6146 ≤ length tree.old) × ((r : NRow) × ((f : Row) × Given old.now room.old n r f)) }
    ensures answers { (r : NRow) (f : Row)
        → Given old.now room.old n r f
        → Answers tree.old tree.new (renumber (judge r) r (get_or old.now 1 0) f) result }
    ensures room_unchanged { drop states_end room.new ≡ drop states_end room.old }
{
    keep(old, room, n);
    let new = count_new(room, n);
    let next = old[1];
    if next.checked_add(new).is_none() {
        return false;
    }
    write(tree, room, n, next, new);
    true
}

// Gives the accepted new tree its numbers, after the old tree, and writes it. Answers false, with the tree as lent, where the next number
// would exceed 4,294,967,295 (refusal 9). The room's words before `machine::FREE` are not kept.
pub fn finish(old: &[u32], tree: &mut [u32], room: &mut [u32], n: usize) -> bool
    requires { (6146 ≤ length tree.old) × (16384 ≤ length room.old) × ((r : NRow) × ((f : Row) × Given old.now room.old n r f)) }
    ensures answers { (r : NRow) (f : Row)
        → Given old.now room.old n r f
        → Answers tree.old tree.new (renumber (judge r) r (get_or old.now 1 0) f) result }
    ensures room_unchanged { drop states_end room.new ≡ drop states_end room.old }
{
    number_tree(old, tree, room.first_chunk_mut().unwrap(), n)
}
