// What document 01's small program prints, as a function on rows: the bytes of its standard input in, the bytes of its standard output
// out. specs/Program.antt says what they are.
#![tactic(auto)]

ghost use Rattle.std.specs.Prelude.{◌≡◌, [], ◌∷◌, ◌++◌, ◌+◌, ◌*◌, ◌≤◌, ◌<◌, length, take, get_or};
ghost use Rattle.theory.specs.Check.Says.{Says};
ghost use Rattle.theory.specs.Answers.{afresh};
ghost use Rattle.io.specs.Counts.{IsPrefixLen};
ghost use Rattle.lines.specs.Program.{whole_length, table_in, codes_in, first_in};
ghost use Rattle.lines.specs.Program.{decimal, part, node_line, node_lines, ok_line, no_line, lines, printed};
ghost use Rattle.lines.specs.Program.{two as twoAt};
ghost use Rattle.lines.specs.Put.{Put};

// ---- the input

// Two bytes, high first: as `sheet::word` has them of a sheet, which the input is not.
fn two(input: &[u8], at: usize) -> usize
    requires { at + 2 ≤ length input.now }
    ensures { (result ≡ twoAt input.now at) × (result < 65536) }
{
    usize::from(u16::from_be_bytes([input[at], input[at + 1]]))
}

// Four bytes, high first.
fn four(input: &[u8], at: usize) -> u32
    requires { at + 4 ≤ length input.now }
    ensures { result ≡ twoAt input.now at * 65536 + twoAt input.now (at + 2) }
{
    u32::from_be_bytes([input[at], input[at + 1], input[at + 2], input[at + 3]])
}

// Has the input as many bytes as its lengths call for?
fn whole(input: &[u8]) -> bool
    ensures { Says result (length input.now ≡ whole_length input.now) }
{
    let n = input.len();
    if n < 8 {
        return false;
    }
    let t = two(input, 0);
    n >= 8 + t && n == 8 + t + two(input, 2 + t)
}

// The bytes of a row as words, at the start of another.
fn spread(bytes: &[u8], codes: &mut [u32])
    requires { length bytes.now ≤ length codes.old }
    ensures { take (length bytes.now) codes.new ≡ bytes.now }
{
    for (i, b) in bytes.iter().enumerate() {
        codes[i] = u32::from(*b);
    }
}

// ---- the output. The row and the place stay two parameters: in a struct that holds the row by `&mut` each put would have to say besides
// that it holds the same row still, and how long that is.

// One byte.
fn put_byte(out: &mut [u8], at: usize, b: u8) -> usize
    requires { at < length out.old }
    ensures { Put out.old at (b ∷ []) out.new result }
{
    out[at] = b;
    at + 1
}

// All bytes of a text.
fn put_text(out: &mut [u8], at: usize, text: &[u8]) -> usize
    requires { at + length text.now ≤ length out.old }
    ensures { Put out.old at text.now out.new result }
{
    let next = at + text.len();
    out[at..next].copy_from_slice(text);
    next
}

// A number in decimal.
fn put_number(out: &mut [u8], at: usize, n: u32) -> usize
    requires { at + 10 ≤ length out.old }
    ensures { Put out.old at (decimal n) out.new result }
{
    let mut text = [0u8; 20];
    let k = io::decimal(u64::from(n), &mut text);
    put_text(out, at, &text[..k])
}

// A number in decimal, and the byte behind it.
fn put_part(out: &mut [u8], at: usize, n: u32, b: u8) -> usize
    requires { at + 11 ≤ length out.old }
    ensures { Put out.old at (part n b) out.new result }
{
    let next = put_number(out, at, n);
    put_byte(out, next, b)
}

// A node's line.
fn put_node(out: &mut [u8], at: usize, kind: u32, number: u32, size: u32) -> usize
    requires { at + 33 ≤ length out.old }
    ensures { Put out.old at (node_line kind number size) out.new result }
{
    let second = put_part(out, at, kind, b' ');
    let third = put_part(out, second, number, b' ');
    put_part(out, third, size, b'\n')
}

// The lines of a tree's first n nodes.
fn put_nodes(out: &mut [u8], at: usize, tree: &[u32], n: usize) -> usize
    requires { (2 + 3 * n ≤ length tree.now) × (at + 33 * n ≤ length out.old) }
    ensures { Put out.old at (node_lines tree.now n) out.new result }
{
    let mut next = at;
    for i in 0..n {
        next = put_node(out, next, tree[2 + 3 * i], tree[3 + 3 * i], tree[4 + 3 * i]);
    }
    next
}

// `ok`, `no`: two letters and a space, at the start.
fn put_word(out: &mut [u8], a: u8, b: u8) -> usize
    requires { 3 ≤ length out.old }
    ensures { Put out.old 0 (a ∷ b ∷ 32 ∷ []) out.new result }
{
    out[0] = a;
    out[1] = b;
    out[2] = b' ';
    3
}

// The lines of an accepted tree.
fn put_tree(out: &mut [u8], tree: &[u32]) -> usize
    requires { (get_or tree.now 0 0 ≤ 2048)
        × (6146 ≤ length tree.now)
        × (67609 ≤ length out.old) }
    ensures { Put out.old 0 (ok_line (get_or tree.now 0 0) (get_or tree.now 1 0) ++ node_lines tree.now (get_or tree.now 0 0)) out.new result }
{
    let n = tree[0];
    let word = put_word(out, b'o', b'k');
    let count = put_part(out, word, n, b' ');
    let line = put_part(out, count, tree[1], b'\n');
    put_nodes(out, line, tree, n as usize)
}

// A refusal's line.
fn put_refusal(out: &mut [u8], number: u32, place: u32) -> usize
    requires { 25 ≤ length out.old }
    ensures { Put out.old 0 (no_line number place) out.new result }
{
    let word = put_word(out, b'n', b'o');
    let next = put_part(out, word, number, b' ');
    put_part(out, next, place, b'\n')
}

// ---- the whole

// The lines for a whole input: it is read afresh.
fn read_whole(
    input: &[u8],
    codes: &mut [u32],
    tree: &mut [u32],
    room: &mut [u32],
    out: &mut [u8],
) -> usize
    requires { (length input.now ≡ whole_length input.now)
        × (65535 ≤ length codes.old)
        × (67609 ≤ length out.old) }
    ensures { Put out.old 0 (lines (afresh (table_in input.now) (codes_in input.now) (first_in input.now) tree.old room.old)) out.new result }
{
    let t = two(input, 0);
    let c = two(input, 2 + t);
    let from = 4 + t;
    let to = from + c;
    let first = four(input, to);
    spread(&input[from..to], codes);
    let behind = 2 + t;
    match blenkysnow::read_afresh(&input[2..behind], &codes[..c], first, tree, room) {
        Ok(_) => put_tree(out, tree),
        Err(refusal) => put_refusal(out, refusal.number(), refusal.place()),
    }
}

// What the small program prints for an input, at the start of `out`, and how many bytes it is. The other rows are to work in.
pub fn answer(
    input: &[u8],
    codes: &mut [u32; 65535],
    tree: &mut [u32; 6146],
    room: &mut [u32; 16384],
    out: &mut [u8; 67609],
) -> usize
    ensures prefix_len { IsPrefixLen result out.new }
    ensures out_after { take result out.new ≡ printed input.now tree.old room.old }
{
    if whole(input) {
        return read_whole(input, codes, tree, room, out);
    }
    put_refusal(out, 0, 0)
}
