// Document 01's small program: standard input whole, the lines that `lines::answer` makes of it, standard output. The longest input that
// is not too long has 131,078 bytes; one byte more is read, so that a longer one is seen to be too long.
#![tactic(auto)]

fn main() {
    // two lengths, a table and codes of 65,535 bytes each, four bytes, and one byte more
    let mut input = [0u8; 131079];
    let n = io::read_full(0, &mut input);
    let mut codes = [0u32; 65535];
    let mut tree = [0u32; 6146];
    let mut room = [0u32; 16384];
    // 25 bytes of the first line at most, and 33 for each of 2,048 nodes
    let mut out = [0u8; 67609];
    let k = lines::answer(&input[..n], &mut codes, &mut tree, &mut room, &mut out);
    io::write_all(1, &out[..k]);
}
