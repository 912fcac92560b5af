// An update by edits of a caller's own type, listed by `edits::judged_list`; no call of the library lends such.
ghost use Rattle.std.specs.Prelude.{◌≡◌};
ghost use Rattle.edits.specs.Words.{edit};

use super::*;
use edits::{AsEdit, Edit};
use std::process::Abort;

// An edit that takes out and puts in at most 255 tokens.
#[derive(Clone, Copy)]
struct Narrow {
    place: u32,
    removed: u8,
    put: u8,
}

impl Narrow {
    fn new(place: u32, removed: u8, put: u8) -> Narrow {
        Narrow {
            place,
            removed,
            put,
        }
    }
}

impl From<Narrow> for Edit {
    ghost from_gives = { λ s e. edit e ≡ record { place = s.place; removed = s.removed; put = s.put } };

    fn from(narrow: Narrow) -> Edit {
        Edit {
            place: narrow.place,
            removed: u32::from(narrow.removed),
            put: u32::from(narrow.put),
        }
    }
}

impl AsEdit for Narrow {
    ghost stands_for = { λ s. record { place = s.place; removed = s.removed; put = s.put } };

    ghost converted = { λ s e h. h };
}

// A tree updated by such edits.
fn update_narrow(
    table: &[u8],
    old: &[u32],
    edits: &[Narrow],
    put: &[u32],
    tree: &mut [u32],
    room: &mut [u32],
) -> Answer {
    let n = begin(table, old, tree.len(), room);
    let m = edits::judged_list(table, old, edits, put, room, n);
    finish(table, old, put, tree, room, m)
}

// The update of an old tree of the house grammar answers the number, and the tree lent, all zeros, begins with `new` then.
fn ends(rt: &impl Abort, old: &[u32], edits: &[Narrow], put: &[u32], number: u32, new: &[u32]) {
    let table = house::house();
    let mut tree = [0; 6146];
    let mut room = [0; 16384];
    let a = update_narrow(&table, old, edits, put, &mut tree, &mut room);
    assert_eq!(rt; answers::number(a), number);
    assert!(rt; tree.starts_with(new));
}

// `m` and `m m`, numbered from 1.
const M: [u32; 14] = [4, 5, 257, 1, 1, 1, 2, 1, 259, 3, 2, 258, 4, 4];

const MM: [u32; 23] = [
    7, 8, 257, 1, 1, 1, 2, 1, 259, 3, 2, 258, 4, 4, 1, 5, 1, 259, 6, 2, 258, 7, 7,
];

// Document 01's examples of updates over `m` and `m m`.
#[test]
fn own_edits(rt: HostRuntime) {
    // `m`, no edits: same tree
    ends(&rt, &M, &[], &[], 0, &M);
    // `m`, an m put in at 1: numbers 1 to 4 stand, then 5, 6, 7, next 8
    ends(&rt, &M, &[Narrow::new(1, 0, 1)], &[1], 0, &MM);
    // `m m`, first removed
    ends(
        &rt,
        &MM,
        &[Narrow::new(0, 1, 0)],
        &[],
        0,
        &[4, 10, 257, 8, 1, 1, 5, 1, 259, 6, 2, 258, 9, 4],
    );
    // `m`, replaced by m: numbers 5 to 8
    ends(
        &rt,
        &M,
        &[Narrow::new(0, 1, 1)],
        &[1],
        0,
        &[4, 9, 257, 5, 1, 1, 6, 1, 259, 7, 2, 258, 8, 4],
    );
}

// A refused update leaves the tree as it was lent.
#[test]
fn own_edits_refused(rt: HostRuntime) {
    // a place before that of the edit in front of it
    ends(
        &rt,
        &M,
        &[Narrow::new(1, 0, 0), Narrow::new(0, 1, 0)],
        &[],
        6,
        &[0; 6146],
    );
    // a code that no edit puts in
    ends(&rt, &M, &[Narrow::new(0, 1, 0)], &[1], 6, &[0; 6146]);
    // a row that lacks its nodes, refused before the edits are looked at
    ends(&rt, &[4, 5], &[Narrow::new(0, 1, 0)], &[1], 5, &[0; 6146]);
}
