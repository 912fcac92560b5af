// A production by value: one row of document 01.
ghost use Rattle.std.specs.Prelude.{◌≡◌, ◌≤◌, take};

// A production: its left side, the length of its right side, and the eight symbols of its row, as document 01 has them. The first symbols
// are the right side.
#[derive(Clone, Copy)]
pub struct Production {
    pub left: u8,
    pub len: u8,
    pub symbols: [u8; 8],
    ghost short: { len ≤ 8 },
}

impl Production {
    // A production that no grammar has: all its bytes are 0.
    pub const NONE: Production = Production {
        left: 0,
        len: 0,
        symbols: [0; 8],
    };

    // Its right side.
    pub fn right(&self) -> &[u8]
        ensures { result.now ≡ take self.now.len self.now.symbols }
    {
        &self.symbols[..usize::from(self.len)]
    }
}
