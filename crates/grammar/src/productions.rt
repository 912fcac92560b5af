// The grammar of a sheet: its productions by value, beside the sheet. It is built once, and lent by reference from there on.
ghost use Rattle.std.specs.Prelude.{◌≡◌, ◌+◌, ◌*◌, ◌≤◌, ◌<◌, length};
ghost use Rattle.definitions.specs.Sheet.{P, left, len, symbol, Layout};
ghost use Rattle.sheet.specs.Once.{Layout-prop};
ghost use Rattle.grammar.specs.Productions.{Small, Made, Held, Right};

use crate::production::Production;

// A sheet well laid out, and its productions by value. Memory is fixed: the values past the last production are NONE.
#[derive(Drop)]
pub struct Grammar<'a> {
    pub sheet: &'a [u8],
    pub productions: [Production; 200],
    ghost laid: { Layout sheet.now } by { Layout-prop sheet.now },
    ghost held: { Held sheet.now productions },
}

// Production p of a sheet.
fn production_of(t: &[u8], p: usize) -> Production
    requires within { 9 + 10 * p + 10 ≤ length t.now }
    requires short { len t.now p ≤ 8 }
    ensures { Made t.now p result }
{
    let at = 11 + 10 * p;
    let mut symbols = [0; 8];
    symbols.copy_from_slice(&t[at..at + 8]);
    Production {
        left: sheet::left(t, p),
        len: sheet::len(t, p),
        symbols,
    }
}

impl Grammar<'_> {
    // The grammar of a sheet well laid out.
    pub fn new(sheet: &[u8]) -> Grammar<'_>
        requires { Layout sheet.now }
        ensures { result.sheet.now ≡ sheet.now }
    {
        let mut productions = [Production::NONE; 200];
        for p in 0..sheet::productions_of(sheet) {
            productions[p] = production_of(sheet, p);
        }
        Grammar { sheet, productions }
    }

    // How many productions it has.
    pub fn count(&self) -> usize
        ensures { (result ≡ P self.now.sheet.now) × (result ≤ 200) }
    {
        sheet::productions_of(self.sheet)
    }

    // The left side of production p, a nonterminal.
    pub fn left(&self, p: usize) -> u8
        requires { p < P self.now.sheet.now }
        ensures { (result ≡ left self.now.sheet.now p) × (result < 64) }
    {
        self.productions[p].left
    }

    // The length of its right side.
    pub fn len(&self, p: usize) -> usize
        requires { p < P self.now.sheet.now }
        ensures { (result ≡ len self.now.sheet.now p) × (result ≤ 8) }
    {
        usize::from(self.productions[p].len)
    }

    // Symbol k of its right side.
    pub fn symbol(&self, p: usize, k: usize) -> u8
        requires { (p < P self.now.sheet.now) × (k < len self.now.sheet.now p) }
        ensures { (result ≡ symbol self.now.sheet.now p k) × Small result }
    {
        self.productions[p].symbols[k]
    }

    // Its right side.
    pub fn right(&self, p: usize) -> &[u8]
        requires { p < P self.now.sheet.now }
        ensures { Right self.now.sheet.now p result.now }
    {
        let productions = &self.productions;
        productions[p].right()
    }
}
