// The states of a sheet and their items: where they lie, what an item is, the one with a production and a dot, and where it leads.
ghost use Rattle.std.specs.Prelude.{◌≡◌, ◌+◌, ◌*◌, ◌≤◌, ◌<◌, length};
ghost use Rattle.definitions.specs.Sheet.{P, S, len, item_at, prod, dot, ahead, IsSymbol, Layout};
ghost use Rattle.theory.specs.Check.Says.{Says};
ghost use Rattle.states.specs.Places.{Lies, Lies-prop, Starts, key};
ghost use Rattle.states.specs.Finding.{Finds};
ghost use Rattle.states.specs.Items.{Reads, Target, shift_of};
ghost use Rattle.states.specs.Gathering.{Nonterminal};

use grammar::first::FirstSets;
use terminals::Terminals;

// ---- all states

// The places of the states, and the sheet's end.
pub fn starts_of(t: &[u8]) -> [u32; 201]
    requires { Layout t.now }
    ensures { Starts t.now result }
{
    let mut starts = [0; 201];
    let n = sheet::states_of(t);
    let mut at = sheet::items_at(t);
    starts[0] = at as u32;
    for s in 0..n {
        at = sheet::next_state(t, at);
        starts[s + 1] = at as u32;
    }
    starts
}

// The states of a sheet, by their places.
#[derive(Drop)]
pub struct States<'a> {
    // FIRST of its grammar, with the grammar and the sheet
    pub firsts: &'a FirstSets<'a>,
    // where each state stands, and the sheet's end
    starts: [u32; 201],
    ghost places: { Starts firsts.now.grammar.now.sheet.now starts },
}

impl<'a> States<'a> {
    ghost use Rattle.states.specs.View.{sheet_of};

    // All states of the sheet.
    pub fn new(firsts: &'a FirstSets<'a>) -> States<'a>
        ensures { result.firsts.now ≡ firsts.now }
    {
        States {
            firsts,
            starts: starts_of(firsts.grammar.sheet),
        }
    }

    // State s.
    pub fn state(&'a self, s: usize) -> State<'a>
        requires { s < S (sheet_of self.now) }
        ensures states { result.states.now ≡ self.now }
        ensures number { result.s ≡ s }
    {
        let at = self.starts[s] as usize;
        let n = sheet::count(self.firsts.grammar.sheet, at);
        State {
            states: self,
            s,
            at,
            n,
        }
    }
}

// ---- a state

// A state of a sheet well laid out.
#[derive(Clone, Copy)]
pub struct State<'a> {
    // all states, this one among them
    pub states: &'a States<'a>,
    // its number
    pub s: usize,
    // its place in the sheet
    pub at: usize,
    // the count of its items
    pub n: usize,
    pub ghost lies: { Lies states.now.firsts.now.grammar.now.sheet.now s at n } by { Lies-prop states.now.firsts.now.grammar.now.sheet.now s at n },
}

impl<'a> State<'a> {
    ghost use Rattle.states.specs.View.{sheet};

    // The place of item i.
    fn item_at(&self, i: usize) -> usize
        requires { i < self.now.n }
        ensures { let t = sheet self.now in (result ≡ item_at t self.now.s i) × (result + 10 ≤ length t) }
    {
        self.at + (2 + 10 * i)
    }

    // The production of item i.
    pub fn prod(&self, i: usize) -> usize
        requires { i < self.now.n }
        ensures { let t = sheet self.now in (result ≡ prod t self.now.s i) × (result < P t) × (result < 200) }
    {
        usize::from(sheet::prod(self.states.firsts.grammar.sheet, self.item_at(i)))
    }

    // Its dot.
    pub fn dot(&self, i: usize) -> usize
        requires { i < self.now.n }
        ensures { let t = sheet self.now in (result ≡ dot t self.now.s i) × (result ≤ len t (prod t self.now.s i)) × (result ≤ 8) }
    {
        usize::from(sheet::dot(self.states.firsts.grammar.sheet, self.item_at(i)))
    }

    // Its set of lookahead terminals.
    pub fn ahead(&self, i: usize) -> Terminals
        requires { i < self.now.n }
        ensures { result.bits ≡ ahead (sheet self.now) self.now.s i }
    {
        sheet::ahead(self.states.firsts.grammar.sheet, self.item_at(i))
    }

    // The number by which the items of a state rise.
    fn key(&self, i: usize) -> usize
        requires { i < self.now.n }
        ensures { result ≡ key (sheet self.now) self.now.s i }
    {
        16 * self.prod(i) + self.dot(i)
    }

    // ---- find an item

    // The item (p,d), by halves, since items rise. By hand: the library searches a slice of items, and these stand in the sheet's
    // bytes, ten bytes each (document 01, "The table sheet").
    pub fn find(&self, p: usize, d: usize) -> Option<usize>
        requires { (p < 200) × (d < 16) }
        ensures { Finds (sheet self.now) self.now.s p d result }
    {
        let want = 16 * p + d;
        let mut lo: usize = 0;
        let mut hi = self.n;
        while lo < hi {
            let mid = lo + (hi - lo) / 2;
            let key = self.key(mid);
            if key == want {
                return Some(mid);
            }
            if key < want {
                lo = mid + 1;
            } else {
                hi = mid;
            }
        }
        None
    }

    // ---- what stands after a dot, and where it leads

    // The symbol after the dot of item i; none where the item is complete.
    pub fn after(&self, i: usize) -> Option<u8>
        requires { i < self.now.n }
        ensures { Reads (sheet self.now) self.now.s i result }
    {
        let p = self.prod(i);
        let d = self.dot(i);
        if d < self.states.firsts.grammar.len(p) {
            Some(self.states.firsts.grammar.symbol(p, d))
        } else {
            None
        }
    }

    // The nonterminal after it.
    pub fn nonterminal(&self, i: usize) -> Option<u8>
        requires { i < self.now.n }
        ensures { Nonterminal (sheet self.now) self.now.s i result }
    {
        match self.after(i) {
            Some(x) if x >= 128 => Some(x - 128),
            _ => None,
        }
    }

    // Is item i complete?
    pub fn complete(&self, i: usize) -> bool
        requires { i < self.now.n }
        ensures { let t = sheet self.now in Says result (dot t self.now.s i ≡ len t (prod t self.now.s i)) }
    {
        self.dot(i) == self.states.firsts.grammar.len(self.prod(i))
    }

    // The target of the transition on the symbol x.
    pub fn target(&self, x: u8) -> Option<usize>
        requires { IsSymbol (sheet self.now) x }
        ensures { Target (sheet self.now) self.now.s x result }
    {
        let t = self.states.firsts.grammar.sheet;
        if x < 128 {
            return shift_of(sheet::action(t, self.s, usize::from(x)));
        }
        match sheet::goto_byte(t, self.s, usize::from(x - 128)) {
            255 => None,
            u => Some(usize::from(u)),
        }
    }
}

// Where a shift leads, by its action word; nowhere any other action.
pub fn shift_of(w: u32) -> Option<usize>
    ensures { result ≡ shift_of w }
{
    if (256..512).contains(&w) {
        Some((w - 256) as usize)
    } else {
        None
    }
}
