// Sets gathered over the items of a state: all in one, or sorted into an array.
ghost use Rattle.std.specs.Prelude.{ℕ, ◌<◌};
ghost use Rattle.states.specs.Gathering.{Gathers, Sorts, Inside};

use crate::items::State;
use terminals::Terminals;

impl<'a> State<'a> {
    // What the sets of all items hold together.
    pub fn gather<F: Fn(usize) -> Terminals>(&self, set_of: F) -> Terminals
        requires { (i : ℕ) → i < self.now.n → F.pre set_of i }
        ensures { Gathers (F.post set_of) self.now.n result.bits }
    {
        let mut set = Terminals::EMPTY;
        for i in 0..self.n {
            set = set.join(set_of(i));
        }
        set
    }

    // The same by entries: each item puts a set in one entry, or nothing.
    pub fn sort<const W: usize, F: Fn(usize) -> Option<(usize, Terminals)>>(
        &self,
        put: F,
    ) -> [Terminals; W]
        requires pre { (i : ℕ) → i < self.now.n → F.pre put i }
        requires inside { (i : ℕ) (o : _) → i < self.now.n → F.post put i o → Inside W o }
        ensures { Sorts (F.post put) W self.now.n result }
    {
        let mut sets = [Terminals::EMPTY; W];
        for i in 0..self.n {
            if let Some((q, set)) = put(i) {
                sets[q] = sets[q].join(set);
            }
        }
        sets
    }
}
