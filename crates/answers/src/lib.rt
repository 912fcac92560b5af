// What a call of document 01 answers: the counts of an accepted call, or a refusal, with a case for each row of "Numbers of refusal".
// The number, place and counts that the document has for each case are said once, by `value_of` of specs/Values.antt.
#![tactic(auto)]

ghost use Rattle.std.specs.Prelude.{◌≡◌};
ghost use Rattle.definitions.specs.Answers.{counts_of as countsIn};
ghost use Rattle.answers.specs.Values.{counts_of, value_of, refusal_of, number_of, place_of};

// The five counts of an accepted call.
#[derive(Clone, Copy, PartialEq, Eq, Debug, Default)]
pub struct Counts {
    pub lefts: u32,
    pub rights: u32,
    pub wholes: u32,
    pub shifts: u32,
    pub reductions: u32,
}

// Why a call is refused.
#[derive(Clone, Copy, PartialEq, Eq, Debug)]
pub enum Refusal {
    // 1: the tree to write or the room is too small
    Small,
    // 2: table layout or range wrong
    Layout,
    // 3: a grammar rule broken
    Grammar,
    // 4: a state condition broken
    States,
    // 5: old tree not in order
    OldTree,
    // 6: codes, first number or edits break their rules
    Text,
    // 7: action is error, with the count of tokens shifted
    NoAction(u32),
    // 8: no room
    NoRoom,
    // 10: a reduction pops below the bottom or finds no goto
    NoGoto,
    // 9: the numbers run out
    NoNumber,
}

// An answer: accepted with the counts, or refused.
pub type Answer = Result<Counts, Refusal>;

impl Refusal {
    // The document's number.
    pub fn number(self) -> u32
        ensures { result ≡ number_of (refusal_of self) }
    {
        match self {
            Refusal::Small => 1,
            Refusal::Layout => 2,
            Refusal::Grammar => 3,
            Refusal::States => 4,
            Refusal::OldTree => 5,
            Refusal::Text => 6,
            Refusal::NoAction(_) => 7,
            Refusal::NoRoom => 8,
            Refusal::NoGoto => 10,
            Refusal::NoNumber => 9,
        }
    }

    // The document's place: only refusal 7 has one other than 0.
    pub fn place(self) -> u32
        ensures { result ≡ place_of (refusal_of self) }
    {
        match self {
            Refusal::NoAction(i) => i,
            _ => 0,
        }
    }
}

// The number of the refusal, 0 for an accepted call.
pub fn number(a: Answer) -> u32
    ensures { result ≡ number_of (value_of a) }
{
    match a {
        Ok(_) => 0,
        Err(e) => e.number(),
    }
}

// The place of the refusal, 0 for an accepted call.
pub fn place(a: Answer) -> u32
    ensures { result ≡ place_of (value_of a) }
{
    match a {
        Ok(_) => 0,
        Err(e) => e.place(),
    }
}

// The five counts: zeros for a refusal.
pub fn counts_of(a: Answer) -> Counts
    ensures { counts_of result ≡ countsIn (value_of a) }
{
    a.unwrap_or_default()
}
