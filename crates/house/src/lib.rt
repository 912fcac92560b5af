// The house table as one constant of 320 bytes. Its acceptance is shown once over the whole of it, in the theory
// (Check/HouseAccepted): what is lent here is that very table.
#![tactic(auto)]

ghost use Rattle.std.specs.Prelude.{◌≡◌};
ghost use Rattle.definitions.specs.House.{house};
ghost use Rattle.definitions.specs.States.{Accepted};

// The merged table of the house grammar: 7 states, 17 items.
pub const HOUSE: [u8; 320] = [
    76, 82, 84, 0, 1, 4, 3, 5, 7, 0, 1, 129, 0, 0, 0, 0, 0, 0, 0, 1, 0, 0, 0, 0, 0, 0, 0, 0, 0, 1,
    2, 129, 130, 0, 0, 0, 0, 0, 0, 2, 1, 1, 0, 0, 0, 0, 0, 0, 0, 2, 3, 2, 129, 3, 0, 0, 0, 0, 0, 2,
    1, 2, 1, 2, 1, 0, 0, 0, 1, 1, 2, 1, 3, 0, 0, 2, 3, 2, 3, 2, 3, 2, 3, 0, 0, 2, 1, 2, 1, 2, 1, 2,
    2, 2, 2, 2, 2, 2, 2, 0, 0, 1, 2, 1, 3, 1, 6, 2, 4, 2, 4, 2, 4, 2, 4, 255, 1, 255, 255, 255, 4,
    255, 255, 255, 255, 5, 255, 255, 255, 255, 255, 255, 4, 255, 255, 255, 0, 3, 0, 0, 0, 0, 0, 0,
    0, 0, 0, 1, 1, 0, 0, 0, 0, 0, 0, 0, 0, 7, 2, 0, 0, 0, 0, 0, 0, 0, 0, 7, 0, 4, 0, 1, 0, 0, 0, 0,
    0, 0, 0, 1, 2, 1, 0, 0, 0, 0, 0, 0, 0, 7, 3, 0, 0, 0, 0, 0, 0, 0, 0, 7, 4, 0, 0, 0, 0, 0, 0, 0,
    0, 7, 0, 1, 3, 1, 0, 0, 0, 0, 0, 0, 0, 15, 0, 3, 1, 0, 0, 0, 0, 0, 0, 0, 0, 14, 2, 0, 0, 0, 0,
    0, 0, 0, 0, 14, 4, 1, 0, 0, 0, 0, 0, 0, 0, 15, 0, 1, 2, 2, 0, 0, 0, 0, 0, 0, 0, 15, 0, 4, 2, 1,
    0, 0, 0, 0, 0, 0, 0, 14, 3, 0, 0, 0, 0, 0, 0, 0, 0, 14, 4, 0, 0, 0, 0, 0, 0, 0, 0, 14, 4, 2, 0,
    0, 0, 0, 0, 0, 0, 15, 0, 1, 4, 3, 0, 0, 0, 0, 0, 0, 0, 15,
];

// The whole table, by value: the definitions' house table, which is accepted.
pub fn house() -> [u8; 320]
    ensures is { result ≡ house }
    ensures taken { Accepted result }
{
    HOUSE
}
