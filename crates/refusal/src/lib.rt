// The refusals of document 01 ("Turned back by number") and of the requests of document 02, a variant and its number a
// rule.
#![tactic(auto)]

ghost use Rattle.std.specs.Prelude.{◌≡◌};
ghost use Rattle.refusal.specs.Number.{number_of};

#[derive(Clone, Copy, Debug, PartialEq, Eq)]
pub enum Refusal {
    SheetLength = 1,
    SheetBytes = 2,
    TooManyAtoms = 3,
    TooManyBonds = 4,
    SheetSize = 5,
    BondAtom = 6,
    SelfBond = 7,
    RepeatedBond = 8,
    Record = 9,
    PathEnd = 10,
    SameEnds = 11,
    Search = 12,
    MarkRoom = 13,
    MarkBytes = 14,
    MarkMolecule = 15,
    MarkKind = 16,
    MarkPlace = 17,
    MolfileLines = 18,
    UnknownSymbol = 19,
    TooManyNeighbours = 20,
    RingSize = 21,
    TooManyPaths = 26,
}

// The rule's number.
pub fn number(r: Refusal) -> u32
    ensures { result ≡ number_of r }
{
    r as u32
}
