#![tactic(auto)]
// The refusals of document 01, "Refused, by place", and of document 02.
ghost use Rattle.std.specs.Prelude.{◌≡◌};
ghost use Rattle.refusal.specs.Refusal.{number_of, values_of, place_values};

// What a call is refused by. 5 and 6 carry the row and the column, from 1, of the entry that is refused.
#[derive(Clone, Copy, Debug, PartialEq, Eq)]
pub enum Refusal {
    Order,
    Sweeps,
    Length,
    Code,
    NotFinite(usize, usize),
    NotMirrored(usize, usize),
    TooShort,
    Spoiled,
    NoRoot,
    SharedCode,
}

// The number that documents 01 and 02 give the refusal.
impl From<Refusal> for u8 {
    ghost from_gives = { λ refusal number. number ≡ number_of refusal };

    fn from(refusal: Refusal) -> u8 {
        match refusal {
            Refusal::Order => 1,
            Refusal::Sweeps => 2,
            Refusal::Length => 3,
            Refusal::Code => 4,
            Refusal::NotFinite(_, _) => 5,
            Refusal::NotMirrored(_, _) => 6,
            Refusal::TooShort => 7,
            Refusal::Spoiled => 8,
            Refusal::NoRoot => 9,
            Refusal::SharedCode => 10,
        }
    }
}

impl Refusal {
    // The row and the column that the refusal carries.
    pub fn place(self) -> Option<(usize, usize)>
        ensures { place_values result ≡ values_of self }
    {
        match self {
            Refusal::NotFinite(row, column) => Some((row, column)),
            Refusal::NotMirrored(row, column) => Some((row, column)),
            _ => None,
        }
    }
}
