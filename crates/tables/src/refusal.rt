// The refusals, with their numbers: the table "Causes and numbers". The specification has the numbers in specs/Refusals.
ghost use Rattle.std.specs.Prelude.{◌≡◌};
ghost use Rattle.tables.specs.Refusals.{number_of, number_in};

#[derive(Clone, Copy, PartialEq, Eq)]
pub enum Refusal {
    Unusable = 1,
    TooLong = 2,
    Broken = 3,
    NoLoads = 4,
    OutOfRange = 5,
    Full = 6,
    SameRule = 7,
    TooFewCells = 8,
    NoneFits = 9,
    NotAllowed = 10,
    HasChildren = 11,
    NoPlan = 12,
    NotAPage = 13,
    KindsInUse = 14,
    TooPoor = 15,
    NotCarried = 16,
    ShortList = 17,
}

impl From<Refusal> for u8 {
    ghost from_gives = { λ refusal n. n ≡ number_of refusal };

    fn from(refusal: Refusal) -> u8 {
        refusal as u8
    }
}

impl From<Refusal> for u32 {
    ghost from_gives = { λ refusal n. n ≡ number_of refusal };

    fn from(refusal: Refusal) -> u32 {
        refusal as u32
    }
}

// The number that tells of a request: 0 where it is accepted, else that of its refusal.
pub fn number_in<T: Copy>(told: Result<T, Refusal>) -> u8
    ensures { result ≡ number_in told }
{
    match told {
        Ok(_) => 0,
        Err(refusal) => u8::from(refusal),
    }
}
