// Why a call is refused, and the number that a caller is told of it. Every number has its one reason; 0 says that a call was done.
#![tactic(auto)]

ghost use Rattle.std.specs.Prelude.{◌≡◌};
ghost use Rattle.refusals.specs.Refusal.{number_of};

// The rounds of a forged run are told beside its number: they are those of a success.
#[derive(Clone, Copy, Debug, PartialEq, Eq)]
pub enum Refusal {
    Unknown,
    Key,
    Header,
    Short,
    Room,
    Forged(u32),
    Nonce,
    Body,
    Job,
    Blank,
}

impl From<Refusal> for u32 {
    ghost from_gives = { λ refusal number. number ≡ number_of refusal };

    fn from(refusal: Refusal) -> u32 {
        match refusal {
            Refusal::Unknown => 1,
            Refusal::Key => 2,
            Refusal::Header => 3,
            Refusal::Short => 4,
            Refusal::Room => 5,
            Refusal::Forged(_) => 6,
            Refusal::Nonce => 7,
            Refusal::Body => 8,
            Refusal::Job => 9,
            Refusal::Blank => 10,
        }
    }
}
