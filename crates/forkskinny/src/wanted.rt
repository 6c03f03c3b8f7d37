// What a block call is asked for, and the half that it starts from.
ghost use Rattle.std.specs.Prelude.{◌≡◌};
ghost use Rattle.forkskinny.specs.ForkSkinny.{side_of, other_of};
ghost use Rattle.forkskinny.specs.Wanted.{want_named, half_of, half_named};

use crate::Branch;
use refusals::Refusal;

// The first result, the second, or both: forward these are half 0 and half 1, back the input block and the other half.
#[derive(Clone, Copy, Debug, PartialEq, Eq)]
pub enum Want {
    First,
    Second,
    Both,
}

impl TryFrom<u32> for Want {
    type Error = Refusal;

    ghost try_from_gives = { λ number named. named ≡ want_named number };

    fn try_from(number: u32) -> Result<Self, Refusal> {
        match number {
            0 => Ok(Want::First),
            1 => Ok(Want::Second),
            2 => Ok(Want::Both),
            _ => Err(Refusal::Unknown),
        }
    }
}

// The halves of a block.
#[derive(Clone, Copy, Debug, PartialEq, Eq)]
pub enum Half {
    Zero,
    One,
}

impl TryFrom<u32> for Half {
    type Error = Refusal;

    ghost try_from_gives = { λ number named. named ≡ half_named number };

    fn try_from(number: u32) -> Result<Self, Refusal> {
        match number {
            0 => Ok(Half::Zero),
            1 => Ok(Half::One),
            _ => Err(Refusal::Unknown),
        }
    }
}

impl Half {
    // The branch that gives a half.
    pub fn branch(self) -> Branch
        ensures { result ≡ side_of (half_of self) }
    {
        match self {
            Half::Zero => Branch::Near,
            Half::One => Branch::Far,
        }
    }

    pub fn other(self) -> Half
        ensures { half_of result ≡ other_of (half_of self) }
    {
        match self {
            Half::Zero => Half::One,
            Half::One => Half::Zero,
        }
    }
}
