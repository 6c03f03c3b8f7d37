// The checks, on lengths alone, in the one order that holds.
ghost use Rattle.std.specs.Prelude.{◌≡◌, ◌≤◌, IfErr};
ghost use Rattle.refusals.specs.Refusal.{rounds_of};
ghost use Rattle.schemes.specs.Schemes.{Fits};
ghost use Rattle.schemes.specs.Checks.{blank, check_of, number_in};

use crate::Scheme;
use refusals::Refusal;
use states::takes_blank;

// What a call is judged by. short: the run is shorter than a block; more: by how much the output is longer than the body.
#[derive(Clone, Copy)]
pub struct Lengths {
    pub key: usize,
    pub nonce: usize,
    pub header: usize,
    pub body: usize,
    pub short: bool,
    pub more: usize,
    pub room: usize,
}

impl Scheme {
    // Whether header and body are both empty, under a mode that has no run for them.
    #[tactic(auto, unfolding(crate::specs::Checks::blank))]
    fn is_blank(&self, header: usize, body: usize) -> bool
        ensures { result ≡ blank self.now header body }
    {
        !takes_blank(self.kind) && body == 0 && header == 0
    }

    // Refused with the first check that applies.
    #[tactic(auto, unfolding(crate::specs::Checks::check_of))]
    pub fn check(&self, of: Lengths) -> Result<(), Refusal>
        requires { Fits self.now × (of.more ≤ 16) }
        ensures number { number_in result ≡ check_of self.now of.key of.nonce of.header of.body of.short of.more of.room }
        ensures unworked { IfErr result (λ refusal. rounds_of refusal ≡ 0) }
    {
        if of.key != self.key {
            return Err(Refusal::Key);
        }
        if of.nonce != self.nonce {
            return Err(Refusal::Nonce);
        }
        if self.header < of.header {
            return Err(Refusal::Header);
        }
        if self.body < of.body {
            return Err(Refusal::Body);
        }
        if of.short {
            return Err(Refusal::Short);
        }
        if of.room < of.body + of.more {
            return Err(Refusal::Room);
        }
        if self.is_blank(of.header, of.body) {
            return Err(Refusal::Blank);
        }
        Ok(())
    }
}
