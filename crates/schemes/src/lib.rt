// The table of schemes. Nothing else counts them.
#![tactic(auto)]

pub mod checks;

ghost use Rattle.std.specs.Prelude.{◌≡◌};
ghost use Rattle.schemes.specs.Schemes.{scheme_of};

use ciphers::Cipher;
use states::Kind;

// A scheme: cipher and mode, bytes of its key and nonce, and the most bytes of a header and of a body.
#[derive(Clone, Copy)]
pub struct Scheme {
    pub cipher: Cipher,
    pub kind: Kind,
    pub key: usize,
    pub nonce: usize,
    pub header: usize,
    pub body: usize,
}

// The scheme that a number names.
#[tactic(auto, unfolding(crate::specs::Schemes::scheme_of))]
pub fn scheme_of(number: u32) -> Option<Scheme>
    ensures { result ≡ scheme_of number }
{
    // A row: cipher, mode, bytes of the nonce, and the most bytes of a header and of a body.
    let (cipher, kind, nonce, header, body) = match number {
        1 => (Cipher::N64T192, Kind::Paef, 6, 65528, 65528),
        2 => (Cipher::N128T256, Kind::Paef, 14, 131056, 131056),
        3 => (Cipher::N128T256, Kind::Saef, 15, 1048576, 1048576),
        4 => (Cipher::N64T192, Kind::Umbreon, 6, 131040, 262136),
        5 => (Cipher::N64T192, Kind::Jolteon, 6, 131040, 262136),
        6 => (Cipher::N128T256, Kind::Umbreon, 14, 262080, 524272),
        7 => (Cipher::N128T256, Kind::Jolteon, 14, 262080, 524272),
        _ => return None,
    };
    Some(Scheme {
        cipher,
        kind,
        key: 16, // under each
        nonce,
        header,
        body,
    })
}
