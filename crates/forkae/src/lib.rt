// The modes of the Forkcipher paper (001), block by block.
#![tactic(auto)]

pub mod paef;
pub mod saef;

pub use paef::Paef;
pub use saef::Saef;
