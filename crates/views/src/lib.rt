// The part of a caller's room that an answer speaks of.
#![tactic(auto)]

ghost use Rattle.std.specs.Prelude.{◌≡◌};
ghost use Rattle.views.specs.View.{view_of};

// The part of the room that an answer speaks of; after a refusal, or with a length above the room's, the empty part. The room is lent
// to be read, so that no byte of it can change. (It takes the number as a caller was told it: document 01 gives the view call so.)
pub fn view(number: u32, length: usize, room: &[u8]) -> &[u8]
    ensures { result.now ≡ view_of number length room.now }
{
    if number != 0 {
        return &room[..0];
    }
    if room.len() < length {
        return &room[..0];
    }
    &room[..length]
}
