// Bytes in a room that a caller lends, and what is wrong with what a caller lends. specs/ says what a call leaves in a room; the functions are in `store` and `store_shift`.
#![tactic(auto)]

ghost use Rattle.std.specs.Prelude.{◌≡◌};
ghost use Rattle.room.specs.Room.{no_room_number, lent_number};

// What is to be put has no place in the room.
#[derive(Clone, Copy, Debug, PartialEq, Eq)]
pub struct NoRoom;

// A store that has not its length, or a record out of its bounds.
#[derive(Clone, Copy, Debug, PartialEq, Eq)]
pub enum LentError {
    WrongStore,
    OutOfBounds,
}

impl From<NoRoom> for u8 {
    ghost from_gives = { λ _ n. n ≡ no_room_number };

    fn from(_error: NoRoom) -> u8 {
        7
    }
}

impl From<LentError> for u8 {
    ghost from_gives = { λ error n. n ≡ lent_number error };

    fn from(error: LentError) -> u8 {
        match error {
            LentError::WrongStore => 7,
            LentError::OutOfBounds => 8,
        }
    }
}
