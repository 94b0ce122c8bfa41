// The stages of an auction, and the calls that take it on.
ghost use Rattle.std.specs.Prelude.{◌≡◌, if◌then◌else◌, is_ok};
ghost use Rattle.ledger.specs.Turns.{allows, turned};

use super::auctions::Stage;

// A call that takes an auction to another stage.
#[derive(Clone, Copy, PartialEq, Eq, Debug)]
pub enum Turn {
    Seal,
    Award { price: u32 },
    Cancel,
}

// The stage of an auction does not allow the call.
#[derive(Clone, Copy, PartialEq, Eq, Debug)]
pub struct WrongStage;

impl Stage {
    // Takes the stage on, where it allows the call.
    pub fn turn(&mut self, turn: Turn) -> Result<(), WrongStage>
        ensures value { is_ok result ≡ allows self.old turn }
        ensures after { self.new ≡ (if is_ok result then turned turn else self.old) }
    {
        match (*self, turn) {
            (Stage::Open, Turn::Seal) => *self = Stage::Sealed,
            (Stage::Sealed, Turn::Award { price }) => *self = Stage::Awarded { price },
            (Stage::Open | Stage::Sealed, Turn::Cancel) => *self = Stage::Cancelled,
            _ => return Err(WrongStage),
        }
        Ok(())
    }
}
