// The cases worked by hand.
ghost use Rattle.rules.specs.Worked.{WorkedByHand};

// The rules give what was worked out by hand, of all crates.
pub fn worked_by_hand()
    ensures { WorkedByHand }
{
    auction::worked_by_hand();
    rights::worked_by_hand();
    account::worked_by_hand();
}
