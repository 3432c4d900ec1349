// An opening and a read in turn, by their numbers: 0, or a refusal.
#![tactic(auto)]

ghost use Rattle.std.specs.Prelude.{◌≡◌};
ghost use Rattle.in_turn.specs.InTurn.{first_refusal};

// The number of the first call that is refused, or the read's.
pub fn first_refusal(opened: u8, given: u8) -> u8
    ensures { result ≡ first_refusal opened given }
{
    if opened != 0 {
        return opened;
    }
    given
}
