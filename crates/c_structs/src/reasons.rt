// What C gets of a listing of reasons.
ghost use Rattle.c_structs.specs.Structs.{why_gave_c, why_for_c};
ghost use Rattle.std.specs.Prelude.{◌≡◌, []};
ghost use Rattle.why.specs.Why.{why_gave};

use ground::Refusal;
use why::Reason;

// Rule 18.6: what a listing returns to C: its number, how many places it listed, and the place of the row that decides.
#[repr(C)]
#[derive(Clone, Copy)]
pub struct WhelkReason {
    pub number: usize,
    pub listed: usize,
    pub place: usize,
}

// No row decides: a number, and 0 for the rest.
fn no_row(number: u32) -> WhelkReason
    ensures { (result.number ≡ number) × (result.listed ≡ 0) × (result.place ≡ 0) }
{
    WhelkReason {
        number: number as usize,
        listed: 0,
        place: 0,
    }
}

// Rule 18.6: a reason as C gets it.
impl From<Result<Option<Reason>, Refusal>> for WhelkReason {
    ghost from_gives = { λ r w. why_gave_c w [] ≡ why_for_c (why_gave r []) };

    fn from(r: Result<Option<Reason>, Refusal>) -> WhelkReason {
        match r {
            Ok(Some(reason)) => WhelkReason {
                number: ground::DONE as usize,
                listed: reason.listed,
                place: reason.place,
            },
            Ok(None) => no_row(ground::DONE),
            Err(e) => no_row(u32::from(e)),
        }
    }
}
