// What C gets of a row that a pull finds.
ghost use Rattle.c_structs.specs.Structs.{row_for_c, pull_for_c};
ghost use Rattle.std.specs.Prelude.{◌≡◌};
ghost use Rattle.std.proofs.Math.Option.{some};
ghost use Rattle.rows.specs.Reading.{reading_of};
ghost use Rattle.rows.specs.Pull.{pull_gave};

use feed::RowNumber;
use rows::{RowPulled, RowRead};

// Rule 7.10: what a pull returns to C: 1 if there is a row, the row's number, its key and hop, and the place of the next pull.
#[repr(C)]
#[derive(Clone, Copy)]
pub struct WhelkRow {
    pub found: usize,
    pub number: usize,
    pub key: u64,
    pub hop: u16,
    pub next: usize,
}

// A row as C gets it. Of one that isn't good its number, and 0 for its key and hop.
fn row_for_c(r: RowRead, next: usize) -> WhelkRow
    ensures { result ≡ row_for_c (some (reading_of r)) next }
{
    match r {
        Ok(row) => WhelkRow {
            found: 1,
            number: RowNumber::Taken as usize,
            key: row.key,
            hop: row.hop,
            next,
        },
        Err(fault) => WhelkRow {
            found: 1,
            number: RowNumber::from(fault) as usize,
            key: 0,
            hop: 0,
            next,
        },
    }
}

// What a pull finds, as C gets it.
impl From<RowPulled> for WhelkRow {
    ghost from_gives = { λ p w. w ≡ pull_for_c (pull_gave p) };

    fn from(p: RowPulled) -> WhelkRow {
        match p.row {
            Some(read) => row_for_c(read, p.next),
            None => WhelkRow {
                found: 0,
                number: 0,
                key: 0,
                hop: 0,
                next: p.next,
            },
        }
    }
}
