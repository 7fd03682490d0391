// The structs that C gets of an import, a packing, an edit, a pull and a listing of reasons, and the number of an import's end (7.10,
// 18.6). It stands on the crates whose answers they are and is for `host` alone; any other answer that fits one number is `c_answers`'s.
#![tactic(auto)]

pub mod edits;
pub mod pulls;
pub mod reasons;

ghost use Rattle.std.specs.Prelude.{◌≡◌, []};
ghost use Rattle.feed.specs.Import.{end_number, counts_gave};
ghost use Rattle.segment.specs.Pack.{pack_gave};
ghost use Rattle.c_structs.specs.Structs.{counts_for_c, host_pack_gave};

use feed::{Counts, RowNumber};
use ground::Refusal;
use segment::Packed;

// Rule 7.10: what an import returns to C, its number and the eight counts.
#[repr(C)]
#[derive(Clone, Copy)]
pub struct WhelkCounts {
    pub number: usize,
    pub rows: usize,
    pub taken: usize,
    pub shape: usize,
    pub range: usize,
    pub hostbits: usize,
    pub replaced: usize,
    pub noroom: usize,
    pub zeros: usize,
}

// Rule 7.10: an import's number, and its counts, which are 0 on 12.
impl From<Result<Counts, Refusal>> for WhelkCounts {
    ghost from_gives = { λ r w. w ≡ counts_for_c (end_number r) (counts_gave r) };

    fn from(r: Result<Counts, Refusal>) -> WhelkCounts {
        let c = r.unwrap_or(Counts::default());
        WhelkCounts {
            number: number_of(r.map(|_| ())),
            rows: c.rows,
            taken: c.of[RowNumber::Taken as usize],
            shape: c.of[RowNumber::Shape as usize],
            range: c.of[RowNumber::Range as usize],
            hostbits: c.of[RowNumber::HostBits as usize],
            replaced: c.of[RowNumber::Replaced as usize],
            noroom: c.of[RowNumber::NoRoomLeft as usize],
            zeros: c.of[RowNumber::Zeros as usize],
        }
    }
}

// The number of an import's end.
pub fn number_of(end: Result<(), Refusal>) -> usize
    ensures { result ≡ end_number end }
{
    match end {
        Ok(()) => ground::DONE as usize,
        Err(e) => u32::from(e) as usize,
    }
}

// Rule 7.10: what a packing returns to C, its number, the width, and the counts of words and of hops.
#[repr(C)]
#[derive(Clone, Copy)]
pub struct WhelkPacked {
    pub number: usize,
    pub width: usize,
    pub words: usize,
    pub hops: usize,
}

// Rule 7.10: a packing's answer as C gets it. Rule 5.4: of a refused packing its number, and 0 for the rest.
impl From<Result<Packed, Refusal>> for WhelkPacked {
    ghost from_gives = { λ r w. host_pack_gave w [] [] [] ≡ pack_gave r [] [] [] };

    fn from(r: Result<Packed, Refusal>) -> WhelkPacked {
        match r {
            Ok(packed) => WhelkPacked {
                number: ground::DONE as usize,
                width: packed.width as usize,
                words: packed.words,
                hops: packed.hops,
            },
            Err(e) => WhelkPacked {
                number: u32::from(e) as usize,
                width: 0,
                words: 0,
                hops: 0,
            },
        }
    }
}
