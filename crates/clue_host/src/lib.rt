// The C interface of the hints: entries built, looked up with a clue, and asked quickly, over memory that the host lends, each with one
// number or one plain struct back. It is a product of its own beside `host`; `clue_host_c` exports the entries to C, under these names.
#![tactic(auto)]

ghost use Rattle.clue_host.specs.Exports.{host_entries_gave, hint_for_c, quick_for_c};
ghost use Rattle.std.specs.Prelude.{◌≡◌, []};
ghost use Rattle.routes.specs.Row.{list_lent};
ghost use Rattle.entries.specs.Entries.{entries_lent};
ghost use Rattle.clue.specs.Build.{entries_gave, build_entries};
ghost use Rattle.clue.specs.Lookup.{hint_gave, hint_lookup};
ghost use Rattle.clue.specs.Quick.{quick_gave, quick_lookup};

use clue::{Hinted, Refusal};

// Rule 19.8: what a build of entries returns to C, its number and how many entries there are.
#[repr(C)]
#[derive(Clone, Copy)]
pub struct WhelkEntries {
    pub number: usize,
    pub count: usize,
}

// Rule 19.8: a build as C gets it. Rule 5.4: of a refusal the number, and 0 for the count.
impl From<Result<usize, Refusal>> for WhelkEntries {
    ghost from_gives = { λ r w. host_entries_gave w [] [] [] ≡ entries_gave r [] [] [] };

    fn from(r: Result<usize, Refusal>) -> WhelkEntries {
        match r {
            Ok(count) => WhelkEntries { number: 0, count },
            Err(e) => WhelkEntries {
                number: u64::from(e) as usize,
                count: 0,
            },
        }
    }
}

// Rules 19.3 and 19.4: the entries of a lent list for lent clues, into lent memory.
pub fn whelk_clue_build(
    count: usize,
    keys: &[u64],
    hops: &[u16],
    lengths: &[u8],
    addresses: &[u32],
    ekeys: &mut [u64],
    ehops: &mut [u16],
    marks: &mut [u8],
) -> WhelkEntries
    ensures { host_entries_gave result ekeys.new ehops.new marks.new
        ≡ build_entries (list_lent count keys.now hops.now) lengths.now addresses.now
        (entries_lent ekeys.old ehops.old marks.old) }
{
    clue::build(count, keys, hops, lengths, addresses, ekeys, ehops, marks).into()
}

// In the one number that C gets of a lookup, its number stands above the hop, and above both whether the hop was stored. What the quick
// form says stands above its hop.
pub const NUMBER_UNIT: u64 = 65536;

pub const HIGH_UNIT: u64 = 4294967296;

// Rule 19.8: a lookup with a hint gives C hop + 65,536 × number, and 4,294,967,296 more where the hop was stored.
#[tactic(auto, unfolding(crate::specs::Exports::hint_for_c, entries::specs::Entries::mark))]
fn hint_for_c(r: Result<Hinted, Refusal>) -> u64
    ensures { result ≡ hint_for_c (hint_gave r) }
{
    match r {
        Ok(Hinted::Final(hop)) => HIGH_UNIT + u64::from(hop),
        Ok(Hinted::Searched(hop)) => u64::from(hop),
        Err(e) => NUMBER_UNIT * u64::from(e),
    }
}

// Rules 19.5 and 19.6: the plain answer of a lent list, with a hint and lent entries.
pub fn whelk_clue_lookup(
    count: usize,
    keys: &[u64],
    hops: &[u16],
    ekeys: &[u64],
    ehops: &[u16],
    marks: &[u8],
    len: u32,
    a: u32,
) -> u64
    ensures { result
        ≡ hint_for_c
        (hint_lookup (list_lent count keys.now hops.now)
        (entries_lent ekeys.now ehops.now marks.now) len a) }
{
    hint_for_c(clue::lookup(count, keys, hops, ekeys, ehops, marks, len, a))
}

// Rule 19.8: the quick form gives C 65,536 + hop where the hop is final, and 0 where a search has to follow.
#[tactic(auto, unfolding(crate::specs::Exports::quick_for_c, entries::specs::Entries::mark))]
fn told_for_c(r: Option<u16>) -> u32
    ensures { result ≡ quick_for_c (quick_gave r) }
{
    match r {
        Some(hop) => NUMBER_UNIT as u32 + u32::from(hop),
        None => 0,
    }
}

// Rule 19.7: what lent entries say of a clue, by halving.
pub fn whelk_clue_quick(ekeys: &[u64], ehops: &[u16], marks: &[u8], len: u32, a: u32) -> u32
    ensures { result ≡ quick_for_c (quick_lookup (entries_lent ekeys.now ehops.now marks.now) len a) }
{
    told_for_c(clue::quick(ekeys, ehops, marks, len, a))
}
