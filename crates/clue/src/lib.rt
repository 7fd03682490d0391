// Hints from a neighbour, for a router that is told the length of its neighbour's best match with each address: entries for such clues,
// built from a list, and lookups that are final where no listed prefix extends the clue. It stands on `entries` and on
// what prefixes, the list and lookups by halving promise, and cites no law of these but those of `entries`.
#![tactic(auto)]

ghost use Rattle.std.specs.Prelude.{◌≡◌, true, ◌≤◌, ◌<◌, length, get_or};
ghost use Rattle.halving.specs.Halving.{halving};
ghost use Rattle.routes.specs.Row.{list_lent, rows_of};
ghost use Rattle.routes.specs.WellFormed.{well_formed};
ghost use Rattle.entries.specs.Entries.{entries_lent, its_entries};
ghost use Rattle.clue.specs.Refusal.{GivesNumber};
ghost use Rattle.clue.specs.Build.{entries_gave, build_entries};
ghost use Rattle.clue.specs.Lookup.{hint_gave, hint_lookup};
ghost use Rattle.clue.specs.Quick.{quick_gave, quick_lookup};

use entries::entry;
use entries::order::{self, Clues};

// Why a call of the hints is refused, each with the number that rules 19.3 to 19.6 give it.
#[derive(Clone, Copy, Debug, PartialEq, Eq)]
pub enum Refusal {
    // A list isn't well-formed.
    IllFormed = 11,
    // There are more entries than room.
    NoRoom = 13,
    // Entries aren't the list's for their clues.
    NotItsEntries = 14,
    // A length is above 32.
    BadLength = 15,
}

// The number of a refusal; `specs/Refusal` has it as a definition.
impl From<Refusal> for u64 {
    ghost from_gives = { GivesNumber };

    fn from(refusal: Refusal) -> u64 {
        refusal as u64
    }
}

// What a lookup with a hint gives: the hop, stored and final or searched for.
#[derive(Clone, Copy, Debug, PartialEq, Eq)]
pub enum Hinted {
    Final(u16),
    Searched(u16),
}

// Rules 19.3 and 19.4: the entries of a list for lent clues, into three lent slices; 15 for a length above 32, 11 for a list that isn't
// well-formed, 13 for more entries than room. Where there are fewer slots than clues, entries are counted before the first is written.
// Where the clues come in key order it takes a few steps for each clue and some searches of the list for each entry. In any other order it
// goes over all clues for each entry, and once more where entries are counted.
pub fn build(
    count: usize,
    keys: &[u64],
    hops: &[u16],
    lengths: &[u8],
    addresses: &[u32],
    ekeys: &mut [u64],
    ehops: &mut [u16],
    marks: &mut [u8],
) -> Result<usize, Refusal>
    ensures { entries_gave result ekeys.new ehops.new marks.new
        ≡ build_entries (list_lent count keys.now hops.now) lengths.now addresses.now
        (entries_lent ekeys.old ehops.old marks.old) }
{
    let Some(clues) = Clues::new(lengths, addresses) else {
        return Err(Refusal::BadLength);
    };
    if !routes::list_ok(count, keys, hops, false) {
        return Err(Refusal::IllFormed);
    }
    let room = order::entry_room(ekeys, ehops, marks);
    if !clues.fit(room) {
        return Err(Refusal::NoRoom);
    }
    let n = clues.write(&keys[..count], &hops[..count], ekeys, ehops, marks);
    Ok(n)
}

// Rule 19.5: whether entries are the list's for their clues.
fn entries_ok(keys: &[u64], hops: &[u16], ekeys: &[u64], ehops: &[u16], marks: &[u8]) -> bool
    requires { well_formed (length keys.now) keys.now hops.now ≡ true }
    ensures { result ≡ its_entries (rows_of (length keys.now) keys.now hops.now)
        (entries_lent ekeys.now ehops.now marks.now) }
{
    let n = ekeys.len();
    if ehops.len() != n {
        return false;
    }
    if marks.len() != n {
        return false;
    }
    for i in 0..n {
        if !entry::entry_ok(keys, hops, ekeys[i], ehops[i], marks[i]) {
            return false;
        }
        let next = i + 1;
        if next < n && ekeys[next] <= ekeys[i] {
            return false;
        }
    }
    true
}

// Rules 19.5 and 19.6: the plain answer, by a hint where its entry is final and by a search elsewhere; 15 for a length above 32, 11 for a
// list that isn't well-formed, 14 for entries that aren't the list's for their clues.
pub fn lookup(
    count: usize,
    keys: &[u64],
    hops: &[u16],
    ekeys: &[u64],
    ehops: &[u16],
    marks: &[u8],
    len: u32,
    a: u32,
) -> Result<Hinted, Refusal>
    ensures { hint_gave result
        ≡ hint_lookup (list_lent count keys.now hops.now)
        (entries_lent ekeys.now ehops.now marks.now) len a }
{
    if 32 < len {
        return Err(Refusal::BadLength);
    }
    if !routes::list_ok(count, keys, hops, false) {
        return Err(Refusal::IllFormed);
    }
    let rkeys = &keys[..count];
    let rhops = &hops[..count];
    if !entries_ok(rkeys, rhops, ekeys, ehops, marks) {
        return Err(Refusal::NotItsEntries);
    }
    if let Ok(at) = routes::place_of(ekeys, entry::clue_key(len as u64, a as u64)) {
        if marks[at] == 0 {
            return Ok(Hinted::Final(ehops[at]));
        }
    }
    Ok(Hinted::Searched(entry::hop_around(rkeys, rhops, a as u64, 32)))
}

// Rule 7.3: where halving over the first n keys ends. How many probes it made isn't asked.
fn halve(n: usize, ekeys: &[u64], k: u64) -> usize
    requires { (0 < n) × (n ≤ length ekeys.now) }
    ensures { (result ≡ (halving (λ i. get_or ekeys.now i 0) n k).low) × (result < n) }
{
    let mut s = halving::whole(n);
    for _left in (0..halving::turns(n)).rev() {
        let place = s.place;
        s = halving::narrow(s, k < ekeys[place]);
    }
    let place = s.place;
    let found = halving::end(s, 0, k < ekeys[place]);
    found.low
}

// Rule 19.7: what entries say of a clue, by halving, whatever they are: a final hop, or that a search has to follow.
#[tactic(auto, using(crate::proofs::QuickOutcomes::room_within, crate::proofs::QuickOutcomes::quick_long))]
pub fn quick(ekeys: &[u64], ehops: &[u16], marks: &[u8], len: u32, a: u32) -> Option<u16>
    ensures { quick_gave result
        ≡ quick_lookup (entries_lent ekeys.now ehops.now marks.now) len a }
{
    let n = order::entry_room(ekeys, ehops, marks);
    if n == 0 {
        return None;
    }
    let bits = len as u64;
    if 32 < bits {
        return None;
    }
    let key = entry::clue_key(bits, a as u64);
    let place = halve(n, ekeys, key);
    if ekeys[place] != key {
        return None;
    }
    if marks[place] != 0 {
        return None;
    }
    Some(ehops[place])
}
