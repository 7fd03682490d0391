// Lookup in a run table, on lent slices and on run bytes: the hop, and how far it holds. The table is `runs`'s, and the steps of a lookup
// are `halving`'s.
#![tactic(auto)]

ghost use Rattle.std.specs.Prelude.{◌≡◌, true, cond, ◌+◌, ◌-◌, ◌*◌, ◌/◌, ◌≤◌, ◌<◌, length, get_or};
ghost use Rattle.runs.specs.Table.{runs_lent};
ghost use Rattle.lookup.specs.Bytes.{start_at, hop_at};
ghost use Rattle.lookup.specs.Lookup.{last_of, run_lookup_gave, run_lookup, bytes_lookup_gave, bytes_lookup};
ghost use Rattle.lookup.specs.Inside.Reached.{ReachedBy};

use ground::Refusal;
use std::hint::select_unpredictable;

// What a run lookup gives: the hop, the last address of the run found and the number of probes.
#[derive(Clone, Copy, Debug, PartialEq, Eq)]
pub struct Probed {
    pub hop: u16,
    pub last: u32,
    pub probes: usize,
}

// Rule 7.4: 255.255.255.255, where the last run ends.
pub const LAST_ADDRESS: u32 = 4294967295;

// Where halving over starts ends: the place low, the last address of the run found, and the number of probes.
#[derive(Clone, Copy)]
struct Reached {
    low: usize,
    last: u32,
    probes: usize,
}

// Rule 7.4: the last address of the run before the place high.
#[tactic(auto, unfolding(crate::specs::Lookup::last_of))]
fn last_before(n: usize, starts: &[u32], high: usize) -> u32
    requires { (n ≤ length starts.now) × (high ≤ n) × (high < n → 0 < get_or starts.now high 0) }
    ensures { result ≡ last_of (λ i. get_or starts.now i 0) n high }
{
    if high == n {
        return LAST_ADDRESS;
    }
    starts[high] - 1
}

// Rules 7.3 and 7.4: halving over the starts of a slice. Turns are counted down: counted up they compile to a slower loop.
#[tactic(auto, using(halving::proofs::Turning::turning_start, halving::proofs::Turning::turning_bounds))]
fn in_slices(n: usize, starts: &[u32], a: u32) -> Reached
    requires { (0 < n) × (n ≤ length starts.now) }
    ensures { ReachedBy (λ i. get_or starts.now i 0) n a result.low result.last result.probes }
{
    let turns = halving::turns(n);
    let mut s = halving::whole(n);
    for _ in (0..turns).rev() {
        let place = s.place;
        s = halving::narrow(s, a < starts[place]);
    }
    let place = s.place;
    let end = halving::end(s, turns, a < starts[place]);
    Reached {
        low: end.low,
        last: last_before(n, starts, end.high),
        probes: end.probes,
    }
}

// Rules 7.1 to 7.4: lookup by halving over the first `n` runs of lent starts and hops; 11 for no runs, or more than a slice has.
#[tactic(auto, using(crate::proofs::LookupOutcomes::in_runs))]
pub fn run_lookup(n: usize, starts: &[u32], hops: &[u16], a: u32) -> Result<Probed, Refusal>
    ensures { run_lookup_gave result ≡ run_lookup (runs_lent n starts.now hops.now) a }
{
    if n == 0 || starts.len().min(hops.len()) < n {
        return Err(Refusal::IllFormed);
    }
    let found = in_slices(n, starts, a);
    Ok(Probed {
        hop: hops[found.low],
        last: found.last,
        probes: found.probes,
    })
}

// Rules 7.7 and 7.8: the start that the bytes give run i: four bytes, the highest in front.
#[tactic(auto, unfolding(crate::specs::Bytes::start_at))]
fn start_at(bytes: &[u8], i: usize) -> u32
    requires { i < length bytes.now / 6 }
    ensures { result ≡ start_at bytes.now i }
{
    let at = i * 6;
    u32::from_be_bytes([bytes[at], bytes[at + 1], bytes[at + 2], bytes[at + 3]])
}

// Rules 7.7 and 7.8: its hop: two bytes, the highest in front.
#[tactic(auto, unfolding(crate::specs::Bytes::hop_at))]
fn hop_at(bytes: &[u8], i: usize) -> u16
    requires { i < length bytes.now / 6 }
    ensures { result ≡ hop_at bytes.now i }
{
    let at = i * 6;
    u16::from_be_bytes([bytes[at + 4], bytes[at + 5]])
}

// What a lookup over run bytes gives: the hop and the last address of the run found.
#[derive(Clone, Copy, Debug, PartialEq, Eq)]
pub struct Held {
    pub hop: u16,
    pub last: u32,
}

// Rule 7.4: the last address before high. Where `above` says that a start is above the address, high comes down to its place, and else what
// was the last address before high still is.
fn lowered(above: bool, start: u32, last: u32) -> u32
    requires { above ≡ true → 0 < start }
    ensures { result ≡ cond above (start - 1) last }
{
    if above { start - 1 } else { last }
}

// Rule 7.8: halving over the starts of `n` runs of bytes. The last address before high is kept beside high, so that no start need be put
// together again, and so that the compiler makes no branch of the choices (docs/DECISIONS.md, "Halving without a branch"). At first high
// is n.
#[tactic(auto, using(crate::proofs::Reaching::reaching))]
fn in_bytes(n: usize, bytes: &[u8], a: u32) -> Reached
    requires { (0 < n) × (n ≡ length bytes.now / 6) }
    ensures { ReachedBy (start_at bytes.now) n a result.low result.last result.probes }
{
    let turns = halving::turns(n);
    let mut s = halving::whole(n);
    let mut last = LAST_ADDRESS;
    for _ in (0..turns).rev() {
        let start = start_at(bytes, s.place);
        s = halving::narrow(s, a < start);
        last = lowered(a < start, start, last);
    }
    let start = start_at(bytes, s.place);
    let end = halving::end(s, turns, a < start);
    Reached {
        low: end.low,
        last: select_unpredictable(s.low < s.place, lowered(a < start, start, last), last),
        probes: end.probes,
    }
}

// Rule 7.8: the same lookup over run bytes, six a run; 11 for no bytes, or a number of bytes that isn't a multiple of 6.
#[tactic(auto, using(crate::proofs::LookupOutcomes::in_sixes))]
pub fn bytes_lookup(bytes: &[u8], a: u32) -> Result<Held, Refusal>
    ensures { bytes_lookup_gave result ≡ bytes_lookup bytes.now a }
{
    if bytes.is_empty() || bytes.len() % 6 != 0 {
        return Err(Refusal::IllFormed);
    }
    let found = in_bytes(bytes.len() / 6, bytes, a);
    Ok(Held {
        hop: hop_at(bytes, found.low),
        last: found.last,
    })
}
