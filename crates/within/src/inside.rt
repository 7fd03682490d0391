// The rows inside an edited prefix: where they stand, the runs that they make there, and how many addresses they hold.
ghost use Rattle.std.specs.Prelude.{true, ◌≡◌, ◌+◌, ◌-◌, ◌*◌, ◌≤◌, ◌<◌};
ghost use Rattle.ground.specs.Column.{ascends, lower};
ghost use Rattle.cidr.specs.Prefix.{is_prefix, end_of};
ghost use Rattle.sweep.specs.Sweep.{all_rows, answer, From};
ghost use Rattle.within.specs.Middle.{Measured};
ghost use Rattle.within.specs.Own.{outer_size};

use sweep::Rows;

// The runs inside a prefix: how many there are, and the hops of the first and of the last.
#[derive(Clone, Copy)]
pub struct Middle {
    pub runs: usize,
    pub first: u16,
    pub last: u16,
}

// The runs of the rows from a start up to a limit, measured before anything is written.
pub fn measure(rows: Rows, base: u16, start: u64, limit: u64) -> Middle
    requires { From rows.keys.now start × (start < limit) × (limit ≤ 4294967296) }
    ensures { Measured (answer base (all_rows rows.entry.keys.now rows.entry.hops.now)) start limit result }
{
    let mut ends = [0u64; 33];
    let mut open_hops = [0u16; 33];
    let mut s = sweep::begin(rows, start, &mut ends, &mut open_hops);
    let first = sweep::top_hop(&open_hops, s.depth, base);
    let mut last = first;
    let mut runs = 0;
    while s.at < limit {
        last = sweep::top_hop(&open_hops, s.depth, base);
        runs += 1;
        s = sweep::next_turn(rows, base, limit, s, &mut ends, &mut open_hops);
    }
    Middle { runs, first, last }
}

// How many addresses the outermost of some rows in key order hold, from an address on: a row that begins before it lies in an earlier one.
pub fn outer_size(rows: Rows, from: u64) -> u64
    requires { from ≤ 4294967296 }
    ensures { result ≡ outer_size from (all_rows rows.entry.keys.now rows.entry.hops.now) }
{
    let mut end = from;
    let mut sum: u64 = 0;
    for key in rows.keys {
        let net = cidr::network(*key);
        if end <= net {
            let next = cidr::end_of(*key);
            sum += next - net;
            end = next;
        }
    }
    sum
}

// The place of the first row inside a prefix: how many keys are at most the prefix's.
pub fn inner_from(keys: &[u64], key: u64) -> usize
    requires { (is_prefix key ≡ true) × (ascends keys.now ≡ true) }
    ensures { result ≡ lower (key + 1) keys.now }
{
    halving::lower(keys, key + 1)
}

// One past the last row inside a prefix: how many keys have a network before the prefix's end.
pub fn inner_upto(keys: &[u64], key: u64) -> usize
    requires { (is_prefix key ≡ true) × (ascends keys.now ≡ true) }
    ensures { result ≡ lower (end_of key * 64) keys.now }
{
    let end = cidr::end_of(key);
    halving::lower(keys, end * 64)
}
