// What an edit will do to a list and its run table, found before anything is written, and what then writes each of them in place. These are
// the parts of an edit's local work; `edit` checks the pair, asks for the room and calls them.
#![tactic(auto)]

pub mod hops;
mod joins;
pub mod list;
pub mod table;

ghost use Rattle.std.specs.Prelude.{true, cond, ◌≡◌, ◌+◌, ◌-◌, ◌≤◌, ◌<◌, eqb, IsOk};
ghost use Rattle.cidr.specs.Prefix.{key_of, is_prefix, network, length_of, size};
ghost use Rattle.runs.specs.Table.{run_starts, run_hops};
ghost use Rattle.sweep.specs.Sweep.{all_rows};
ghost use Rattle.within.specs.Own.{outer_size};
ghost use Rattle.plan.specs.Found.{FoundIn, stands};
ghost use Rattle.plan.specs.Plan.{Planned};

use hops::{new_hop, old_hop};
use joins::seams;
use sweep::Rows;
use table::Splice;
use within::inside::{inner_from, inner_upto, measure, outer_size};

// The rows inside the prefix, the hop at its own addresses afterwards, the new counts, the changed number, and how the runs are spliced.
#[derive(Clone, Copy)]
pub struct Plan {
    pub from: usize,
    pub upto: usize,
    pub base: u16,
    pub rows: usize,
    pub runs: usize,
    pub changed: u64,
    pub splice: Splice,
}

// How many rows the list has afterwards.
fn rows_after(count: usize, place: Result<usize, usize>, hop: u16) -> usize
    requires { (count < 18446744073709551615) × (hop ≡ 0 → 0 < count) }
    ensures { result ≡ cond (eqb hop 0) (count - 1) (cond (stands place) count (count + 1)) }
{
    if hop == 0 {
        return count - 1;
    }
    match place {
        Ok(_) => count,
        Err(_) => count + 1,
    }
}

// Rule 10.9: how many addresses get another hop: none where the hop at the prefix's own addresses stays, else all of those. The rows are
// those inside the prefix.
fn changed_by(rows: Rows, key: u64, old: u16, new: u16) -> u64
    requires { (is_prefix key ≡ true)
        × (outer_size (network key) (all_rows rows.keys.now rows.hops.now) ≤ size (length_of key)) }
    ensures { result ≡ cond (eqb old new) 0 (size (length_of key) - outer_size (network key) (all_rows rows.entry.keys.now rows.entry.hops.now)) }
{
    if old == new {
        return 0;
    }
    let net = cidr::network(key);
    let all = cidr::end_of(key) - net;
    all - outer_size(rows, net)
}

// The plan of an edit of a list and its run table; hop 0 stands for a withdrawal, which is only asked for a listed prefix.
pub fn plan_edit(
    rows: Rows,
    starts: &[u32],
    rhops: &[u16],
    net: u64,
    len: u64,
    hop: u16,
    place: Result<usize, usize>,
) -> Plan
    requires { (starts.now ≡ run_starts (all_rows rows.keys.now rows.hops.now))
        × (rhops.now ≡ run_hops (all_rows rows.keys.now rows.hops.now))
        × (is_prefix (key_of net len) ≡ true)
        × (len ≤ 32)
        × FoundIn rows.keys.now (key_of net len) place
        × (hop ≡ 0 → IsOk place) }
    ensures { Planned (key_of net len) hop rows.entry.keys.now rows.entry.hops.now starts.now rhops.now result }
{
    let key = net * 64 + len;
    let old = old_hop(rows, net, len, place);
    let base = new_hop(rows, net, len, hop);
    let from = inner_from(rows.keys, key);
    let upto = inner_upto(rows.keys, key);
    let inside = Rows {
        keys: &rows.keys[from..upto],
        hops: &rows.hops[from..upto],
    };
    let end = cidr::end_of(key);
    let middle = measure(inside, base, net, end);
    let splice = seams(starts, rhops, net, end, middle);
    let changed = changed_by(inside, key, old, base);
    let count = rows_after(rows.keys.len(), place, hop);
    let runs = splice.to + (starts.len() - splice.past);
    Plan {
        from,
        upto,
        base,
        rows: count,
        runs,
        changed,
        splice,
    }
}
