// One sweep over the rows of a list: where the answer turns, how many runs there are, the runs written, and whether lent slices are those
// runs. It stands on `routes`, takes the rows in key order, and starts at any address before which no row begins. It is for this library's
// crates and asks things of them; what a run table is, the refusals and the rooms are `runs`'s.
#![tactic(auto)]

ghost use Rattle.std.specs.Prelude.{◌≡◌, ◌+◌, ◌-◌, ◌≤◌, ◌<◌, length, take};
ghost use Rattle.ground.specs.Stretch.{counted, turns_from};
ghost use Rattle.sweep.specs.Sweep.{last_or, all_rows, answer, Sorted, From, Stack, Falling, Closed, BeforeEvent, Event, Turned};
ghost use Rattle.sweep.specs.Sweep.{RunsWritten, are_runs};

// Rows in key order: their keys, which are prefixes and ascend, and their hops.
#[derive(Clone, Copy)]
pub struct Rows<'a> {
    pub keys: &'a [u64],
    pub hops: &'a [u16],
    pub ghost sorted: { Sorted keys.now hops.now },
}

// The sweep goes through the rows in key order with a stack of the open prefixes, those that hold the present address: `ends` has one past
// each one's last address and `open_hops` its hop. A later prefix lies in those before it, so at most 33 are open, and the last one's hop
// is the answer, or the base hop where none is open. Each row is opened and closed once.
// Where the sweep stands: the next row, how many prefixes are open, and the address, which past 255.255.255.255 is 2^32. It is no struct with
// the two arrays and methods: such a one was proved, and a build took 1.5 times the instructions with it, and 1.2 times with lent arrays.
#[derive(Clone, Copy)]
pub struct Standing {
    pub row: usize,
    pub depth: usize,
    pub at: u64,
}

// The open prefixes that end at `to` or before are closed: how many stay open.
fn close_ended(ends: &[u64; 33], depth: usize, to: u64) -> usize
    requires { Falling ends.now depth }
    ensures { Closed ends.now depth to result }
{
    for last in (0..depth).rev() {
        if to < ends[last] {
            return last + 1;
        }
    }
    0
}

// The rows whose network is the present address are opened.
#[tactic(auto, using(crate::proofs::Stack::opens))]
fn open_here(rows: Rows, s: Standing, ends: &mut [u64; 33], open_hops: &mut [u16; 33]) -> Standing
    requires { Stack rows.keys.now rows.hops.now ends.old open_hops.old s.row s.depth s.at s.at }
    ensures { (result.at ≡ s.at)
        × Stack rows.entry.keys.now rows.entry.hops.now ends.new open_hops.new
        result.row result.depth s.at (s.at + 1) }
{
    let at = s.at;
    let mut depth = s.depth;
    for row in s.row..rows.keys.len() {
        let key = rows.keys[row];
        if cidr::network(key) != at {
            return Standing { row, depth, at };
        }
        ends[depth] = cidr::end_of(key);
        open_hops[depth] = rows.hops[row];
        depth += 1;
    }
    Standing {
        row: rows.keys.len(),
        depth,
        at,
    }
}

// The sweep stands at an address before which no row begins: from an empty stack, the rows that begin there are opened. The whole table
// starts at address 0; an edit can start at its prefix's network, over the rows inside it.
pub fn begin(rows: Rows, start: u64, ends: &mut [u64; 33], open_hops: &mut [u16; 33]) -> Standing
    requires { From rows.keys.now start
        × (length ends.old ≡ 33)
        × (length open_hops.old ≡ 33) }
    ensures { (result.at ≡ start)
        × Stack rows.entry.keys.now rows.entry.hops.now ends.new open_hops.new
        result.row result.depth start (start + 1) }
{
    let s = Standing {
        row: 0,
        depth: 0,
        at: start,
    };
    open_here(rows, s, ends, open_hops)
}

// The next address at which a prefix opens or closes, or the limit; promised is that there is no such address before it.
fn next_event(keys: &[u64], ends: &[u64; 33], s: Standing, limit: u64) -> u64
    requires { BeforeEvent keys.now ends.now s.row s.depth s.at limit }
    ensures { Event keys.now ends.now s.row s.depth s.at limit result }
{
    let mut event = limit;
    let row = s.row;
    let depth = s.depth;
    if row < keys.len() {
        let net = cidr::network(keys[row]);
        if net < event {
            event = net;
        }
    }
    if 0 < depth {
        let end = ends[depth - 1];
        if end < event {
            event = end;
        }
    }
    event
}

// The sweep moves on to an address up to which no row opens.
pub fn step(
    rows: Rows,
    s: Standing,
    to: u64,
    ends: &mut [u64; 33],
    open_hops: &mut [u16; 33],
) -> Standing
    requires { Stack rows.keys.now rows.hops.now ends.old open_hops.old s.row s.depth s.at to
        × (s.at ≤ to) }
    ensures { (result.at ≡ to)
        × Stack rows.entry.keys.now rows.entry.hops.now ends.new open_hops.new
        result.row result.depth to (to + 1) }
{
    let depth = close_ended(&*ends, s.depth, to);
    let closed = Standing {
        row: s.row,
        depth,
        at: to,
    };
    open_here(rows, closed, ends, open_hops)
}

// The answer where the sweep stands.
pub fn top_hop(open_hops: &[u16; 33], depth: usize, base: u16) -> u16
    requires { (depth ≤ 33) × (length open_hops.now ≡ 33) }
    ensures { result ≡ last_or base (take depth open_hops.now) }
{
    if depth == 0 {
        base
    } else {
        open_hops[depth - 1]
    }
}

// The sweep moves on to the next address where the answer turns, or to the limit.
pub fn next_turn(
    rows: Rows,
    base: u16,
    limit: u64,
    from: Standing,
    ends: &mut [u64; 33],
    open_hops: &mut [u16; 33],
) -> Standing
    requires { Stack rows.keys.now rows.hops.now ends.old open_hops.old from.row from.depth from.at (from.at + 1)
        × (from.at < limit) }
    ensures { Turned rows.entry.keys.now rows.entry.hops.now ends.new open_hops.new base limit
        from.at result.row result.depth result.at }
{
    let hop = top_hop(&*open_hops, from.depth, base);
    let mut s = from;
    loop {
        let event = next_event(rows.keys, &*ends, s, limit);
        if limit <= event {
            return Standing {
                row: s.row,
                depth: s.depth,
                at: limit,
            };
        }
        s = step(rows, s, event, ends, open_hops);
        if top_hop(&*open_hops, s.depth, base) != hop {
            return s;
        }
    }
}

// How many runs the rows have from the start up to the limit.
pub fn count_runs(rows: Rows, base: u16, start: u64, limit: u64) -> usize
    requires { From rows.keys.now start
        × (start ≤ limit)
        × (limit ≤ 4294967296) }
    ensures { result ≡ counted (turns_from start (answer base (all_rows rows.entry.keys.now rows.entry.hops.now))) start (limit - start) }
{
    let mut ends = [0u64; 33];
    let mut open_hops = [0u16; 33];
    let mut s = begin(rows, start, &mut ends, &mut open_hops);
    let mut n = 0;
    while s.at < limit {
        n += 1;
        s = next_turn(rows, base, limit, s, &mut ends, &mut open_hops);
    }
    n
}

// The runs of the rows from the start up to the limit, written from the front; how many they are.
// It is set into its callers, so that the rows stay in registers.
#[inline(always)]
pub fn write_runs(
    rows: Rows,
    base: u16,
    start: u64,
    limit: u64,
    starts: &mut [u32],
    rhops: &mut [u16],
) -> usize
    requires { From rows.keys.now start
        × (start ≤ limit)
        × (limit ≤ 4294967296)
        × (counted (turns_from start (answer base (all_rows rows.keys.now rows.hops.now))) start (limit - start) ≤ length starts.old)
        × (counted (turns_from start (answer base (all_rows rows.keys.now rows.hops.now))) start (limit - start) ≤ length rhops.old) }
    ensures { RunsWritten (answer base (all_rows rows.entry.keys.now rows.entry.hops.now)) start limit
        starts.old rhops.old result starts.new rhops.new }
{
    let mut ends = [0u64; 33];
    let mut open_hops = [0u16; 33];
    let mut s = begin(rows, start, &mut ends, &mut open_hops);
    let mut n = 0;
    while s.at < limit {
        starts[n] = s.at as u32;
        rhops[n] = top_hop(&open_hops, s.depth, base);
        n += 1;
        s = next_turn(rows, base, limit, s, &mut ends, &mut open_hops);
    }
    n
}

// Are the slices exactly the runs of the rows from the start up to the limit?
pub fn same_runs(
    rows: Rows,
    base: u16,
    start: u64,
    limit: u64,
    starts: &[u32],
    rhops: &[u16],
) -> bool
    requires { From rows.keys.now start
        × (start ≤ limit)
        × (limit ≤ 4294967296)
        × (length rhops.now ≡ length starts.now) }
    ensures { result ≡ are_runs (answer base (all_rows rows.entry.keys.now rows.entry.hops.now)) start limit
        starts.now rhops.now }
{
    let mut ends = [0u64; 33];
    let mut open_hops = [0u16; 33];
    let mut s = begin(rows, start, &mut ends, &mut open_hops);
    let mut n = 0;
    while s.at < limit {
        if starts.len() <= n {
            return false;
        }
        if starts[n] as u64 != s.at {
            return false;
        }
        if rhops[n] != top_hop(&open_hops, s.depth, base) {
            return false;
        }
        n += 1;
        s = next_turn(rows, base, limit, s, &mut ends, &mut open_hops);
    }
    n == starts.len()
}
