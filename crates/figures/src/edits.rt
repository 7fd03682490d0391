// The figures of edits: rules 14.7, 14.8 and 14.11, the slips of 15.1 to 15.3, and refusals.
ghost use Rattle.std.specs.Prelude.{◌≤◌};

use crate::{LIST_A, UNWRITTEN, numbers, prefixes};
use edit::Edit;
use feed::{Counts, RowNumber};
use ground::Refusal;
use std::io;

// What is done with a prefix.
#[derive(Drop)]
enum Change {
    Announce(u16),
    Withdraw,
}

// An edit's number, the changed number, the new counts, and every slot that it was lent.
fn told(
    rt: &impl Print,
    r: Result<Edit, Refusal>,
    keys: &[u64],
    hops: &[u16],
    starts: &[u32],
    rhops: &[u16],
) -> io::Result<()> {
    let (number, changed, rows, runs) = match r {
        Ok(e) => (0, e.changed, e.count, e.runs),
        Err(e) => (u32::from(e), 0, 0, 0),
    };
    println!(rt; "number {number}")?;
    println!(rt; "changed {changed}")?;
    println!(rt; "rows {rows}")?;
    println!(rt; "runs {runs}")?;
    prefixes(rt, "keys", keys)?;
    numbers(rt, "hops", hops)?;
    print::runs(rt, starts.len(), starts, rhops)
}

// One edit of a list and its run table.
fn edited(
    rt: &impl Print,
    net: u32,
    len: u32,
    change: Change,
    count: usize,
    keys: &mut [u64],
    hops: &mut [u16],
    runs: usize,
    starts: &mut [u32],
    rhops: &mut [u16],
) -> io::Result<()> {
    match change {
        Change::Announce(hop) => {
            let e = edit::announce(net, len, hop, count, keys, hops, runs, starts, rhops);
            told(rt, e, keys, hops, starts, rhops)
        }
        Change::Withdraw => {
            let e = edit::withdraw(net, len, count, keys, hops, runs, starts, rhops);
            told(rt, e, keys, hops, starts, rhops)
        }
    }
}

// One edit of a feed's list and its run table, both of which fit what is lent.
fn of_list(
    rt: &impl Print,
    feed: &[u8],
    net: u32,
    len: u32,
    change: Change,
    keys: &mut [u64],
    hops: &mut [u16],
    starts: &mut [u32],
    rhops: &mut [u16],
) -> io::Result<()> {
    let mut report = [0u8; 16];
    let c = feed::import(feed, keys, hops, &mut report).unwrap_or(Counts::default());
    let count = c.of[RowNumber::Taken as usize];
    match runs::build(count, keys, hops, starts, rhops) {
        Ok(n) => edited(rt, net, len, change, count, keys, hops, n, starts, rhops),
        Err(_) => println!(rt; "run table refused"),
    }
}

// The same in `k` slots for rows and `r` for runs that hold what nothing has written.
fn of_feed(
    rt: &impl Print,
    name: &str,
    feed: &[u8],
    net: u32,
    len: u32,
    change: Change,
    k: usize,
    r: usize,
) -> io::Result<()>
    requires { (k ≤ 16) × (r ≤ 16) }
{
    println!(rt; "# Edit: {name}")?;
    let mut keys = [UNWRITTEN; 16];
    let mut hops = [9u16; 16];
    let mut starts = [151587081u32; 16];
    let mut rhops = [9u16; 16];
    of_list(
        rt,
        feed,
        net,
        len,
        change,
        &mut keys[..k],
        &mut hops[..k],
        &mut starts[..r],
        &mut rhops[..r],
    )
}

// One edit of list A.
fn of_a(
    rt: &impl Print,
    name: &str,
    net: u32,
    len: u32,
    change: Change,
    k: usize,
    r: usize,
) -> io::Result<()>
    requires { (k ≤ 16) × (r ≤ 16) }
{
    of_feed(rt, name, LIST_A, net, len, change, k, r)
}

// Rules 14.7, 14.8, 14.11 and 10.11.
fn figures(rt: &impl Print) -> io::Result<()> {
    of_a(
        rt,
        "200.27.64.0/18 withdrawn from A",
        3357229056,
        18,
        Change::Withdraw,
        8,
        11,
    )?;
    of_a(
        rt,
        "200.27.224.0/19 hop 1 announced to A",
        3357270016,
        19,
        Change::Announce(1),
        9,
        12,
    )?;
    of_a(
        rt,
        "200.27.224.0/19 hop 3 announced to A",
        3357270016,
        19,
        Change::Announce(3),
        9,
        12,
    )?;
    of_a(
        rt,
        "200.27.64.0/18 announced to A with its own hop, in full slices",
        3357229056,
        18,
        Change::Announce(1),
        7,
        10,
    )?;
    of_feed(
        rt,
        "0.0.0.0/0 hop 4 announced to the empty list",
        b"",
        0,
        0,
        Change::Announce(4),
        2,
        2,
    )?;
    of_feed(
        rt,
        "0.0.0.0/0 withdrawn again",
        b"0.0.0.0/0 4\n",
        0,
        0,
        Change::Withdraw,
        2,
        2,
    )
}

// Rules 15.1 to 15.3: more runs, the last address, and a longer prefix inside that keeps its hop.
fn slips(rt: &impl Print) -> io::Result<()> {
    of_feed(
        rt,
        "a withdrawal that needs two more runs",
        b"10.0.0.0/8 1\n10.0.0.0/10 2\n10.64.0.0/10 2\n10.128.0.0/10 2\n",
        171966464,
        10,
        Change::Withdraw,
        4,
        6,
    )?;
    of_feed(
        rt,
        "the same in one run less",
        b"10.0.0.0/8 1\n10.0.0.0/10 2\n10.64.0.0/10 2\n10.128.0.0/10 2\n",
        171966464,
        10,
        Change::Withdraw,
        4,
        5,
    )?;
    of_feed(
        rt,
        "255.0.0.0/8 hop 5 announced under 0.0.0.0/0 hop 4",
        b"0.0.0.0/0 4\n",
        4278190080,
        8,
        Change::Announce(5),
        2,
        3,
    )?;
    of_feed(
        rt,
        "128.0.0.0/1 withdrawn from around 255.255.255.255/32",
        b"128.0.0.0/1 5\n255.255.255.255/32 6\n",
        2147483648,
        1,
        Change::Withdraw,
        2,
        3,
    )?;
    of_feed(
        rt,
        "10.0.0.0/8 hop 1 announced around 10.64.0.0/10 hop 2",
        b"10.64.0.0/10 2\n",
        167772160,
        8,
        Change::Announce(1),
        2,
        5,
    )
}

// Rules 10.2, 10.4 and 10.5.
fn refusals(rt: &impl Print) -> io::Result<()> {
    of_a(
        rt,
        "200.27.224.0/19 hop 1 announced to A in one row less",
        3357270016,
        19,
        Change::Announce(1),
        7,
        12,
    )?;
    of_a(
        rt,
        "200.27.224.0/19 hop 1 announced to A in one run less",
        3357270016,
        19,
        Change::Announce(1),
        8,
        10,
    )?;
    of_a(
        rt,
        "200.27.224.0/19 withdrawn from A",
        3357270016,
        19,
        Change::Withdraw,
        7,
        10,
    )?;
    of_a(
        rt,
        "200.27.224.0/18 withdrawn from A: a host bit",
        3357270016,
        18,
        Change::Withdraw,
        7,
        10,
    )?;
    of_feed(
        rt,
        "10.0.0.0/72 withdrawn: a length above 32",
        b"10.0.0.0/8 7\n",
        167772160,
        72,
        Change::Withdraw,
        1,
        3,
    )?;
    of_feed(
        rt,
        "10.0.0.0/8 announced with hop 0",
        b"10.0.0.0/8 7\n",
        167772160,
        8,
        Change::Announce(0),
        1,
        3,
    )
}

// All figures of edits.
pub fn edits(rt: &impl Print) -> io::Result<()> {
    figures(rt)?;
    slips(rt)?;
    refusals(rt)
}
