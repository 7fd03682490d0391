// The worked figures of rules 14.3, 14.4, 14.6, 14.7, 14.8 and 14.11, as far as they are plain answers, run tables, packed segments and
// edits, and corners of the import, of packing and of edits. tests/figures/expected.py makes what it has to write.
#![tactic(auto)]

mod edits;

ghost use Rattle.std.specs.Prelude.{◌≤◌};

use feed::{Counts, RowNumber};
use ground::Refusal;
use print::Prefix;
use segment::Packed;
use std::{fmt, io};

// Rule 14.1: list A, as a feed.
pub const LIST_A: &[u8] =
    b"200.24.0.0/14 1\n200.26.0.0/15 2\n200.27.0.0/16 3\n200.27.64.0/18 1\n200.27.112.0/20 2\n200.27.128.0/20 1\n200.27.240.0/20 2\n";

// What stands in a key's slot that nothing has written: 9.9.9.9/32. In a hop's slot and in the report it is 9.
pub const UNWRITTEN: u64 = 9701573216;

// The answer of a lookup, or the number of its refusal.
fn looked_up(rt: &impl Print, a: u32, r: Result<u16, Refusal>) -> io::Result<()> {
    match r {
        Ok(hop) => print::answer(rt, a, hop),
        Err(e) => {
            let number = u32::from(e);
            println!(rt; "{number}")
        }
    }
}

// The plain answer at an address.
fn plain(rt: &impl Print, count: usize, keys: &[u64], hops: &[u16], a: u32) -> io::Result<()> {
    looked_up(rt, a, routes::plain_lookup(count, keys, hops, a))
}

// Rule 14.3: the plain answers of list A.
fn plain_answers(rt: &impl Print) -> io::Result<()> {
    println!(rt; "# Plain answers of list A")?;
    let mut keys = [0u64; 7];
    let mut hops = [0u16; 7];
    let mut report = [0u8; 7];
    let _ = feed::import(LIST_A, &mut keys, &mut hops, &mut report);
    plain(rt, 7, &keys, &hops, 3357241514)?;
    plain(rt, 7, &keys, &hops, 3357278208)?;
    plain(rt, 7, &keys, &hops, 3357016063)?;
    plain(rt, 7, &keys, &hops, 3357147135)?;
    plain(rt, 7, &keys, &hops, 0)?;
    plain(rt, 7, &keys, &hops, 4294967295)
}

// The number that an import returns, and the counts.
fn counts(rt: &impl Print, number: u32, c: Counts) -> io::Result<()> {
    println!(rt; "number {number}")?;
    let rows = c.rows;
    let taken = c.of[RowNumber::Taken as usize];
    let shape = c.of[RowNumber::Shape as usize];
    let zeros = c.of[RowNumber::Zeros as usize];
    let range = c.of[RowNumber::Range as usize];
    let host_bits = c.of[RowNumber::HostBits as usize];
    let replaced = c.of[RowNumber::Replaced as usize];
    let no_room = c.of[RowNumber::NoRoomLeft as usize];
    println!(rt; "counts {rows} {taken} {shape} {zeros} {range} {host_bits} {replaced} {no_room}")
}

// A column's name and its numbers, on a line.
pub fn numbers<T: fmt::Display>(rt: &impl Print, name: &str, column: &[T]) -> io::Result<()> {
    print!(rt; "{name}")?;
    for number in column {
        print!(rt; " {number}")?;
    }
    println!(rt; "")
}

// A column's name and its keys, as their prefixes, on a line.
pub fn prefixes(rt: &impl Print, name: &str, keys: &[u64]) -> io::Result<()> {
    print!(rt; "{name}")?;
    for key in keys {
        let prefix = Prefix(*key);
        print!(rt; " {prefix}")?;
    }
    println!(rt; "")
}

// An import, and what it leaves in all that it was lent.
fn imported(
    rt: &impl Print,
    feed: &[u8],
    keys: &mut [u64],
    hops: &mut [u16],
    report: &mut [u8],
) -> io::Result<()> {
    match feed::import(feed, keys, hops, report) {
        Ok(c) => counts(rt, 0, c)?,
        Err(e) => counts(rt, u32::from(e), Counts::default())?,
    }
    numbers(rt, "report", report)?;
    prefixes(rt, "keys", keys)?;
    numbers(rt, "hops", hops)
}

// An import into slots that hold what nothing has written, `k` for keys, `h` for hops and `r` for the report.
fn import(rt: &impl Print, name: &str, feed: &[u8], k: usize, h: usize, r: usize) -> io::Result<()>
    requires { (k ≤ 16) × (h ≤ 16) × (r ≤ 16) }
{
    println!(rt; "# Import: {name}")?;
    let mut keys = [UNWRITTEN; 16];
    let mut hops = [9u16; 16];
    let mut report = [9u8; 16];
    imported(rt, feed, &mut keys[..k], &mut hops[..h], &mut report[..r])
}

// The rows of rule 13.5, and where rows begin and end.
fn import_rows(rt: &impl Print) -> io::Result<()> {
    import(
        rt,
        "the five rows of document 01",
        b"10.0.0.0/8 7\n10.0.0.1/8 7\n10.0.0.0/8 9\n\n10.1.0.0/16 70000\n",
        3,
        3,
        6,
    )?;
    import(rt, "0 bytes", b"", 2, 2, 2)?;
    import(rt, "only LFs", b"\n\n\n", 2, 2, 4)?;
    import(rt, "no LF at all", b"1.0.0.0/8 1", 2, 2, 2)?;
    import(
        rt,
        "no LF after the last row",
        b"1.0.0.0/8 1\n2.0.0.0/8 2",
        3,
        3,
        3,
    )?;
    import(rt, "an empty row first", b"\n1.0.0.0/8 1\n", 2, 2, 3)?;
    import(
        rt,
        "keys in order",
        b"3.0.0.0/8 3\n1.0.0.0/16 1\n2.0.0.0/8 2\n1.0.0.0/8 4\n",
        5,
        5,
        4,
    )
}

// Rule 3.3: rows that aren't of the form.
fn import_shapes(rt: &impl Print) -> io::Result<()> {
    import(rt, "NUL", b"\0\n1.0.0.0/8 1\0\n1.0.0.0\0/8 1\n", 2, 2, 4)?;
    import(
        rt,
        "byte 255",
        b"\xff\n1.0.0.0/8 1\xff\n\xff1.0.0.0/8 1\n",
        2,
        2,
        4,
    )?;
    import(rt, "CR", b"1.0.0.0/8 1\r\n\r\n2.0.0.0/8 2\n", 2, 2, 4)?;
    import(
        rt,
        "tab",
        b"1.0.0.0/8\t1\n1.0.0.0/8 1\t\n\t1.0.0.0/8 1\n",
        2,
        2,
        4,
    )?;
    import(
        rt,
        "spaces",
        b"1.0.0.0/8  1\n 1.0.0.0/8 1\n1.0.0.0/8 1 \n1.0.0.0 /8 1\n1.0.0.0/81\n",
        2,
        2,
        6,
    )?;
    import(
        rt,
        "parts missing",
        b"1.0.0.0/8 \n1.0.0.0/ 1\n1.0.0/8 1\n1.0.0./8 1\n.0.0.0/8 1\n1.0.0.0.0/8 1\n1.0.0.0 1\n",
        2,
        2,
        8,
    )?;
    let digits = [b'1'; 400];
    import(rt, "a very long row", &digits, 2, 2, 2)?;
    import(
        rt,
        "a long row before a good one",
        b"1.0.0.0/8 1111111111111111111111111111111111111111111111111111111111111111\n2.0.0.0/8 2\n",
        2,
        2,
        3,
    )
}

// Rules 3.4 and 3.7: rows of the form whose numbers are at or past an end.
fn import_values(rt: &impl Print) -> io::Result<()> {
    import(
        rt,
        "octets",
        b"255.255.255.255/32 1\n256.0.0.0/8 1\n999.0.0.0/8 1\n1000.0.0.0/8 1\n0.0.0.256/32 1\n0.0.0.1000/32 1\n",
        2,
        2,
        7,
    )?;
    import(
        rt,
        "lengths",
        b"0.0.0.0/0 1\n0.0.0.0/32 2\n0.0.0.0/33 1\n0.0.0.0/99 1\n0.0.0.0/100 1\n0.0.0.0/032 1\n",
        3,
        3,
        7,
    )?;
    import(
        rt,
        "hops",
        b"1.0.0.0/8 65535\n2.0.0.0/8 65536\n3.0.0.0/8 70000\n4.0.0.0/8 100000\n5.0.0.0/8 0\n6.0.0.0/8 00000\n7.0.0.0/8 000001\n",
        2,
        2,
        9,
    )?;
    import(
        rt,
        "leading zeros",
        b"010.000.00.0/08 00007\n10.0.0.0/8 9\n001.002.003.000/24 01\n10.0.0.0/8 00\n0.0.0.0/0 100\n",
        3,
        3,
        6,
    )?;
    import(
        rt,
        "zeros after shape and before range",
        b"010.0.0.256/8 7\n010.0.0.0/8 7x\n10.0.0.0/033 7\n10.0.0.1/08 0\n",
        2,
        2,
        5,
    )
}

// Rules 3.6 and 3.7: host bits, and the order of faults.
fn import_faults(rt: &impl Print) -> io::Result<()> {
    import(
        rt,
        "host bits",
        b"10.0.0.1/8 1\n10.0.0.1/31 1\n10.0.0.1/32 1\n128.0.0.0/0 1\n128.0.0.0/1 2\n0.0.0.1/0 1\n",
        3,
        3,
        7,
    )?;
    import(
        rt,
        "shape before range before host bits",
        b"999.2.3.4/5 6x\n999.2.3.4/5 6\n1.2.3.4/5 6\n1.2.3.4/5 0\n",
        2,
        2,
        5,
    )
}

// Rule 3.8: rooms.
fn import_rooms(rt: &impl Print) -> io::Result<()> {
    import(
        rt,
        "slices of length 0",
        b"1.0.0.0/8 1\n\n1.0.0.0/8 1\n",
        0,
        0,
        4,
    )?;
    import(rt, "keys of length 0", b"1.0.0.0/8 1\n", 0, 2, 2)?;
    import(rt, "hops of length 0", b"1.0.0.0/8 1\n", 2, 0, 2)?;
    import(
        rt,
        "more keys than hops",
        b"3.0.0.0/8 3\n2.0.0.0/8 2\n1.0.0.0/8 1\n",
        4,
        2,
        4,
    )?;
    import(
        rt,
        "more hops than keys",
        b"3.0.0.0/8 3\n2.0.0.0/8 2\n1.0.0.0/8 1\n",
        2,
        4,
        4,
    )?;
    import(
        rt,
        "replaced rows, and no room",
        b"1.0.0.0/8 1\n2.0.0.0/8 2\n2.0.0.0/8 3\n1.0.0.0/8 4\n2.0.0.0/9 5\n\n2.0.0.1/8 6\n",
        1,
        1,
        8,
    )
}

// Rules 4.4 and 4.7: reports.
fn import_reports(rt: &impl Print) -> io::Result<()> {
    import(
        rt,
        "a report as long as the rows",
        b"1.0.0.0/8 1\n\n2.0.0.0/8 2",
        3,
        3,
        3,
    )?;
    import(
        rt,
        "a report one byte short",
        b"1.0.0.0/8 1\n\n2.0.0.0/8 2",
        3,
        3,
        2,
    )?;
    import(rt, "a report of length 0", b"\n", 1, 1, 0)?;
    import(rt, "a report of length 0 for 0 bytes", b"", 1, 1, 0)
}

// The number that a build returns, the count of runs, and every slot that it was lent.
fn built(
    rt: &impl Print,
    count: usize,
    keys: &[u64],
    hops: &[u16],
    starts: &mut [u32],
    rhops: &mut [u16],
) -> io::Result<()> {
    let (number, n) = match runs::build(count, keys, hops, starts, rhops) {
        Ok(n) => (0, n),
        Err(e) => (u32::from(e), 0),
    };
    println!(rt; "number {number}")?;
    println!(rt; "runs {n}")?;
    print::runs(rt, starts.len(), starts, rhops)
}

// The run table of a feed's list, built into `room` slots that hold what nothing has written.
fn build(rt: &impl Print, name: &str, feed: &[u8], room: usize) -> io::Result<()>
    requires { room ≤ 16 }
{
    println!(rt; "# Run table: {name}")?;
    let mut keys = [0u64; 8];
    let mut hops = [0u16; 8];
    let mut report = [0u8; 8];
    let Ok(c) = feed::import(feed, &mut keys, &mut hops, &mut report) else {
        return Ok(());
    };
    let count = c.of[RowNumber::Taken as usize];
    let mut starts = [151587081u32; 16];
    let mut rhops = [9u16; 16];
    built(
        rt,
        count,
        &keys,
        &hops,
        &mut starts[..room],
        &mut rhops[..room],
    )
}

// Rules 14.4, 14.7 and 14.8: the run tables of list A.
fn builds_of_a(rt: &impl Print) -> io::Result<()> {
    build(rt, "list A", LIST_A, 12)?;
    build(rt, "list A in as many slots as it has runs", LIST_A, 10)?;
    build(rt, "list A in one slot less", LIST_A, 9)?;
    build(
        rt,
        "A without 200.27.64.0/18",
        b"200.24.0.0/14 1\n200.26.0.0/15 2\n200.27.0.0/16 3\n200.27.112.0/20 2\n200.27.128.0/20 1\n200.27.240.0/20 2\n",
        10,
    )?;
    build(
        rt,
        "A with 200.27.224.0/19 hop 1",
        b"200.24.0.0/14 1\n200.26.0.0/15 2\n200.27.0.0/16 3\n200.27.64.0/18 1\n200.27.112.0/20 2\n\
          200.27.128.0/20 1\n200.27.224.0/19 1\n200.27.240.0/20 2\n",
        12,
    )?;
    build(
        rt,
        "A with 200.27.224.0/19 hop 3",
        b"200.24.0.0/14 1\n200.26.0.0/15 2\n200.27.0.0/16 3\n200.27.64.0/18 1\n200.27.112.0/20 2\n\
          200.27.128.0/20 1\n200.27.224.0/19 3\n200.27.240.0/20 2\n",
        12,
    )
}

// Rule 14.11: the other run tables. Rule 15.1: a route whose loss makes more runs. And corners.
fn builds_of_corners(rt: &impl Print) -> io::Result<()> {
    build(rt, "the empty list", b"", 2)?;
    build(rt, "the empty list in no slot", b"", 0)?;
    build(
        rt,
        "only 255.255.255.255/32 hop 5",
        b"255.255.255.255/32 5\n",
        3,
    )?;
    build(rt, "0.0.0.0/0 hop 4", b"0.0.0.0/0 4\n", 2)?;
    build(
        rt,
        "a route between two siblings of its hop, under a parent of another",
        b"10.0.0.0/8 1\n10.0.0.0/16 2\n10.1.0.0/16 2\n10.2.0.0/16 2\n",
        5,
    )?;
    build(
        rt,
        "the same without it",
        b"10.0.0.0/8 1\n10.0.0.0/16 2\n10.2.0.0/16 2\n",
        7,
    )
}

// Up to 16 slots of a column, after its name on a line.
fn slots(rt: &impl Print, name: &str, column: &[u16]) -> io::Result<()> {
    numbers(rt, name, column.get(..16).unwrap_or(column))
}

// What a packed segment answers at an address.
fn in_packed(
    rt: &impl Print,
    width: u32,
    words: &[u16],
    bases: &[u16],
    hops: &[u16],
    a: u32,
) -> io::Result<()> {
    looked_up(rt, a, packed::packed_lookup(width, words, bases, hops, a))
}

// A packing's number, the width, the counts of words and of hops, and the first slots of each slice that it was lent.
fn packed(
    rt: &impl Print,
    number: u32,
    p: Packed,
    words: &[u16],
    bases: &[u16],
    hops: &[u16],
) -> io::Result<()> {
    let width = p.width;
    let word_count = p.words;
    let hop_count = p.hops;
    println!(rt; "number {number}")?;
    println!(rt; "width {width}")?;
    println!(rt; "word count {word_count}")?;
    println!(rt; "hop count {hop_count}")?;
    slots(rt, "words", words)?;
    slots(rt, "bases", bases)?;
    slots(rt, "hops", hops)
}

// Three answers of packed segment q: at its ends, and at the address `a`.
fn answers(
    rt: &impl Print,
    q: u16,
    a: u32,
    width: u32,
    words: &[u16],
    bases: &[u16],
    hops: &[u16],
) -> io::Result<()> {
    let first = (q as u32) * 65536;
    in_packed(rt, width, words, bases, hops, first)?;
    in_packed(rt, width, words, bases, hops, a)?;
    in_packed(rt, width, words, bases, hops, first + 65535)
}

// Segment q of a list packed, and answers of the packed segment.
fn packing(
    rt: &impl Print,
    q: u16,
    a: u32,
    count: usize,
    keys: &[u64],
    hops: &[u16],
    runs: usize,
    starts: &[u32],
    rhops: &[u16],
    words: &mut [u16],
    bases: &mut [u16],
    out: &mut [u16],
) -> io::Result<()> {
    match segment::pack(q, count, keys, hops, runs, starts, rhops, words, bases, out) {
        Ok(p) => {
            packed(rt, 0, p, words, bases, out)?;
            answers(rt, q, a, (p.width % 32) as u32, words, bases, out)
        }
        Err(e) => {
            let none = Packed {
                width: 0,
                words: 0,
                hops: 0,
            };
            packed(rt, u32::from(e), none, words, bases, out)
        }
    }
}

// Segment q of a feed's list packed, where the list has at most 8 rows.
fn of_feed(
    rt: &impl Print,
    feed: &[u8],
    q: u16,
    a: u32,
    words: &mut [u16],
    bases: &mut [u16],
    out: &mut [u16],
) -> io::Result<()> {
    let mut keys = [0u64; 8];
    let mut hops = [0u16; 8];
    let mut report = [0u8; 8];
    let c = feed::import(feed, &mut keys, &mut hops, &mut report).unwrap_or(Counts::default());
    let count = c.of[RowNumber::Taken as usize];
    let mut starts = [0u32; 17];
    let mut rhops = [0u16; 17];
    match runs::build(count, &keys, &hops, &mut starts, &mut rhops) {
        Ok(n) => packing(
            rt, q, a, count, &keys, &hops, n, &starts, &rhops, words, bases, out,
        ),
        Err(_) => println!(rt; "run table refused"),
    }
}

// Segment q of a feed's list, packed into `w` words and bases and `h` hops that hold what nothing has written.
fn pack(
    rt: &impl Print,
    name: &str,
    feed: &[u8],
    q: u16,
    a: u32,
    w: usize,
    h: usize,
) -> io::Result<()>
    requires { (w ≤ 4096) × (h ≤ 16) }
{
    println!(rt; "# Packed segment: {name}")?;
    let mut words = [9u16; 4096];
    let mut bases = [9u16; 4096];
    let mut out = [9u16; 16];
    of_feed(
        rt,
        feed,
        q,
        a,
        &mut words[..w],
        &mut bases[..w],
        &mut out[..h],
    )
}

// Rule 14.6: the packed segment of A with a prefix that changes the width and no answer. And the least and the greatest width.
fn packings(rt: &impl Print) -> io::Result<()> {
    pack(
        rt,
        "51227 of A with 200.27.240.0/21 hop 2",
        b"200.24.0.0/14 1\n200.26.0.0/15 2\n200.27.0.0/16 3\n200.27.64.0/18 1\n200.27.112.0/20 2\n\
          200.27.128.0/20 1\n200.27.240.0/20 2\n200.27.240.0/21 2\n",
        51227,
        3357241514,
        3,
        7,
    )?;
    pack(
        rt,
        "the same in one hop less than it takes",
        b"200.24.0.0/14 1\n200.26.0.0/15 2\n200.27.0.0/16 3\n200.27.64.0/18 1\n200.27.112.0/20 2\n\
          200.27.128.0/20 1\n200.27.240.0/20 2\n200.27.240.0/21 2\n",
        51227,
        3357241514,
        2,
        5,
    )?;
    pack(
        rt,
        "2624 inside 10.0.0.0/8, width 0",
        b"10.0.0.0/8 7\n10.65.0.1/32 5\n",
        2624,
        171996926,
        2,
        2,
    )?;
    pack(
        rt,
        "2624 with 10.64.0.1/32 and 10.64.255.255/32, width 16",
        b"10.0.0.0/8 7\n10.64.0.1/32 5\n10.64.255.255/32 9\n",
        2624,
        171966465,
        4096,
        4,
    )?;
    pack(rt, "65535 of the empty list", b"", 65535, 4294967294, 1, 1)
}

fn main(rt: HostRuntime) -> io::Result<()> {
    plain_answers(&rt)?;
    import_rows(&rt)?;
    import_shapes(&rt)?;
    import_values(&rt)?;
    import_faults(&rt)?;
    import_rooms(&rt)?;
    import_reports(&rt)?;
    builds_of_a(&rt)?;
    builds_of_corners(&rt)?;
    packings(&rt)?;
    edits::edits(&rt)
}
