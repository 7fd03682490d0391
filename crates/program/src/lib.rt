// The text that the program writes for a feed: the counts of its import, a line each, and the run table of the imported list, a line a run.
// Texts are put one behind the other at places of a buffer, as in `digits::put`, and the whole always has room.
#![tactic(auto)]

ghost use Rattle.std.specs.Prelude.{◌≡◌, true, ◌≤◌, length};
ghost use Rattle.routes.specs.Row.{rows_of};
ghost use Rattle.routes.specs.WellFormed.{well_formed};
ghost use Rattle.digits.specs.Digits.{dotted_text};
ghost use Rattle.program.specs.Program.{longest_feed, line_of, count_lines, run_lines, program_gave, program};
ghost use Rattle.digits.specs.Putting.{Fits, Put};
ghost use Rattle.program.specs.Inside.Answering.{table_lines, answer_text, Taken};

use digits::put::{address, number};
use feed::{Counts, RowNumber};

// Rule 13.1: the most bytes that a feed may have.
pub const LONGEST_FEED: usize = 16384;

// Rule 13.2: the room of the list. Rule 6.5: the most runs that so many rows make.
const ROWS: usize = 1024;

const RUNS: usize = 2 * ROWS + 1;

// The most bytes that the program writes for a feed: 102 for the eight counts, and 22 for each of 2,049 runs.
pub const PROGRAM_TEXT: usize = 45180;

// Some bytes as they are, at a place.
fn text(out: &mut [u8], at: usize, bytes: &[u8]) -> usize
    requires { Fits at bytes.now out.old }
    ensures { Put at bytes.now result out.old out.new }
{
    let after = at + bytes.len();
    out[at..after].copy_from_slice(bytes);
    after
}

// A name, a space, a number and an LF.
fn line(out: &mut [u8], at: usize, name: &[u8], n: u64) -> usize
    requires { Fits at (line_of name.now n) out.old }
    ensures { Put at (line_of name.now n) result out.old out.new }
{
    let after = text(out, at, name);
    out[after] = b' ';
    number(out, after + 1, n, b'\n')
}

// Rule 13.3: the row numbers with the names that the program writes for them, in the order of their lines.
const NAMES: [(&[u8], RowNumber); feed::ROW_NUMBERS] = [
    (b"taken", RowNumber::Taken),
    (b"shape", RowNumber::Shape),
    (b"zeros", RowNumber::Zeros),
    (b"range", RowNumber::Range),
    (b"hostbits", RowNumber::HostBits),
    (b"replaced", RowNumber::Replaced),
    (b"noroom", RowNumber::NoRoomLeft),
];

// Rule 13.3: the lines of the counts.
fn counts(out: &mut [u8], from: usize, c: Counts) -> usize
    requires { Fits from (count_lines c) out.old }
    ensures { Put from (count_lines c) result out.old out.new }
{
    let mut at = line(out, from, b"rows", c.rows as u64);
    for (name, number) in NAMES {
        at = line(out, at, name, c.of[number as usize] as u64);
    }
    at
}

// Rule 13.4: the line of a run.
fn run(out: &mut [u8], at: usize, start: u32, hop: u16) -> usize
    requires { Fits at (line_of (dotted_text start) hop) out.old }
    ensures { Put at (line_of (dotted_text start) hop) result out.old out.new }
{
    let after = address(out, at, start as u64, b' ');
    number(out, after, hop as u64, b'\n')
}

// Rule 13.4: the lines of the runs of a table.
fn run_lines(out: &mut [u8], from: usize, starts: &[u32], hops: &[u16]) -> usize
    requires paired { length starts.now ≡ length hops.now }
    requires fits { Fits from (run_lines starts.now hops.now) out.old }
    ensures { Put from (run_lines starts.now hops.now) result out.old out.new }
{
    let mut at = from;
    for (start, hop) in starts.iter().zip(hops) {
        at = run(out, at, *start, *hop);
    }
    at
}

// Rule 13.4: the lines of the run table of a list. A list of 1,024 rows has at most 2,049 runs, so that the build is never refused.
fn table(out: &mut [u8], at: usize, count: usize, keys: &[u64; ROWS], hops: &[u16; ROWS]) -> usize
    requires hops_value { well_formed count keys.now hops.now ≡ true }
    requires fits { Fits at (table_lines (rows_of count keys.now hops.now)) out.old }
    ensures { Put at (table_lines (rows_of count keys.now hops.now))
        result out.old out.new }
{
    let mut starts = [0u32; RUNS];
    let mut rhops = [0u16; RUNS];
    let n = runs::build(count, keys, hops, &mut starts, &mut rhops).unwrap();
    run_lines(out, at, &starts[..n], &rhops[..n])
}

// Rule 13.2: the import of a feed that isn't too long. Such a feed has at most 16,384 rows, so that the import is never refused.
fn taken(feed: &[u8], keys: &mut [u64; ROWS], hops: &mut [u16; ROWS]) -> Counts
    requires { length feed.now ≤ longest_feed }
    ensures { Taken feed.now result keys.new hops.new }
{
    let mut report = [0u8; LONGEST_FEED];
    feed::import(feed, keys, hops, &mut report).unwrap()
}

// Rules 13.2 to 13.4: what the program writes for a feed that isn't too long.
fn answer(feed: &[u8], out: &mut [u8; PROGRAM_TEXT]) -> usize
    requires { length feed.now ≤ longest_feed }
    ensures { Put 0 (answer_text feed.now) result out.old out.new }
{
    let mut keys = [0u64; ROWS];
    let mut hops = [0u16; ROWS];
    let c = taken(feed, &mut keys, &mut hops);
    let at = counts(out, 0, c);
    table(out, at, c.of[RowNumber::Taken as usize], &keys, &hops)
}

// Rules 13.1 to 13.4: all that the program writes for a feed, at the front of a buffer that is always long enough.
pub fn program_text(feed: &[u8], out: &mut [u8; PROGRAM_TEXT]) -> usize
    ensures { program_gave result out.new ≡ program feed.now out.old }
{
    if LONGEST_FEED < feed.len() {
        return text(out, 0, b"feed too long\n");
    }
    answer(feed, out)
}
