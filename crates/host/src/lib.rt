// The C interface: the library's entries over memory that the host lends, each with one number or one plain struct back. It adds no rule
// but 7.9, 7.10 and 18.6. `host_c` exports the entries to C, under these names.
#![tactic(auto)]

pub mod checks;
pub mod edits;
pub mod feeds;
pub mod reasons;

ghost use Rattle.host.specs.Exports.{held_gave_c, held_for_c};
ghost use Rattle.std.specs.Prelude.{◌≡◌};
ghost use Rattle.feed.specs.Import.{import};
ghost use Rattle.routes.specs.Row.{list_lent};
ghost use Rattle.routes.specs.Lookup.{lookup_gave, plain_lookup, half_lookup};
ghost use Rattle.runs.specs.Table.{runs_lent};
ghost use Rattle.runs.specs.Build.{slots_lent, build, build_half};
ghost use Rattle.lookup.specs.Lookup.{run_lookup};
ghost use Rattle.runs.specs.Pair.{pair};
ghost use Rattle.segment.specs.Pack.{pack_lent, pack};
ghost use Rattle.packed.specs.Lookup.{segment_lent, packed_lookup};
ghost use Rattle.split.specs.Split.{split_lent, split};
ghost use Rattle.text.specs.Text.{write};
ghost use Rattle.c_structs.specs.Structs.{host_import_gave, host_pack_gave};
ghost use Rattle.c_answers.specs.Exports.{lookup_for_c, probed_gave_c, probed_for_c, build_gave_c, build_for_c};
ghost use Rattle.c_answers.specs.Exports.{write_gave_c, write_for_c, split_gave_c, split_for_c};

use c_answers::{count_for_c, lookup_for_c, probed_for_c, put_address};
use c_structs::{WhelkCounts, WhelkPacked};
use ground::Refusal;

// Rule 4.1: import of a feed into lent keys, hops and report.
pub fn whelk_import(
    feed: &[u8],
    keys: &mut [u64],
    hops: &mut [u16],
    report: &mut [u8],
) -> WhelkCounts
    ensures { host_import_gave result keys.new hops.new report.new
        ≡ import feed.now
        (record { keys = keys.old; hops = hops.old; report = report.old }) }
{
    feed::import(feed, keys, hops, report).into()
}

// Rule 2.13: the plain answer of a list at an address.
pub fn whelk_plain_lookup(count: usize, keys: &[u64], hops: &[u16], a: u32) -> u32
    ensures { result ≡ lookup_for_c (plain_lookup (list_lent count keys.now hops.now) a) }
{
    lookup_for_c(routes::plain_lookup(count, keys, hops, a))
}

// Rules 7.8 and 7.9: lookup over run bytes, which leaves the last address in the first four lent bytes; 13 for fewer.
fn held(bytes: &[u8], a: u32, out: &mut [u8]) -> Result<u16, Refusal>
    ensures { held_gave_c (lookup_for_c (lookup_gave result)) out.new ≡ held_for_c bytes.now a out.old }
{
    let found = lookup::bytes_lookup(bytes, a)?;
    if out.len() < 4 {
        return Err(Refusal::NoRoom);
    }
    put_address(found.last, out);
    Ok(found.hop)
}

// Rules 7.8 and 7.9: the same as C gets it.
pub fn whelk_run_lookup(bytes: &[u8], a: u32, out: &mut [u8]) -> u32
    ensures { held_gave_c result out.new ≡ held_for_c bytes.now a out.old }
{
    lookup_for_c(held(bytes, a, out))
}

// Rule 7.4: run lookup over the first `n` runs of lent starts and hops, with the last address in a lent number.
pub fn whelk_run_lookup_slices(n: usize, starts: &[u32], hops: &[u16], a: u32, out: &mut u32) -> u64
    ensures { probed_gave_c result out.new
        ≡ probed_for_c (run_lookup (runs_lent n starts.now hops.now) a) out.old }
{
    probed_for_c(lookup::run_lookup(n, starts, hops, a), out)
}

// Rule 6.6: the run table of a list into lent starts and hops.
pub fn whelk_build(
    count: usize,
    keys: &[u64],
    hops: &[u16],
    starts: &mut [u32],
    rhops: &mut [u16],
) -> u64
    ensures { build_gave_c result starts.new rhops.new
        ≡ build_for_c
        (build (list_lent count keys.now hops.now) (slots_lent starts.old rhops.old)) }
{
    count_for_c(runs::build(count, keys, hops, starts, rhops))
}

// Rules 9.10 to 9.13: lookup in a packed segment, by the last 16 bits of the address.
pub fn whelk_packed_lookup(width: u32, words: &[u16], bases: &[u16], hops: &[u16], a: u32) -> u32
    ensures { result ≡ lookup_for_c (packed_lookup (segment_lent width words.now bases.now hops.now) a) }
{
    lookup_for_c(packed::packed_lookup(width, words, bases, hops, a))
}

// Rule 9.9: segment q of a list and its run table into lent words, bases and hops.
pub fn whelk_pack(
    q: u16,
    count: usize,
    keys: &[u64],
    hops: &[u16],
    runs: usize,
    starts: &[u32],
    rhops: &[u16],
    words: &mut [u16],
    bases: &mut [u16],
    out: &mut [u16],
) -> WhelkPacked
    ensures { host_pack_gave result words.new bases.new out.new
        ≡ pack q
        (pair (list_lent count keys.now hops.now) (runs_lent runs starts.now rhops.now))
        (pack_lent words.old bases.old out.old) }
{
    segment::pack(q, count, keys, hops, runs, starts, rhops, words, bases, out).into()
}

// Rule 12.3: the text of a list at the front of a lent buffer.
pub fn whelk_write(count: usize, keys: &[u64], hops: &[u16], buffer: &mut [u8]) -> u64
    ensures { write_gave_c result buffer.new
        ≡ write_for_c (write (list_lent count keys.now hops.now) buffer.old) }
{
    count_for_c(text::write(count, keys, hops, buffer))
}

// Rule 11.8: the label of a half at an address.
pub fn whelk_half_lookup(count: usize, keys: &[u64], labels: &[u16], a: u32) -> u32
    ensures { result ≡ lookup_for_c (half_lookup (list_lent count keys.now labels.now) a) }
{
    lookup_for_c(routes::half_lookup(count, keys, labels, a))
}

// Rule 11.10: the run table of a half, of its labels.
pub fn whelk_build_half(
    count: usize,
    keys: &[u64],
    labels: &[u16],
    starts: &mut [u32],
    rlabels: &mut [u16],
) -> u64
    ensures { build_gave_c result starts.new rlabels.new
        ≡ build_for_c
        (build_half (list_lent count keys.now labels.now) (slots_lent starts.old rlabels.old)) }
{
    count_for_c(runs::build_half(count, keys, labels, starts, rlabels))
}

// Rule 11.7: the second half of a list, into lent keys and labels.
pub fn whelk_split(
    k: usize,
    count: usize,
    keys: &[u64],
    hops: &[u16],
    out: &mut [u64],
    labels: &mut [u16],
) -> u64
    ensures { split_gave_c result out.new labels.new
        ≡ split_for_c
        (split k (list_lent count keys.now hops.now) (split_lent out.old labels.old)) }
{
    count_for_c(split::split(k, count, keys, hops, out, labels))
}
