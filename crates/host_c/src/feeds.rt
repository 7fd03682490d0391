// The row reader, and the import that leaves its counts in lent memory.
ghost use Rattle.host.specs.Exports.{HostTallyGave};
ghost use Rattle.c_structs.specs.Structs.{pull_for_c};
ghost use Rattle.std.specs.Prelude.{◌≡◌};
ghost use Rattle.rows.specs.Pull.{pull};

use c_structs::pulls::WhelkRow;
use feed::Counts;

// Rule 4.11: the row of a feed from a place on, and the place behind it.
#[unsafe(no_mangle)]
pub extern "C" fn whelk_pull(feed: &[u8], place: usize) -> WhelkRow
    ensures { result ≡ pull_for_c (pull feed.now place) }
{
    host::feeds::whelk_pull(feed, place)
}

// Rule 4.9: import of a feed into lent keys, hops and report, with the counts in a lent tally.
#[unsafe(no_mangle)]
pub extern "C" fn whelk_import_tally(
    feed: &[u8],
    keys: &mut [u64],
    hops: &mut [u16],
    report: &mut [u8],
    tally: &mut Counts,
) -> usize
    ensures { HostTallyGave feed.now
        (record { keys = keys.old; hops = hops.old; report = report.old }) tally.old
        result keys.new hops.new report.new tally.new }
{
    host::feeds::whelk_import_tally(feed, keys, hops, report, tally)
}
