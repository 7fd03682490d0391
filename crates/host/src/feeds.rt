// The row reader and the lent tally for C: one row of a lent feed from any place, and an import that leaves its counts in lent memory.
ghost use Rattle.host.specs.Exports.{HostTallyGave};
ghost use Rattle.c_structs.specs.Structs.{pull_for_c};
ghost use Rattle.std.specs.Prelude.{◌≡◌};
ghost use Rattle.rows.specs.Pull.{pull};

use c_structs::number_of;
use c_structs::pulls::WhelkRow;
use feed::Counts;

// Rule 4.11: the row of a feed from a place on, and the place behind it.
pub fn whelk_pull(feed: &[u8], place: usize) -> WhelkRow
    ensures { result ≡ pull_for_c (pull feed.now place) }
{
    rows::pull_at(feed, place).into()
}

// Rule 4.9: import of a feed into lent keys, hops and report, with the counts in a lent tally.
pub fn whelk_import_tally(
    feed: &[u8],
    keys: &mut [u64],
    hops: &mut [u16],
    report: &mut [u8],
    tally: &mut Counts,
) -> usize
    ensures { HostTallyGave feed.now
        (record { keys = keys.old; hops = hops.old; report = report.old }) tally.old
        result keys.new hops.new report.new tally.new }
{
    number_of(feed::import_tally(feed, keys, hops, report, tally))
}
