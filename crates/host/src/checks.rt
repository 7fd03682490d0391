// The pair check for C: whether a lent run table is that of a lent list.
ghost use Rattle.std.specs.Prelude.{◌≡◌};
ghost use Rattle.routes.specs.Row.{list_lent};
ghost use Rattle.runs.specs.Table.{runs_lent};
ghost use Rattle.runs.specs.Pair.{pair, pair_check};

use c_answers::pair_for_c;

// Rule 8.4: the pair check of a list and a run table.
pub fn whelk_pair_check(
    count: usize,
    keys: &[u64],
    hops: &[u16],
    runs: usize,
    starts: &[u32],
    rhops: &[u16],
) -> usize
    ensures { result
        ≡ pair_check
        (pair (list_lent count keys.now hops.now) (runs_lent runs starts.now rhops.now)) }
{
    pair_for_c(runs::pair_check(count, keys, hops, runs, starts, rhops))
}
