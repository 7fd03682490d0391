// The two edits for C: announce and withdraw over a pair that the host lends.
ghost use Rattle.c_structs.specs.Structs.{host_edit_gave};
ghost use Rattle.std.specs.Prelude.{◌≡◌};
ghost use Rattle.routes.specs.Row.{list_lent};
ghost use Rattle.runs.specs.Table.{runs_lent};
ghost use Rattle.runs.specs.Pair.{pair};
ghost use Rattle.edit.specs.Edit.{announce, withdraw};

use c_structs::edits::WhelkEdit;

// Rule 10.1: a prefix gets a row with the hop, or its row the hop, in a lent list and its run table.
pub fn whelk_announce(
    net: u32,
    len: u32,
    hop: u16,
    count: usize,
    keys: &mut [u64],
    hops: &mut [u16],
    runs: usize,
    starts: &mut [u32],
    rhops: &mut [u16],
) -> WhelkEdit
    ensures { host_edit_gave result keys.new hops.new starts.new rhops.new
        ≡ announce net len hop
        (pair (list_lent count keys.old hops.old) (runs_lent runs starts.old rhops.old)) }
{
    edit::announce(net, len, hop, count, keys, hops, runs, starts, rhops).into()
}

// Rule 10.1: a listed prefix loses its row, in a lent list and its run table.
pub fn whelk_withdraw(
    net: u32,
    len: u32,
    count: usize,
    keys: &mut [u64],
    hops: &mut [u16],
    runs: usize,
    starts: &mut [u32],
    rhops: &mut [u16],
) -> WhelkEdit
    ensures { host_edit_gave result keys.new hops.new starts.new rhops.new
        ≡ withdraw net len
        (pair (list_lent count keys.old hops.old) (runs_lent runs starts.old rhops.old)) }
{
    edit::withdraw(net, len, count, keys, hops, runs, starts, rhops).into()
}
