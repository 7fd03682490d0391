// The local work of an edit, over a pair that agrees. It touches the place of the key and the rows that move by one, the rows inside the
// prefix, the runs of the prefix, and the runs that move behind it.
ghost use Rattle.std.specs.Prelude.{true, not, ◌&&◌, ◌||◌, ◌≡◌, ◌≤◌, eqb, ltb};
ghost use Rattle.ground.specs.Numbers.{done};
ghost use Rattle.cidr.specs.Prefix.{key_of, is_prefix};
ghost use Rattle.routes.specs.Row.{list_lent, list_room};
ghost use Rattle.runs.specs.Table.{runs_lent};
ghost use Rattle.runs.specs.Build.{run_room};
ghost use Rattle.runs.specs.Pair.{pair, pair_check};
ghost use Rattle.plan.specs.Found.{stands};
ghost use Rattle.edit.specs.Edit.{edit_gave};
ghost use Rattle.edit.specs.Inside.Local.{edit_agreed};
ghost use Rattle.edit.specs.Inside.Writing.{MayWrite, Wrote};

use crate::Edit;
use ground::Refusal;
use plan::list::write_row;
use plan::table::splice_runs;
use plan::{Plan, plan_edit};
use sweep::Rows;

// Rule 10.5: whether so many rows exceed the list's room, or so many runs the run table's.
#[tactic(auto, unfolding(routes::specs::Row::list_room, runs::specs::Build::run_room))]
fn exceeds(
    rows: usize,
    keys: &[u64],
    hops: &[u16],
    runs: usize,
    starts: &[u32],
    rhops: &[u16],
) -> bool
    ensures { result ≡ (ltb (list_room keys.now hops.now) rows
        || ltb (run_room starts.now rhops.now) runs) }
{
    let list_room = keys.len().min(hops.len()).min(routes::TOP_ROWS);
    let run_room = starts.len().min(rhops.len()).min(runs::TOP_RUNS);
    list_room < rows || run_room < runs
}

// Rule 10.4: whether a withdrawal names a prefix that isn't listed; hop 0 stands for a withdrawal.
fn nothing_to_withdraw(hop: u16, place: Result<usize, usize>) -> bool
    ensures { result ≡ (eqb hop 0 && not (stands place)) }
{
    hop == 0 && place.is_err()
}

// Rules 10.7 and 10.8: the run table after the edit and then the list, as planned. The runs come first, since the rows inside still stand
// where the plan found them.
fn write_edit(
    key: u64,
    hop: u16,
    place: Result<usize, usize>,
    p: Plan,
    count: usize,
    keys: &mut [u64],
    hops: &mut [u16],
    runs: usize,
    starts: &mut [u32],
    rhops: &mut [u16],
)
    requires { MayWrite key hop place p
        (pair (list_lent count keys.old hops.old) (runs_lent runs starts.old rhops.old)) }
    ensures { Wrote key hop
        (pair (list_lent count keys.old hops.old) (runs_lent runs starts.old rhops.old))
        keys.new hops.new starts.new rhops.new }
{
    let inside = Rows {
        keys: &keys[p.from..p.upto],
        hops: &hops[p.from..p.upto],
    };
    let net = cidr::network(key);
    let end = cidr::end_of(key);
    splice_runs(inside, p.base, net, end, p.splice, runs, starts, rhops);
    write_row(count, keys, hops, key, hop, place);
}

// One edit of a pair that agrees: 16 for a withdrawal of what isn't listed, 13 for too little room, else the list and its run table
// afterwards. Hop 0 stands for a withdrawal.
pub fn edit_agreed(
    net: u64,
    len: u64,
    hop: u16,
    count: usize,
    keys: &mut [u64],
    hops: &mut [u16],
    runs: usize,
    starts: &mut [u32],
    rhops: &mut [u16],
) -> Result<Edit, Refusal>
    requires { (is_prefix (key_of net len) ≡ true)
        × (len ≤ 32)
        × (pair_check (pair (list_lent count keys.old hops.old) (runs_lent runs starts.old rhops.old)) ≡ done) }
    ensures { edit_gave result keys.new hops.new starts.new rhops.new
        ≡ edit_agreed (key_of net len) hop
        (pair (list_lent count keys.old hops.old) (runs_lent runs starts.old rhops.old)) }
{
    let key = net * 64 + len;
    let rows = Rows {
        keys: &keys[..count],
        hops: &hops[..count],
    };
    let place = routes::place_of(rows.keys, key);
    if nothing_to_withdraw(hop, place) {
        return Err(Refusal::NotListed);
    }
    let p = plan_edit(rows, &starts[..runs], &rhops[..runs], net, len, hop, place);
    if exceeds(p.rows, keys, hops, p.runs, starts, rhops) {
        return Err(Refusal::NoRoom);
    }
    write_edit(key, hop, place, p, count, keys, hops, runs, starts, rhops);
    Ok(Edit {
        changed: p.changed,
        count: p.rows,
        runs: p.runs,
    })
}
