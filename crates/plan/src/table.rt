// A run table rewritten in place: the block of runs behind the prefix goes where it will stand, and the runs inside are written before it.
ghost use Rattle.std.specs.Prelude.{◌+◌, ◌-◌, ◌≤◌, length};
ghost use Rattle.sweep.specs.Sweep.{all_rows, answer, From};
ghost use Rattle.plan.specs.Splice.{starts_inside, Splices, Spliced};

use ground::column;
use sweep::Rows;

// How a run table is spliced: the slot of the first run inside and the start that stands there, the first old run of the block and the slot
// that it goes to, and the hop of a run that begins at the prefix's end.
#[derive(Clone, Copy)]
pub struct Splice {
    pub from: usize,
    pub first: u32,
    pub past: usize,
    pub to: usize,
    pub hop: u16,
}

// The runs of the rows from net up to end, between what stays below and the block behind. The slot before the block gets the run at the end
// first: where there is none, the last run inside goes over it.
pub fn splice_runs(
    rows: Rows,
    base: u16,
    net: u64,
    end: u64,
    s: Splice,
    runs: usize,
    starts: &mut [u32],
    rhops: &mut [u16],
)
    requires { From rows.keys.now net
        × Splices (length (starts_inside (answer base (all_rows rows.keys.now rows.hops.now)) net end)) net end runs s
        × (runs ≤ length starts.old)
        × (runs ≤ length rhops.old)
        × (s.to + (runs - s.past) ≤ length starts.old)
        × (s.to + (runs - s.past) ≤ length rhops.old) }
    ensures { Spliced (answer base (all_rows rows.entry.keys.now rows.entry.hops.now)) net end runs s
        starts.old rhops.old starts.new rhops.new }
{
    let from = s.from;
    let to = s.to;
    column::shift(starts, runs, s.past, to, 0);
    column::shift(rhops, runs, s.past, to, 0);
    starts[to - 1] = (end % cidr::ADDRESSES) as u32;
    rhops[to - 1] = s.hop;
    sweep::write_runs(
        rows,
        base,
        net,
        end,
        &mut starts[from..],
        &mut rhops[from..],
    );
    starts[from] = s.first;
}
