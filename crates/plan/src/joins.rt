// The two seams of an edit: whether the run at the prefix's network joins the one before it, and whether a run begins at the prefix's end.
ghost use Rattle.std.specs.Prelude.{cond, ◌||◌, ◌≡◌, ◌+◌, ◌≤◌, ◌<◌, eqb, leb};
ghost use Rattle.plan.specs.Joints.{OldTable, Jointed, Seamed};

use crate::table::Splice;
use within::inside::Middle;

// The slot from which the runs inside are written, and the start that stands there.
#[derive(Clone, Copy)]
pub struct Joint {
    pub from: usize,
    pub first: u32,
}

// Where the run at net has the hop of the one before it they are one run, in that one's slot and with its start.
fn joint_before(starts: &[u32], rhops: &[u16], net: u64, hop: u16) -> Joint
    requires { OldTable starts.now rhops.now × (net < 4294967296) }
    ensures { Jointed starts.now rhops.now net hop result }
{
    let place = halving::lower(starts, net);
    if net == 0 {
        return Joint {
            from: place,
            first: 0,
        };
    }
    let last = place - 1;
    if rhops[last] != hop {
        return Joint {
            from: place,
            first: net as u32,
        };
    }
    Joint {
        from: last,
        first: starts[last],
    }
}

// The slot of the block behind: one further up where a run begins at the end, which it does unless it has the last hop inside.
fn block_slot(after: usize, end: u64, hop: u16, last: u16) -> usize
    requires { after < 18446744073709551615 }
    ensures { result ≡ after + cond (leb 4294967296 end || eqb hop last) 0 1 }
{
    if cidr::ADDRESSES <= end {
        return after;
    }
    if hop == last {
        return after;
    }
    after + 1
}

// How the old run table is spliced for the runs inside that were measured.
pub fn seams(starts: &[u32], rhops: &[u16], net: u64, end: u64, middle: Middle) -> Splice
    requires { OldTable starts.now rhops.now × (net < end) × (end ≤ 4294967296) × (middle.runs ≤ 4294967296) }
    ensures { Seamed starts.now rhops.now net end middle result }
{
    let joint = joint_before(starts, rhops, net, middle.first);
    let past = halving::lower(starts, end + 1);
    let hop = rhops[past - 1];
    let to = block_slot(joint.from + middle.runs, end, hop, middle.last);
    Splice {
        from: joint.from,
        first: joint.first,
        past,
        to,
        hop,
    }
}
