// One edit of a list and its run table: announce and withdraw, and the exact number of addresses that get another answer. An edit checks
// the pair first; what it does to a pair that agrees is local work, in `agreed`, by the plan of `plan`.
#![tactic(auto)]

pub mod agreed;

ghost use Rattle.std.specs.Prelude.{true, ◌≡◌, ◌≤◌};
ghost use Rattle.cidr.specs.Prefix.{key_of, is_prefix};
ghost use Rattle.routes.specs.Row.{list_lent};
ghost use Rattle.runs.specs.Table.{runs_lent};
ghost use Rattle.runs.specs.Pair.{pair};
ghost use Rattle.edit.specs.Edit.{bad_prefix, edit_gave, announce, withdraw};
ghost use Rattle.edit.specs.Inside.Local.{edit_pair};

use agreed::edit_agreed;
use ground::Refusal;

// What an edit did: the changed number and the new counts.
#[derive(Clone, Copy, Debug, PartialEq, Eq)]
pub struct Edit {
    pub changed: u64,
    pub count: usize,
    pub runs: usize,
}

// Rule 10.2: whether an edit names no prefix. The length is looked at first, since 64 and more would go into the key's network.
fn bad_prefix(net: u64, len: u64) -> bool
    requires { net ≤ 4294967295 }
    ensures { result ≡ bad_prefix net len }
{
    if 32 < len {
        return true;
    }
    !cidr::is_prefix(net * 64 + len)
}

// Both edits of a prefix that is one: 11 or 14 of the pair, else what the local work gives; hop 0 stands for a withdrawal.
fn edit_pair(
    net: u64,
    len: u64,
    hop: u16,
    count: usize,
    keys: &mut [u64],
    hops: &mut [u16],
    runs: usize,
    starts: &mut [u32],
    rhops: &mut [u16],
) -> Result<Edit, Refusal>
    requires { (is_prefix (key_of net len) ≡ true) × (len ≤ 32) }
    ensures { edit_gave result keys.new hops.new starts.new rhops.new
        ≡ edit_pair (key_of net len) hop
        (pair (list_lent count keys.old hops.old) (runs_lent runs starts.old rhops.old)) }
{
    runs::pair_check(count, keys, hops, runs, starts, rhops)?;
    edit_agreed(net, len, hop, count, keys, hops, runs, starts, rhops)
}

// Rule 10.1: a prefix gets a row with the hop, or its row the hop, and the run table follows; 15 for what is no prefix or hop 0, 11 and 14
// for a pair that isn't one, 13 for a list or a run table that wouldn't fit.
pub fn announce(
    net: u32,
    len: u32,
    hop: u16,
    count: usize,
    keys: &mut [u64],
    hops: &mut [u16],
    runs: usize,
    starts: &mut [u32],
    rhops: &mut [u16],
) -> Result<Edit, Refusal>
    ensures { edit_gave result keys.new hops.new starts.new rhops.new
        ≡ announce net len hop
        (pair (list_lent count keys.old hops.old) (runs_lent runs starts.old rhops.old)) }
{
    if bad_prefix(net as u64, len as u64) {
        return Err(Refusal::BadEdit);
    }
    if hop == 0 {
        return Err(Refusal::BadEdit);
    }
    edit_pair(
        net as u64, len as u64, hop, count, keys, hops, runs, starts, rhops,
    )
}

// Rule 10.1: a listed prefix loses its row, and the run table follows; 15 for what is no prefix, 11 and 14 for a pair that isn't one, 16
// for a prefix that isn't listed, 13 for a run table that wouldn't fit.
pub fn withdraw(
    net: u32,
    len: u32,
    count: usize,
    keys: &mut [u64],
    hops: &mut [u16],
    runs: usize,
    starts: &mut [u32],
    rhops: &mut [u16],
) -> Result<Edit, Refusal>
    ensures { edit_gave result keys.new hops.new starts.new rhops.new
        ≡ withdraw net len
        (pair (list_lent count keys.old hops.old) (runs_lent runs starts.old rhops.old)) }
{
    if bad_prefix(net as u64, len as u64) {
        return Err(Refusal::BadEdit);
    }
    edit_pair(
        net as u64, len as u64, 0, count, keys, hops, runs, starts, rhops,
    )
}
