// The edited prefix by itself: where its row stands, and what its own addresses answer before and after the edit.
ghost use Rattle.std.specs.Prelude.{true, ◌≡◌, ◌≤◌};
ghost use Rattle.cidr.specs.Prefix.{key_of, is_prefix};
ghost use Rattle.sweep.specs.Sweep.{all_rows};
ghost use Rattle.within.specs.Own.{enclosing_hop};
ghost use Rattle.plan.specs.Edited.{edited_rows};
ghost use Rattle.plan.specs.Found.{FoundIn};

use sweep::Rows;
use within::parent::parent_hop;

// The hop at the prefix's own addresses: its row's, or that of the nearest row around it.
pub fn old_hop(rows: Rows, net: u64, len: u64, place: Result<usize, usize>) -> u16
    requires { (is_prefix (key_of net len) ≡ true)
        × (len ≤ 32)
        × FoundIn rows.keys.now (key_of net len) place }
    ensures { result ≡ enclosing_hop (key_of net len) (all_rows rows.entry.keys.now rows.entry.hops.now) }
{
    match place {
        Ok(at) => rows.hops[at],
        Err(_) => parent_hop(rows, net, len),
    }
}

// The same after the edit: the announced hop, or after a withdrawal that of the nearest row around.
pub fn new_hop(rows: Rows, net: u64, len: u64, hop: u16) -> u16
    requires { (is_prefix (key_of net len) ≡ true) × (len ≤ 32) }
    ensures { result ≡ enclosing_hop (key_of net len) (edited_rows (key_of net len) hop (all_rows rows.entry.keys.now rows.entry.hops.now)) }
{
    if hop == 0 {
        parent_hop(rows, net, len)
    } else {
        hop
    }
}
