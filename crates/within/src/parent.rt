// The hop of the nearest row around a prefix, found by halving.
ghost use Rattle.std.specs.Prelude.{true, ◌≡◌, ◌-◌, ◌≤◌, ◌<◌};
ghost use Rattle.cidr.specs.Prefix.{addresses, key_of, host_bits, is_prefix};
ghost use Rattle.routes.specs.Change.{withdrawn};
ghost use Rattle.sweep.specs.Sweep.{all_rows};
ghost use Rattle.within.specs.Own.{enclosing_hop};

use sweep::Rows;

// The key of the prefix of a length that holds an address.
fn key_around(a: u64, len: u64) -> u64
    requires { (a < addresses) × (len ≤ 32) }
    ensures { result ≡ key_of (a - host_bits len a) len }
{
    let bits = 32 - len;
    ((a >> bits) << bits) * 64 + len
}

// The hop of the longest listed prefix that holds a prefix and isn't it, or 0. For each shorter length, the longest first, its key is
// looked for by halving: at most 32 searches.
#[tactic(auto, using(crate::proofs::Placed::not_there, crate::proofs::Placed::network_fits))]
pub fn parent_hop(rows: Rows, net: u64, len: u64) -> u16
    requires { (is_prefix (key_of net len) ≡ true) × (len ≤ 32) }
    ensures { result ≡ enclosing_hop (key_of net len) (withdrawn (key_of net len) (all_rows rows.entry.keys.now rows.entry.hops.now)) }
{
    for l in (0..len).rev() {
        if let Ok(at) = routes::place_of(rows.keys, key_around(net, l)) {
            return rows.hops[at];
        }
    }
    0
}
