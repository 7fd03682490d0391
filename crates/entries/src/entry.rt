// One clue against a list's rows: its key, the hop of the longest listed match of the clue itself, and whether a longer listed prefix
// extends it. Each is found by halving, through `routes::place_of`.
ghost use Rattle.std.specs.Prelude.{◌≡◌, true, ◌&&◌, ◌≤◌, ◌<◌, length, eqb};
ghost use Rattle.cidr.specs.Prefix.{addresses, is_prefix};
ghost use Rattle.routes.specs.Row.{rows_of};
ghost use Rattle.routes.specs.WellFormed.{well_formed};
ghost use Rattle.entries.specs.Clue.{clue_of, hop_around, extended};
ghost use Rattle.entries.specs.Entries.{mark};

// Rule 19.1: the key of a clue.
pub fn clue_key(len: u64, a: u64) -> u64
    requires { (len ≤ 32) × (a < addresses) }
    ensures { result ≡ clue_of len a }
{
    let bits = 32 - len;
    ((a >> bits) << bits) * 64 + len
}

// Rule 19.2: the hop of the longest listed match of a clue itself, or 0. For each length from the clue's down the key is looked for: at
// most 33 searches.
pub fn hop_around(keys: &[u64], hops: &[u16], a: u64, len: u64) -> u16
    requires well_formed_list { well_formed (length keys.now) keys.now hops.now ≡ true }
    requires clue_in_range { (len ≤ 32) × (a < addresses) }
    ensures { result ≡ hop_around (rows_of (length keys.now) keys.now hops.now) (clue_of len a) }
{
    for shorter in (0..len + 1).rev() {
        if let Ok(at) = routes::place_of(keys, clue_key(shorter, a)) {
            return hops[at];
        }
    }
    0
}

// Rule 19.2: whether a longer listed prefix extends the clue. In key order such prefixes stand right behind the clue's place.
pub fn extended(keys: &[u64], hops: &[u16], key: u64) -> bool
    requires well_formed_list { well_formed (length keys.now) keys.now hops.now ≡ true }
    requires key_is_prefix { is_prefix key ≡ true }
    ensures { result ≡ extended (rows_of (length keys.now) keys.now hops.now) key }
{
    let next = halving::lower(keys, key + 1);
    next < keys.len() && cidr::network(keys[next]) < cidr::end_of(key)
}

// Rule 19.2: the mark of a clue, by whether it is extended.
#[tactic(auto, unfolding(crate::specs::Entries::mark))]
pub fn mark(extended: bool) -> u8
    ensures { result ≡ mark extended }
{
    u8::from(extended)
}

// Rule 19.5: whether an entry is the list's for its clue.
pub fn entry_ok(keys: &[u64], hops: &[u16], key: u64, hop: u16, marked: u8) -> bool
    requires { well_formed (length keys.now) keys.now hops.now ≡ true }
    ensures { result ≡ (is_prefix key
        && (eqb hop (hop_around (rows_of (length keys.now) keys.now hops.now) key)
        && eqb marked (mark (extended (rows_of (length keys.now) keys.now hops.now) key)))) }
{
    if !cidr::is_prefix(key) {
        return false;
    }
    let around = hop_around(keys, hops, cidr::network(key), key % 64);
    hop == around && marked == mark(extended(keys, hops, key))
}
