// Why an address gets its hop, for the people at a duty desk: the rows of a list that hold it, shortest prefix first, as places and as
// text, and the one that decides. The list and its plain answer are `routes`'s, and how rows are written is `text`'s.
#![tactic(auto)]

ghost use Rattle.std.specs.Prelude.{◌≡◌, true, map, ℕ, ◌≤◌, ◌<◌, length, get_or, take};
ghost use Rattle.ground.specs.Slots.{written};
ghost use Rattle.routes.specs.Row.{list_lent, rows_of};
ghost use Rattle.routes.specs.WellFormed.{well_formed};
ghost use Rattle.text.specs.Text.{write_gave};
ghost use Rattle.why.specs.Why.{places_of, why_gave, why};
ghost use Rattle.why.specs.Text.{why_text};

use ground::Refusal;

// Rule 18.1: at most 33 rows hold an address, one of each length from 0 to 32.
pub const MOST_MATCHES: usize = 33;

// Why an address gets its hop: the place of the row that decides, and how many places were listed.
#[derive(Clone, Copy, Debug, PartialEq, Eq)]
pub struct Reason {
    pub place: usize,
    pub listed: usize,
}

// The places of the rows that hold an address, in the order of the list, at the front of an array that has room for all.
fn find(
    count: usize,
    keys: &[u64],
    hops: &[u16],
    a: u32,
    found: &mut [usize; MOST_MATCHES],
) -> usize
    requires { well_formed count keys.now hops.now ≡ true }
    ensures few { result ≤ 33 }
    ensures many { result ≡ length (places_of a (rows_of count keys.now hops.now)) }
    ensures listed { take result found.new ≡ places_of a (rows_of count keys.now hops.now) }
{
    let mut n = 0;
    for (at, key) in keys[..count].iter().enumerate() {
        if cidr::holds(*key, a) {
            found[n] = at;
            n += 1;
        }
    }
    n
}

// Rules 18.1 to 18.4: the places of all rows that hold an address, shortest prefix first, at the front of a lent slice, and the reason, if a
// row holds it; 11 for a list that isn't well-formed, 13 for too few lent places.
#[tactic(auto, using(crate::proofs::Outcome::refusals))]
pub fn why(
    count: usize,
    keys: &[u64],
    hops: &[u16],
    a: u32,
    places: &mut [usize],
) -> Result<Option<Reason>, Refusal>
    ensures { why_gave result places.new ≡ why (list_lent count keys.now hops.now) a places.old }
{
    if !routes::list_ok(count, keys, hops, false) {
        return Err(Refusal::IllFormed);
    }
    let mut found = [0usize; MOST_MATCHES];
    let n = find(count, keys, hops, a, &mut found);
    if places.len() < n {
        return Err(Refusal::NoRoom);
    }
    places[..n].copy_from_slice(&found[..n]);
    let Some(last) = n.checked_sub(1) else {
        return Ok(None);
    };
    Ok(Some(Reason {
        place: found[last],
        listed: n,
    }))
}

// The keys and the hops at some places, at the front of two slices that have room for them.
fn gather(found: &[usize], keys: &[u64], hops: &[u16], held_keys: &mut [u64], held_hops: &mut [u16])
    requires in_bounds { (length found.now ≤ length held_keys.old) × (length found.now ≤ length held_hops.old) }
    requires by_index { (i : ℕ) → i < length found.now → (get_or found.now i 0 < length keys.now) × (get_or found.now i 0 < length hops.now) }
    ensures { (held_keys.new
        ≡ written (map (λ at. get_or keys.now at 0) found.now) held_keys.old)
        × (held_hops.new
        ≡ written (map (λ at. get_or hops.now at 0) found.now) held_hops.old) }
{
    for (i, at) in found.iter().enumerate() {
        held_keys[i] = keys[*at];
        held_hops[i] = hops[*at];
    }
}

// Rule 18.5: the rows that hold an address as the list writer writes them, shortest prefix first, at the front of a lent buffer; 11 for a
// list that isn't well-formed, 13 for a text that is longer than the buffer.
#[tactic(auto, using(crate::proofs::Outcome::refusals))]
pub fn why_text(
    count: usize,
    keys: &[u64],
    hops: &[u16],
    a: u32,
    out: &mut [u8],
) -> Result<usize, Refusal>
    ensures { write_gave result out.new ≡ why_text (list_lent count keys.now hops.now) a out.old }
{
    if !routes::list_ok(count, keys, hops, false) {
        return Err(Refusal::IllFormed);
    }
    let mut found = [0usize; MOST_MATCHES];
    let n = find(count, keys, hops, a, &mut found);
    let mut held_keys = [0u64; MOST_MATCHES];
    let mut held_hops = [0u16; MOST_MATCHES];
    gather(&found[..n], keys, hops, &mut held_keys, &mut held_hops);
    text::write(n, &held_keys, &held_hops, out)
}
