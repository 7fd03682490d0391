// The split of a list for two cores: the second half, whose labels XOR with those of the first half to the plain answer at every address.
// The open prefixes of the first half are `sweep`'s stack; lookup over a half is `routes`'s, and run tables of halves are `runs`'s.
#![tactic(auto)]

ghost use Rattle.std.specs.Prelude.{◌≡◌, ◌∷◌, ◌-◌, ◌≤◌, ◌<◌, length, drop};
ghost use Rattle.std.specs.Int.Bits.{bit_xor};
ghost use Rattle.ground.specs.Slots.{written};
ghost use Rattle.routes.specs.Row.{list_lent};
ghost use Rattle.sweep.specs.Sweep.{all_rows};
ghost use Rattle.split.specs.Split.{split_lent, split_gave, split};
ghost use Rattle.split.specs.Inside.Labels.{AllOpen, Labelled, labels_from};

use ground::Refusal;
use sweep::{Rows, Standing};

// The stack of the open prefixes over some rows, moved on until all of them were opened.
#[tactic(auto, using(crate::proofs::Opening::opens_all))]
fn open_all(rows: Rows, ends: &mut [u64; 33], open_hops: &mut [u16; 33]) -> Standing
    requires { (length ends.old ≡ 33) × (length open_hops.old ≡ 33) }
    ensures { AllOpen rows.entry.keys.now rows.entry.hops.now ends.new open_hops.new
        result.row result.depth result.at }
{
    let mut s = sweep::begin(rows, 0, ends, open_hops);
    while s.row < rows.keys.len() {
        let row = s.row;
        let to = cidr::network(rows.keys[row]);
        s = sweep::step(rows, s, to, ends, open_hops);
    }
    s
}

// Rule 11.5: a row's label, of its own hop and of the first half's answer at its network.
fn label(hop: u16, first: u16) -> u16
    ensures { result ≡ bit_xor hop first }
{
    hop ^ first
}

// Rule 11.5: the labels of the rows from place k on. Each of them meets the open prefixes of the first half, in key order, so that every
// prefix is opened and closed once.
fn write_labels(rows: Rows, k: usize, labels: &mut [u16])
    requires { Labelled k rows.keys.now labels.old }
    ensures { labels.new ≡ written (labels_from k (all_rows rows.entry.keys.now rows.entry.hops.now)) labels.old }
{
    let mut ends = [0u64; 33];
    let mut open_hops = [0u16; 33];
    let first = Rows {
        keys: &rows.keys[..k],
        hops: &rows.hops[..k],
    };
    let mut s = open_all(first, &mut ends, &mut open_hops);
    for i in k..rows.keys.len() {
        let to = cidr::network(rows.keys[i]);
        s = sweep::step(first, s, to, &mut ends, &mut open_hops);
        labels[i - k] = label(rows.hops[i], sweep::top_hop(&open_hops, s.depth, 0));
    }
}

// Rule 11.5: the second half's keys, 0.0.0.0/0 and then those from place k on.
#[tactic(auto, using(crate::proofs::Filling::first_copied))]
fn put_keys(keys: &[u64], k: usize, out: &mut [u64])
    requires { (k ≤ length keys.now) × (length keys.now - k < length out.old) }
    ensures { out.new ≡ written (0 ∷ drop k keys.now) out.old }
{
    let rest = &keys[k..];
    out[0] = 0;
    out[1..rest.len() + 1].copy_from_slice(rest);
}

// Rule 11.5: its labels, 0 and then those of the rows from place k on.
#[tactic(auto, using(crate::proofs::Filling::first_then))]
fn put_labels(rows: Rows, k: usize, labels: &mut [u16])
    requires { (0 < k) × (k ≤ length rows.keys.now) × (length rows.keys.now - k < length labels.old) }
    ensures { labels.new ≡ written (0 ∷ labels_from k (all_rows rows.entry.keys.now rows.entry.hops.now)) labels.old }
{
    labels[0] = 0;
    write_labels(rows, k, &mut labels[1..]);
}

// Rules 11.1 to 11.7: the second half of a list split at k, into lent keys and labels; 11 for a list that isn't well-formed, 17 for a size
// that isn't 1 to n, 18 for a list without 0.0.0.0/0, 13 for a second half of more rows than room.
#[tactic(auto, using(crate::proofs::Outcome::split_tests))]
pub fn split(
    k: usize,
    count: usize,
    keys: &[u64],
    hops: &[u16],
    out: &mut [u64],
    labels: &mut [u16],
) -> Result<usize, Refusal>
    ensures { split_gave result out.new labels.new
        ≡ split k (list_lent count keys.now hops.now) (split_lent out.old labels.old) }
{
    if !routes::list_ok(count, keys, hops, false) {
        return Err(Refusal::IllFormed);
    }
    if k == 0 || count < k {
        return Err(Refusal::BadSize);
    }
    if keys[0] != 0 {
        return Err(Refusal::NoDefault);
    }
    let kept = count - k + 1;
    if out.len() < kept || labels.len() < kept {
        return Err(Refusal::NoRoom);
    }
    let rows = Rows {
        keys: &keys[..count],
        hops: &hops[..count],
    };
    put_keys(rows.keys, k, out);
    put_labels(rows, k, labels);
    Ok(kept)
}
