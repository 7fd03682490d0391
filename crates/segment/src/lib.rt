// The packed form of one segment of the address space, made of a list and its run table. Packing stands on the pair check of `runs` and
// reads the run table; lookup in what it leaves is `packed`'s. Which segments are packed, and where they are kept, is the caller's
// business.
#![tactic(auto)]

ghost use Rattle.std.specs.Prelude.{◌≡◌, true, not, ◌+◌, ◌-◌, ◌*◌, ◌^◌, ◌≤◌, ◌<◌, min, length, get_or, eqb};
ghost use Rattle.std.specs.Int.Count.{ones};
ghost use Rattle.ground.specs.Column.{ascends};
ghost use Rattle.ground.specs.Slots.{written};
ghost use Rattle.routes.specs.Row.{list_lent};
ghost use Rattle.runs.specs.Table.{runs_lent};
ghost use Rattle.runs.specs.Pair.{pair};
ghost use Rattle.segment.specs.Packed.{bit, word_from, words_for, code_words, bases_from, kept_hops};
ghost use Rattle.segment.specs.Pack.{pack_lent, pack_gave, pack};
ghost use Rattle.segment.specs.Inside.Blocks.{Runs, begun, hop_in, Stands, Before, Grid, pack_blocks};
ghost use Rattle.segment.specs.Inside.Width.{width_in};

use ground::Refusal;

// Where the walk over the blocks stands: how many runs have begun, and the hop of the last of them.
#[derive(Clone, Copy)]
struct Walk {
    begun: usize,
    hop: u16,
}

// The ones of a whole word.
fn ones_of(word: u16) -> u32
    ensures { (result ≡ ones word) × (result ≤ 16) }
{
    u16::count_ones(word)
}

// How many runs begin at an address or before it, of which some are known.
#[tactic(auto, using(crate::proofs::Walking::begun_walk))]
fn begun_at(starts: &[u32], known: usize, at: u64) -> usize
    requires { (ascends starts.now ≡ true) × (known ≤ begun starts.now at) }
    ensures { result ≡ begun starts.now at }
{
    for n in known..starts.len() {
        if at < u64::from(starts[n]) {
            return n;
        }
    }
    starts.len()
}

impl Walk {
    // The walk stands at an address.
    #[tactic(auto, using(crate::proofs::Walking::walked))]
    fn from(starts: &[u32], rhops: &[u16], at: u64) -> Walk
        requires { Runs starts.now rhops.now × (at < 4294967296) }
        ensures { Stands starts.now rhops.now at result }
    {
        let begun = halving::lower(starts, at + 1);
        Walk {
            begun,
            hop: rhops[begun - 1],
        }
    }

    // The walk goes on to an address: whether the hop there is another than where it stood. Where no run begins on the way, it stands there as
    // it is, and no hop is read.
    #[tactic(auto, using(crate::proofs::Walking::walked, crate::proofs::Walking::went_on))]
    fn go_on(&mut self, starts: &[u32], rhops: &[u16], at: u64) -> bool
        requires { Runs starts.now rhops.now × (self.old.begun ≤ begun starts.now at) × (self.old.hop ≡ get_or rhops.now (self.old.begun - 1) 0) }
        ensures stands { Stands starts.now rhops.now at self.new }
        ensures other { result ≡ not (eqb self.new.hop self.old.hop) }
    {
        if self.begun == starts.len() || at < u64::from(starts[self.begun]) {
            return false;
        }
        let last = self.hop;
        self.begun = begun_at(starts, self.begun + 1, at);
        self.hop = rhops[self.begun - 1];
        self.hop != last
    }
}

// A word whose bits stand at the lowest places, with zeros behind them.
fn filled(word: u16, zeros: u64) -> u16
    requires { (zeros < 16) × (word * 2 ^ zeros < 65536) }
    ensures { result ≡ word * 2 ^ zeros }
{
    word << zeros
}

// The code word of 16 blocks from `first` on, of which the first one's bit is highest. A block's bit is 1 where the walk finds another hop, and
// for the segment's first block, at which the walk stands, without that; a bit without a block is 0. What is the same for all blocks of a word is
// asked once a word.
fn word_at(
    starts: &[u32],
    rhops: &[u16],
    walk: &mut Walk,
    base: u64,
    size: u64,
    n: u64,
    first: u64,
) -> u16
    requires { Runs starts.now rhops.now × Grid base size n × Before starts.now rhops.now base size (min first n) walk.old × (first < n) }
    ensures word { result ≡ word_from (bit (hop_in starts.now rhops.now base size) n) 16 first }
    ensures next { Before starts.now rhops.now base size (min (first + 16) n) walk.new }
{
    let end = n.min(first + 16);
    let mut word = 0;
    for block in first..end {
        word = word * 2 + u16::from(walk.go_on(starts, rhops, base + block * size));
    }
    let word = filled(word, first + 16 - end);
    if first == 0 { 32768 + word } else { word }
}

// The code words of all blocks and their bases, from the front of two slices. All 65,536 bits may be 1, so the ones are counted in 32 bits,
// though each base fits 16.
fn write_words(
    starts: &[u32],
    rhops: &[u16],
    mut walk: Walk,
    base: u64,
    size: u64,
    n: u64,
    words: &mut [u16],
    bases: &mut [u16],
)
    requires { Runs starts.now rhops.now
        × Grid base size n
        × Before starts.now rhops.now base size 0 walk
        × (words_for n ≤ length words.old)
        × (words_for n ≤ length bases.old) }
    ensures { (words.new ≡ written (code_words (hop_in starts.now rhops.now base size) n) words.old)
        × (bases.new
        ≡ written (bases_from 0 (code_words (hop_in starts.now rhops.now base size) n)) bases.old) }
{
    let mut ones: u32 = 0;
    for j in 0..words_for(n) {
        let word = word_at(starts, rhops, &mut walk, base, size, n, 16 * j as u64);
        words[j] = word;
        bases[j] = ones as u16;
        ones += ones_of(word);
    }
}

// How many hops are kept: one for the first block, and one for each later block whose hop isn't that of the block before.
fn count_hops(starts: &[u32], rhops: &[u16], mut walk: Walk, base: u64, size: u64, n: u64) -> usize
    requires { Runs starts.now rhops.now × Grid base size n × Before starts.now rhops.now base size 0 walk }
    ensures { result ≡ length (kept_hops (hop_in starts.now rhops.now base size) n) }
{
    let mut at = base;
    let mut kept = 1;
    for _ in 1..n {
        at += size;
        if walk.go_on(starts, rhops, at) {
            kept += 1;
        }
    }
    kept
}

// The kept hops, from the front of a slice.
fn write_hops(
    starts: &[u32],
    rhops: &[u16],
    mut walk: Walk,
    base: u64,
    size: u64,
    n: u64,
    out: &mut [u16],
)
    requires { Runs starts.now rhops.now
        × Grid base size n
        × Before starts.now rhops.now base size 0 walk
        × (length (kept_hops (hop_in starts.now rhops.now base size) n) ≤ length out.old) }
    ensures { out.new ≡ written (kept_hops (hop_in starts.now rhops.now base size) n) out.old }
{
    out[0] = walk.hop;
    let mut at = base;
    let mut kept = 1;
    for _ in 1..n {
        at += size;
        if walk.go_on(starts, rhops, at) {
            out[kept] = walk.hop;
            kept += 1;
        }
    }
}

// The width of a segment, from the keys of a list: they ascend, so those of the segment stand side by side, and the first is found by
// halving.
#[tactic(auto, using(crate::proofs::Widening::widening))]
fn width_of(keys: &[u64], q: u64) -> u64
    requires { (ascends keys.now ≡ true) × (q < 65536) }
    ensures { result ≡ width_in q keys.now }
{
    let first = q * 4194304;
    let start = halving::lower(keys, first);
    let mut width = 0;
    for key in &keys[start..] {
        if first + 4194304 <= *key {
            return width;
        }
        width = width.max((key % 64).saturating_sub(16));
    }
    width
}

// What packing gives: the width with the counts of words and of hops.
#[derive(Clone, Copy, Debug, PartialEq, Eq)]
pub struct Packed {
    pub width: u64,
    pub words: usize,
    pub hops: usize,
}

// A power of two, to 2^16.
fn power(exponent: u64) -> u64
    requires { exponent ≤ 16 }
    ensures { result ≡ 2 ^ exponent }
{
    1 << exponent
}

// How many words n bits take.
#[tactic(auto, unfolding(crate::specs::Packed::words_for))]
fn words_for(n: u64) -> usize
    requires { n ≤ 65536 }
    ensures { result ≡ words_for n }
{
    ((n + 15) / 16) as usize
}

// The blocks of a segment whose width is known, packed into lent words, bases and hops: all is measured before the first write.
#[tactic(auto, using(crate::proofs::PackLaws::blocks_packed))]
fn pack_blocks(
    starts: &[u32],
    rhops: &[u16],
    base: u64,
    width: u64,
    words: &mut [u16],
    bases: &mut [u16],
    out: &mut [u16],
) -> Result<Packed, Refusal>
    requires { Runs starts.now rhops.now × (width ≤ 16) × (base + 65536 ≤ 4294967296) }
    ensures { pack_gave result words.new bases.new out.new
        ≡ pack_blocks width (hop_in starts.now rhops.now base (2 ^ (16 - width)))
        (pack_lent words.old bases.old out.old) }
{
    let n = power(width);
    let size = power(16 - width);
    let count = words_for(n);
    if words.len() < count || bases.len() < count {
        return Err(Refusal::NoRoom);
    }
    let walk = Walk::from(starts, rhops, base);
    let kept = count_hops(starts, rhops, walk, base, size, n);
    if out.len() < kept {
        return Err(Refusal::NoRoom);
    }
    write_words(starts, rhops, walk, base, size, n, words, bases);
    write_hops(starts, rhops, walk, base, size, n, out);
    Ok(Packed {
        width,
        words: count,
        hops: kept,
    })
}

// One segment of a list and its run table that are known to agree: the work after the pair check, which is that of the segment alone.
fn pack_segment(
    q: u64,
    keys: &[u64],
    starts: &[u32],
    rhops: &[u16],
    words: &mut [u16],
    bases: &mut [u16],
    out: &mut [u16],
) -> Result<Packed, Refusal>
    requires { (q < 65536) × (ascends keys.now ≡ true) × (width_in q keys.now ≤ 16) × Runs starts.now rhops.now }
    ensures { pack_gave result words.new bases.new out.new
        ≡ pack_blocks (width_in q keys.now)
        (hop_in starts.now rhops.now (q * 65536) (2 ^ (16 - width_in q keys.now)))
        (pack_lent words.old bases.old out.old) }
{
    let width = width_of(keys, q);
    pack_blocks(starts, rhops, q * 65536, width, words, bases, out)
}

// Segment q of a list and its run table into lent words, bases and hops; 11 or 14 for a pair that doesn't agree, 13 for too little room.
#[tactic(auto, using(crate::proofs::PackLaws::pair_refused))]
pub fn pack(
    q: u16,
    count: usize,
    keys: &[u64],
    hops: &[u16],
    runs: usize,
    starts: &[u32],
    rhops: &[u16],
    words: &mut [u16],
    bases: &mut [u16],
    out: &mut [u16],
) -> Result<Packed, Refusal>
    ensures { pack_gave result words.new bases.new out.new
        ≡ pack q
        (pair (list_lent count keys.now hops.now) (runs_lent runs starts.now rhops.now))
        (pack_lent words.old bases.old out.old) }
{
    runs::pair_check(count, keys, hops, runs, starts, rhops)?;
    pack_segment(
        u64::from(q),
        &keys[..count],
        &starts[..runs],
        &rhops[..runs],
        words,
        bases,
        out,
    )
}
