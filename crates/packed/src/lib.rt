// Lookup in the packed form of one segment of the address space. It reads what it is lent and knows nothing of the list; `segment` makes
// such a form.
#![tactic(auto)]

ghost use Rattle.std.specs.Prelude.{◌≡◌, ◌+◌, ◌≤◌};
ghost use Rattle.packed.specs.Lookup.{block_of, ones_to, segment_lent, packed_gave, packed_lookup};

use ground::Refusal;

// The block of an address: its low 16 bits, divided by the size of a block.
#[tactic(auto, unfolding(crate::specs::Lookup::block_of))]
fn block_of(width: u32, a: u32) -> usize
    requires { width ≤ 16 }
    ensures { result ≡ block_of width a }
{
    ((a % 65536) >> (16 - width)) as usize
}

// The ones of a word up to the bit of a block.
#[tactic(auto, using(crate::proofs::PackedOutcome::few_ones), unfolding(crate::specs::Lookup::ones_to))]
fn ones_to(word: u16, block: usize) -> usize
    ensures ones { result ≡ ones_to word block }
    ensures few { result ≤ 16 }
{
    u16::count_ones(word >> (15 - block % 16)) as usize
}

// One more than the place of a block's hop.
fn past_place(base: u16, ones: usize) -> usize
    requires { ones ≤ 16 }
    ensures { result ≡ base + ones }
{
    usize::from(base) + ones
}

// Lookup in a packed segment, by the low 16 bits of the address: its block's word and base, and the ones of the word up to the block's bit.
// It is 19 for a width above 16, and for what would be read outside a slice.
#[tactic(auto, using(crate::proofs::PackedOutcome::packed_tests))]
pub fn packed_lookup(
    width: u32,
    words: &[u16],
    bases: &[u16],
    hops: &[u16],
    a: u32,
) -> Result<u16, Refusal>
    ensures { packed_gave result ≡ packed_lookup (segment_lent width words.now bases.now hops.now) a }
{
    if 16 < width {
        return Err(Refusal::OutsidePacked);
    }
    let block = block_of(width, a);
    let at = block / 16;
    if words.len() <= at || bases.len() <= at {
        return Err(Refusal::OutsidePacked);
    }
    let past = past_place(bases[at], ones_to(words[at], block));
    if past == 0 || hops.len() < past {
        return Err(Refusal::OutsidePacked);
    }
    Ok(hops[past - 1])
}
