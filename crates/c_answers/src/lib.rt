// Answers as C gets them where one number stands for an answer of the library (7.10). It stands on the crates whose answers they are and is
// for `host` alone, which makes the calls and leaves to this crate what becomes of their answers; structs are `c_structs`'s.
#![tactic(auto)]

ghost use Rattle.c_answers.specs.Exports.{lookup_for_c, probed_gave_c, probed_for_c, address_bytes, count_for_c};
ghost use Rattle.std.specs.Prelude.{◌≡◌, ◌≤◌, length};
ghost use Rattle.ground.specs.Slots.{written};
ghost use Rattle.routes.specs.Lookup.{lookup_gave};
ghost use Rattle.lookup.specs.Lookup.{run_lookup_gave};
ghost use Rattle.runs.specs.Pair.{pair_gave};

use ground::Refusal;
use lookup::Probed;

// In the one number that C gets of a lookup, the number stands above the hop.
pub const NUMBER_UNIT: u32 = 65536;

// The number of a refusal stands above a count, and a run lookup's probes above its number and hop.
pub const HIGH_UNIT: u64 = 4294967296;

// Rules 7.9 and 7.10: a lookup over a list or in a packed segment gives C hop + 65,536 × number.
#[tactic(auto, unfolding(crate::specs::Exports::lookup_for_c))]
pub fn lookup_for_c(r: Result<u16, Refusal>) -> u32
    ensures { result ≡ lookup_for_c (lookup_gave r) }
{
    match r {
        Ok(hop) => u32::from(hop),
        Err(e) => NUMBER_UNIT * u32::from(e),
    }
}

// Rule 7.10: a run lookup over slices gives C hop + 65,536 × number + 4,294,967,296 × probes, and leaves the last address in a lent number.
#[tactic(auto, unfolding(crate::specs::Exports::probed_for_c, crate::specs::Exports::run_lookup_for_c, crate::specs::Exports::lookup_for_c))]
pub fn probed_for_c(r: Result<Probed, Refusal>, out: &mut u32) -> u64
    requires { (run_lookup_gave r).probes ≤ 64 }
    ensures { probed_gave_c result out.new ≡ probed_for_c (run_lookup_gave r) out.old }
{
    match r {
        Ok(found) => {
            *out = found.last;
            HIGH_UNIT * (found.probes as u64) + u64::from(found.hop)
        }
        Err(e) => u64::from(lookup_for_c(Err(e))),
    }
}

// An address into the first four bytes of a slice, the highest in front.
#[tactic(auto, unfolding(ground::specs::Slots::written))]
pub fn put_address(a: u32, out: &mut [u8])
    requires { 4 ≤ length out.old }
    ensures { out.new ≡ written (address_bytes a) out.old }
{
    out[..4].copy_from_slice(&a.to_be_bytes());
}

// Rule 7.10: what answers a count, a build, a list writer and a split, gives C count + 4,294,967,296 × number.
pub fn count_for_c(r: Result<usize, Refusal>) -> u64
    ensures { result ≡ count_for_c r }
{
    match r {
        Ok(n) => n as u64,
        Err(e) => HIGH_UNIT * u64::from(u32::from(e)),
    }
}

// The number of a pair check's answer.
pub fn pair_for_c(r: Result<(), Refusal>) -> usize
    ensures { result ≡ pair_gave r }
{
    match r {
        Ok(()) => ground::DONE as usize,
        Err(e) => u32::from(e) as usize,
    }
}
