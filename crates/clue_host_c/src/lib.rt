// The C interface of the hints: each entry of `clue_host` under its C name, with the contract that it has there.
// include/whelkhollow_clue.h declares what is exported here, and nothing else is done here.
#![tactic(auto)]

ghost use Rattle.clue_host.specs.Exports.{host_entries_gave, hint_for_c, quick_for_c};
ghost use Rattle.std.specs.Prelude.{◌≡◌};
ghost use Rattle.routes.specs.Row.{list_lent};
ghost use Rattle.entries.specs.Entries.{entries_lent};
ghost use Rattle.clue.specs.Build.{build_entries};
ghost use Rattle.clue.specs.Lookup.{hint_lookup};
ghost use Rattle.clue.specs.Quick.{quick_lookup};

use clue_host::WhelkEntries;

// Rules 19.3 and 19.4: the entries of a lent list for lent clues, into lent memory.
#[unsafe(no_mangle)]
pub extern "C" fn whelk_clue_build(
    count: usize,
    keys: &[u64],
    hops: &[u16],
    lengths: &[u8],
    addresses: &[u32],
    ekeys: &mut [u64],
    ehops: &mut [u16],
    marks: &mut [u8],
) -> WhelkEntries
    ensures { host_entries_gave result ekeys.new ehops.new marks.new
        ≡ build_entries (list_lent count keys.now hops.now) lengths.now addresses.now
        (entries_lent ekeys.old ehops.old marks.old) }
{
    clue_host::whelk_clue_build(count, keys, hops, lengths, addresses, ekeys, ehops, marks)
}

// Rules 19.5 and 19.6: the plain answer of a lent list, with a hint and lent entries.
#[unsafe(no_mangle)]
pub extern "C" fn whelk_clue_lookup(
    count: usize,
    keys: &[u64],
    hops: &[u16],
    ekeys: &[u64],
    ehops: &[u16],
    marks: &[u8],
    len: u32,
    a: u32,
) -> u64
    ensures { result
        ≡ hint_for_c
        (hint_lookup (list_lent count keys.now hops.now)
        (entries_lent ekeys.now ehops.now marks.now) len a) }
{
    clue_host::whelk_clue_lookup(count, keys, hops, ekeys, ehops, marks, len, a)
}

// Rule 19.7: what lent entries say of a clue, by halving.
#[unsafe(no_mangle)]
pub extern "C" fn whelk_clue_quick(
    ekeys: &[u64],
    ehops: &[u16],
    marks: &[u8],
    len: u32,
    a: u32,
) -> u32
    ensures { result ≡ quick_for_c (quick_lookup (entries_lent ekeys.now ehops.now marks.now) len a) }
{
    clue_host::whelk_clue_quick(ekeys, ehops, marks, len, a)
}
