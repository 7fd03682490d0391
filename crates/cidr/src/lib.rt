// Addresses, prefixes and keys as CIDR (RFC 4632) has them: what a prefix is, and which addresses it holds.
#![tactic(auto)]

ghost use Rattle.std.specs.Prelude.{◌≡◌, ◌+◌, ◌-◌, ◌*◌, ◌/◌, ◌^◌, ◌≤◌};
ghost use Rattle.cidr.specs.Prefix.{is_prefix, holds, network, end_of};

// Rule 2.1: how many addresses there are. An address is a number below it.
pub const ADDRESSES: u64 = 4294967296;

// A number with its low `bits` bits set to 0.
fn cleared(x: u64, bits: u64) -> u64
    requires { bits ≤ 32 }
    ensures { result ≡ x / 2 ^ bits * 2 ^ bits }
{
    (x >> bits) << bits
}

// How many bits of an address lie beyond a length; none beyond 32 and above.
fn bits_beyond(len: u64) -> u64
    ensures { result ≡ 32 - len }
{
    if len < 32 { 32 - len } else { 0 }
}

// Rule 2.7: whether a number is a key. Its length is at most 32, its network is an address and has no host bit that is 1.
#[tactic(auto, using(crate::proofs::Bits::too_long, crate::proofs::Bits::outside, crate::proofs::Bits::aligned))]
pub fn is_prefix(key: u64) -> bool
    ensures { result ≡ is_prefix key }
{
    let len = key % 64;
    let net = network(key);
    if 32 < len {
        return false;
    }
    if ADDRESSES <= net {
        return false;
    }
    cleared(net, bits_beyond(len)) == net
}

// Rule 2.3: whether the prefix holds the address. It does if the address becomes the prefix's network once its host bits are 0.
pub fn holds(key: u64, a: u32) -> bool
    ensures { result ≡ holds key a }
{
    let len = key % 64;
    cleared(a as u64, bits_beyond(len)) == network(key)
}

// Rule 2.7: the network of a key.
pub fn network(key: u64) -> u64
    ensures { result ≡ network key }
{
    key / 64
}

// Rule 2.4: the end of a key's prefix. For one that reaches 255.255.255.255 it is 2^32.
pub fn end_of(key: u64) -> u64
    ensures { result ≡ end_of key }
{
    let one: u64 = 1;
    network(key) + (one << bits_beyond(key % 64))
}
