// Text on standard output for `figures`: addresses, prefixes and run tables. No contract can say what a program wrote; the program's stored
// output tests it. A write that fails ends what is written, and its error is returned.
#![tactic(auto)]

use std::{fmt, io};

// An address, which is written as a.b.c.d.
#[derive(Clone, Copy)]
pub struct Address(pub u32);

impl fmt::Display for Address {
    fn fmt<W: fmt::Write>(&self, f: &mut fmt::Formatter<W>) -> fmt::Result {
        let [first, second, third, last] = self.0.to_be_bytes();
        write!(f, "{first}.{second}.{third}.{last}")
    }
}

// A prefix, by its key, which is written as a.b.c.d/len.
#[derive(Clone, Copy)]
pub struct Prefix(pub u64);

impl fmt::Display for Prefix {
    fn fmt<W: fmt::Write>(&self, f: &mut fmt::Formatter<W>) -> fmt::Result {
        let network = Address((self.0 / 64 % 4294967296) as u32);
        let len = self.0 % 64;
        write!(f, "{network}/{len}")
    }
}

// An address, a space, a hop and an LF.
pub fn answer(rt: &impl Print, a: u32, hop: u16) -> io::Result<()> {
    let address = Address(a);
    println!(rt; "{address} {hop}")
}

// The first `count` runs of a table, a line a run, as far as both slices have them.
pub fn runs(rt: &impl Print, count: usize, starts: &[u32], hops: &[u16]) -> io::Result<()> {
    for (start, hop) in starts.iter().zip(hops).take(count) {
        answer(rt, *start, *hop)?;
    }
    Ok(())
}
