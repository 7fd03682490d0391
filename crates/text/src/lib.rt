// The list as text, as the list writer puts it and as the feed reads it back.
// How a row is written is `digits`'s, and whether a list is well-formed is `routes`'s to say; what is read, and where the bytes go, is the
// caller's business.
#![tactic(auto)]

ghost use Rattle.std.specs.Prelude.{◌≡◌, true, ◌≤◌, length, leb};
ghost use Rattle.routes.specs.Row.{list_lent, rows_of};
ghost use Rattle.routes.specs.WellFormed.{well_formed};
ghost use Rattle.text.specs.Text.{text_of, write_gave, write};
ghost use Rattle.digits.specs.Putting.{Wrote};

use digits::{put, size};
use ground::Refusal;

// How many bytes the text of a list has.
fn text_length(count: usize, keys: &[u64], hops: &[u16]) -> usize
    requires { well_formed count keys.now hops.now ≡ true }
    ensures { result ≡ length (text_of (rows_of count keys.now hops.now)) }
{
    let mut bytes = 0;
    for (key, hop) in keys[..count].iter().zip(hops) {
        bytes += size::of_row(*key, *hop);
    }
    bytes
}

// The most bytes that a row's text has: 255.255.255.255/32 65535 and its LF.
pub const ROW_BYTES: usize = 25;

// Whether the text of a list fits so many bytes. Where they are enough for any rows nothing is measured.
fn text_fits(count: usize, keys: &[u64], hops: &[u16], bytes: usize) -> bool
    requires { well_formed count keys.now hops.now ≡ true }
    ensures { result ≡ leb (length (text_of (rows_of count keys.now hops.now))) bytes }
{
    count <= bytes / ROW_BYTES || text_length(count, keys, hops) <= bytes
}

// The text of a list at the front of a slice that has room for it.
fn put_rows(count: usize, keys: &[u64], hops: &[u16], out: &mut [u8]) -> usize
    requires hops_value { well_formed count keys.now hops.now ≡ true }
    requires hops_in_bounds { length (text_of (rows_of count keys.now hops.now)) ≤ length out.old }
    ensures { Wrote (text_of (rows_of count keys.now hops.now)) result out.old out.new }
{
    let mut at = 0;
    for (key, hop) in keys[..count].iter().zip(hops) {
        at = put::row(out, at, *key, *hop);
    }
    at
}

// Rules 12.1 to 12.3: the text of a list at the front of a lent buffer, and its length; 11 for a list that isn't well-formed, 13 for a text
// that is longer than the buffer. The text is measured before its first byte is written.
#[tactic(auto, using(crate::proofs::Outcome::writer))]
pub fn write(count: usize, keys: &[u64], hops: &[u16], out: &mut [u8]) -> Result<usize, Refusal>
    ensures { write_gave result out.new ≡ write (list_lent count keys.now hops.now) out.old }
{
    if !routes::list_ok(count, keys, hops, false) {
        return Err(Refusal::IllFormed);
    }
    if !text_fits(count, keys, hops, out.len()) {
        return Err(Refusal::NoRoom);
    }
    Ok(put_rows(count, keys, hops, out))
}
