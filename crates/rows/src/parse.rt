// The parts of a row: digits, one number with the byte after it, and what six numbers say, by zeros in front and by their values.
// `read_row` puts them together.
ghost use Rattle.std.specs.Prelude.{◌≡◌, false, not, ◌&&◌, [], ◌-◌, ◌≤◌, ◌<◌, length, drop, get_or, ltb, eqb};
ghost use Rattle.cidr.specs.Prefix.{key_of};
ghost use Rattle.rows.specs.Rows.{digit0};
ghost use Rattle.rows.specs.Reading.{is_digit, address_of, out_of_range, judged_numbers, fields_of, reading_of};
ghost use Rattle.rows.specs.Inside.Fields.{digits_from, field_from, read_from};

use crate::{Row, RowFault, RowRead};

// The values of a row's six numbers: four octets, the length and the hop.
#[derive(Clone, Copy)]
pub struct Values {
    pub a: u32,
    pub b: u32,
    pub c: u32,
    pub d: u32,
    pub len: u32,
    pub hop: u32,
}

// Digits at a place of a row: their value, and the place after them.
#[derive(Clone, Copy)]
pub struct Digits {
    pub value: u32,
    pub next: usize,
}

// A number of the form that stands at a place of a row: its value, whether it has a zero in front, and the place after its mark.
#[derive(Clone, Copy)]
pub struct NumberAt {
    pub value: u32,
    pub zero: bool,
    pub next: usize,
}

// The digits of a row from a place on, at most `most` of them.
fn digits_from(row: &[u8], at: usize, most: usize) -> Digits
    requires { (at ≤ length row.now) × (most ≤ 5) }
    ensures read { result ≡ digits_from row.now at most }
    ensures within { (at ≤ result.next) × (result.next ≤ length row.now) }
{
    let mut value = 0;
    for next in at..at + most {
        if next == row.len() || !row[next].is_ascii_digit() {
            return Digits { value, next };
        }
        value = value * 10 + u32::from(row[next] - b'0');
    }
    Digits {
        value,
        next: at + most,
    }
}

// Whether the digits from one place to another have a zero in front: there is more than one, and the first is '0'.
fn zero_in_front(row: &[u8], at: usize, end: usize) -> bool
    requires { (at < end) × (end ≤ length row.now) }
    ensures { result ≡ (ltb 1 (end - at) && eqb (get_or row.now at 0) digit0) }
{
    end - at > 1 && row[at] == b'0'
}

// One number of the form from a place on: 1 to `most` digits and then the mark.
#[tactic(auto, using(crate::proofs::Fields::field_answers))]
pub(crate) fn field_from(row: &[u8], at: usize, most: usize, mark: u8) -> Option<NumberAt>
    requires { (at ≤ length row.now) × (most ≤ 5) × (is_digit mark ≡ false) }
    ensures { result ≡ field_from row.now at most mark }
{
    let digits = digits_from(row, at, most);
    let next = digits.next;
    if next == at || next == row.len() || row[next] != mark {
        return None;
    }
    Some(NumberAt {
        value: digits.value,
        zero: zero_in_front(row, at, next),
        next: next + 1,
    })
}

// The values are in range: octets to 255, length to 32, hop 1 to 65,535.
#[tactic(auto, unfolding(crate::specs::Reading::out_of_range))]
fn in_range(v: Values) -> bool
    ensures { result ≡ not (out_of_range v) }
{
    v.a <= 255
        && v.b <= 255
        && v.c <= 255
        && v.d <= 255
        && v.len <= 32
        && v.hop != 0
        && v.hop <= 65535
}

// The key of a row's address and length.
fn key_of(v: Values) -> u64
    ensures { result ≡ key_of (address_of v) v.len }
{
    let a = u64::from(v.a);
    let b = u64::from(v.b);
    let c = u64::from(v.c);
    let d = u64::from(v.d);
    (((a * 256 + b) * 256 + c) * 256 + d) * 64 + u64::from(v.len)
}

// What a row of the form says: zeros in front first, then range, then host bits.
#[tactic(auto, using(crate::proofs::Judging::judgements))]
fn judge(zeros: bool, v: Values) -> RowRead
    ensures { reading_of result ≡ judged_numbers zeros v }
{
    if zeros {
        return Err(RowFault::Zeros);
    }
    if !in_range(v) {
        return Err(RowFault::Range);
    }
    let key = key_of(v);
    if !cidr::is_prefix(key) {
        return Err(RowFault::HostBits);
    }
    let hop = v.hop as u16;
    Ok(Row { key, hop })
}

// What a row says whose first five numbers are read: the hop of 1 to 5 digits ends it.
#[tactic(auto, using(crate::proofs::RowParse::hop_answers))]
pub(crate) fn read_hop(row: &[u8], at: usize, v: [u32; 5], zeros: bool) -> RowRead
    requires { (at ≤ length row.now) × (length v ≡ 5) }
    ensures { reading_of result ≡ read_from zeros v (fields_of [] (drop at row.now)) }
{
    let hop = digits_from(row, at, 5);
    let end = hop.next;
    if end == at || end < row.len() {
        return Err(RowFault::Shape);
    }
    let zero = zero_in_front(row, at, end);
    let [a, b, c, d, len] = v;
    let six = Values {
        a,
        b,
        c,
        d,
        len,
        hop: hop.value,
    };
    judge(zeros | zero, six)
}
