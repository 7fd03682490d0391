// The rows of a feed: where each ends, what each says by itself, and a reader that takes one at a time.
// Prefixes are `cidr`'s; the number that a row gets in an import, and the list, are `feed`'s.
#![tactic(auto)]

mod parse;

ghost use Rattle.std.specs.Prelude.{◌≡◌, ◌+◌, length, drop};
ghost use Rattle.rows.specs.Rows.{row_length};
ghost use Rattle.rows.specs.Reading.{read_row, reading_of};
ghost use Rattle.rows.specs.Pull.{pull, pull_gave, PulledBy};

use parse::{field_from, read_hop};

// What a good row says: a prefix, as its key, and a hop.
#[derive(Clone, Copy, Debug, PartialEq, Eq)]
pub struct Row {
    pub key: u64,
    pub hop: u16,
}

// What is wrong with a row by itself.
#[derive(Clone, Copy, Debug, PartialEq, Eq)]
pub enum RowFault {
    Shape,
    Zeros,
    Range,
    HostBits,
}

// What one row says by itself.
pub type RowRead = Result<Row, RowFault>;

// What a pull gives: the row that it finds, as it reads by itself, unless it stands at the feed's end, and the place of the next pull.
#[derive(Clone, Copy, Debug, PartialEq, Eq)]
pub struct RowPulled {
    pub row: Option<RowRead>,
    pub next: usize,
}

// The numbers of a row before its hop, four octets and the length: the most digits that each may have, and the byte that stands after it.
const FORM: [(usize, u8); 5] = [(3, b'.'), (3, b'.'), (3, b'.'), (3, b'/'), (2, b' ')];

// What one row says by itself: the whole row's shape first, then zeros in front, then its values.
pub fn read_row(row: &[u8]) -> RowRead
    ensures { reading_of result ≡ read_row row.now }
{
    let mut v = [0u32; 5];
    let mut zeros = false;
    let mut at = 0;
    for (i, &(most, mark)) in FORM.iter().enumerate() {
        let number = field_from(row, at, most, mark).ok_or(RowFault::Shape)?;
        v[i] = number.value;
        zeros |= number.zero;
        at = number.next;
    }
    read_hop(row, at, v, zeros)
}

// Where the row from a place on ends: at its LF, or at the feed's end. At or past the end, the same place.
pub fn row_end(feed: &[u8], at: usize) -> usize
    ensures { result ≡ at + row_length (drop at feed.now) }
{
    let Some(rest) = feed.get(at..) else {
        return at;
    };
    at + rest.iter().position(|b| *b == b'\n').unwrap_or(rest.len())
}

// The row from a place on: what it says, and the place behind its LF or the feed's end. At or past the end, no row and the same place.
#[tactic(auto, using(crate::proofs::Splitting::row_ends_within))]
pub fn pull_at(feed: &[u8], place: usize) -> RowPulled
    ensures { pull_gave result ≡ pull feed.now place }
{
    if feed.len() <= place {
        return RowPulled {
            row: None,
            next: place,
        };
    }
    let end = row_end(feed, place);
    let read = read_row(&feed[place..end]);
    RowPulled {
        row: Some(read),
        next: (end + 1).min(feed.len()),
    }
}

// A feed and a place in it, for hosts that take one row at a time. Any place may be set.
#[derive(Clone, Copy, Debug, PartialEq, Eq)]
pub struct Reader<'a> {
    pub feed: &'a [u8],
    pub place: usize,
}

impl<'a> Reader<'a> {
    // A reader at the start of a feed.
    pub fn new(feed: &'a [u8]) -> Reader<'a>
        ensures { (result.feed ≡ feed.entry) × (result.place ≡ 0) }
    {
        Reader { feed, place: 0 }
    }

    // The row from the reader's place on, if there is one; the reader then stands behind it.
    pub fn pull(&mut self) -> Option<RowRead>
        ensures { PulledBy self.old result self.new }
    {
        let p = pull_at(self.feed, self.place);
        self.place = p.next;
        p.row
    }
}
