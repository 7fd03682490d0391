// Why an address gets its hop, for C: the places of the rows that hold it with the one that decides, and these rows as text.
ghost use Rattle.c_structs.specs.Structs.{why_gave_c, why_for_c};
ghost use Rattle.c_answers.specs.Exports.{write_gave_c, write_for_c};
ghost use Rattle.std.specs.Prelude.{◌≡◌};
ghost use Rattle.routes.specs.Row.{list_lent};
ghost use Rattle.why.specs.Why.{why};
ghost use Rattle.why.specs.Text.{why_text};

use c_answers::count_for_c;
use c_structs::reasons::WhelkReason;

// Rules 18.1 to 18.4: the places of the rows of a lent list that hold an address, into lent memory, and the reason.
pub fn whelk_why(
    count: usize,
    keys: &[u64],
    hops: &[u16],
    a: u32,
    places: &mut [usize],
) -> WhelkReason
    ensures { why_gave_c result places.new
        ≡ why_for_c (why (list_lent count keys.now hops.now) a places.old) }
{
    why::why(count, keys, hops, a, places).into()
}

// Rule 18.5: these rows as the list writer writes them, into a lent buffer.
pub fn whelk_why_text(count: usize, keys: &[u64], hops: &[u16], a: u32, out: &mut [u8]) -> u64
    ensures { write_gave_c result out.new
        ≡ write_for_c (why_text (list_lent count keys.now hops.now) a out.old) }
{
    count_for_c(why::why_text(count, keys, hops, a, out))
}
