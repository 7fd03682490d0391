// The list after an edit, written in place.
ghost use Rattle.std.specs.Prelude.{true, ◌≡◌, ◌≤◌, length, take, IsOk};
ghost use Rattle.ground.specs.Slots.{rewritten};
ghost use Rattle.routes.specs.Row.{rows_of, keys_of, hops_of, list_room};
ghost use Rattle.routes.specs.WellFormed.{half_formed};
ghost use Rattle.plan.specs.Edited.{edited_rows};
ghost use Rattle.plan.specs.Found.{FoundIn};

use ground::column;

// The prefix's row goes in, goes out or gets the hop; hop 0 stands for a withdrawal, which is only asked for a listed prefix.
pub fn write_row(
    count: usize,
    keys: &mut [u64],
    hops: &mut [u16],
    key: u64,
    hop: u16,
    place: Result<usize, usize>,
)
    requires { (half_formed count keys.old hops.old ≡ true)
        × FoundIn (take count keys.old) key place
        × (hop ≡ 0 → IsOk place)
        × (length (edited_rows key hop (rows_of count keys.old hops.old)) ≤ list_room keys.old hops.old) }
    ensures { (keys.new ≡
        rewritten (keys_of (edited_rows key hop (rows_of count keys.old hops.old))) count keys.old)
        × (hops.new ≡
        rewritten (hops_of (edited_rows key hop (rows_of count keys.old hops.old))) count hops.old) }
{
    match place {
        Ok(at) if hop == 0 => {
            column::remove(keys, count, at, 0);
            column::remove(hops, count, at, 0);
        }
        Ok(at) => column::set(hops, at, hop),
        Err(at) => {
            column::insert(keys, count, at, key);
            column::insert(hops, count, at, hop);
        }
    }
}
