// How many bytes a text has, before it is written: of a number in decimal, an address, a row.
ghost use Rattle.std.specs.Prelude.{◌≡◌, ◌<◌, ◌≤◌, ◌/◌, length};
ghost use Rattle.cidr.specs.Prefix.{addresses};
ghost use Rattle.routes.specs.Row.{row};
ghost use Rattle.digits.specs.Digits.{decimal, dotted_text, row_text};

// A number in decimal: of an octet, a length, a hop.
fn of_number(n: u64) -> usize
    requires { n < 100000 }
    ensures { (result ≡ length (decimal n)) × (result ≤ 5) }
{
    if n < 10 {
        return 1;
    }
    if n < 100 {
        return 2;
    }
    if n < 1000 {
        return 3;
    }
    if n < 10000 {
        return 4;
    }
    5
}

// An address as a.b.c.d.
fn of_address(a: u64) -> usize
    requires { a < addresses }
    ensures { (result ≡ length (dotted_text a)) × (result ≤ 23) }
{
    let high = of_number(a / 16777216) + of_number(a / 65536 % 256);
    high + of_number(a / 256 % 256) + of_number(a % 256) + 3
}

// A row as `a.b.c.d/len hop` and an LF.
pub fn of_row(key: u64, hop: u16) -> usize
    requires { key / 64 < addresses }
    ensures { (result ≡ length (row_text (row key hop))) × (result ≤ 40) }
{
    of_address(key / 64) + of_number(key % 64) + of_number(hop as u64) + 3
}
