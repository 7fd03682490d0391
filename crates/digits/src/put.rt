// Text into a lent slice: a number in decimal, with the byte after it, an address, a row. The decimal writer is lent what is left of the
// output, fills it from its front, and returns how many bytes it wrote. The others are told a place and return the place after their text.
ghost use Rattle.std.specs.Prelude.{◌≡◌, ◌+◌, ◌≤◌, ◌<◌, length};
ghost use Rattle.routes.specs.Row.{row};
ghost use Rattle.digits.specs.Digits.{decimal, row_text};
ghost use Rattle.digits.specs.Putting.{number_text, address_text, Wrote, Fits, Put};

// The byte of a digit.
fn digit(n: u64) -> u8
    requires { n < 10 }
    ensures { result ≡ 48 + n }
{
    48 + n as u8
}

// A number of at most three digits in decimal. Octets and lengths are such numbers.
fn short(out: &mut [u8], n: u64) -> usize
    requires { (n < 1000) × (length (decimal n) ≤ length out.old) }
    ensures { Wrote (decimal n) result out.old out.new }
{
    if n < 10 {
        out[0] = digit(n);
        return 1;
    }
    if n < 100 {
        out[0] = digit(n / 10);
        out[1] = digit(n % 10);
        return 2;
    }
    out[0] = digit(n / 100);
    out[1] = digit(n / 10 % 10);
    out[2] = digit(n % 10);
    3
}

// A number of at most five digits in decimal. Hops are such numbers.
fn five(out: &mut [u8], n: u64) -> usize
    requires { (n < 100000) × (length (decimal n) ≤ length out.old) }
    ensures { Wrote (decimal n) result out.old out.new }
{
    if n < 1000 {
        return short(out, n);
    }
    let at = short(out, n / 100);
    out[at] = digit(n / 10 % 10);
    out[at + 1] = digit(n % 10);
    at + 2
}

// A number of any length in decimal.
fn long(out: &mut [u8], n: u64) -> usize
    requires { length (decimal n) ≤ length out.old }
    ensures { Wrote (decimal n) result out.old out.new }
{
    if n < 100000 {
        return five(out, n);
    }
    let at = long(out, n / 10);
    out[at] = digit(n % 10);
    at + 1
}

// A number in decimal, its first digit first. Numbers of rows are short, and only others take a call.
pub fn decimal(out: &mut [u8], n: u64) -> usize
    requires { length (decimal n) ≤ length out.old }
    ensures { Wrote (decimal n) result out.old out.new }
{
    if n < 100000 {
        return five(out, n);
    }
    long(out, n)
}

// A number in decimal at a place, with the byte that stands after it.
pub fn number(out: &mut [u8], at: usize, n: u64, mark: u8) -> usize
    requires { Fits at (number_text n mark) out.old }
    ensures { Put at (number_text n mark) result out.old out.new }
{
    let after = at + decimal(&mut out[at..], n);
    out[after] = mark;
    after + 1
}

// An address as a.b.c.d at a place, with the byte that stands after it.
pub fn address(out: &mut [u8], at: usize, a: u64, mark: u8) -> usize
    requires { Fits at (address_text a mark) out.old }
    ensures { Put at (address_text a mark) result out.old out.new }
{
    let b = number(out, at, a / 16777216, 46);
    let c = number(out, b, a / 65536 % 256, 46);
    let d = number(out, c, a / 256 % 256, 46);
    number(out, d, a % 256, mark)
}

// A row as `a.b.c.d/len hop` at a place, with its LF.
pub fn row(out: &mut [u8], at: usize, key: u64, hop: u16) -> usize
    requires { Fits at (row_text (row key hop)) out.old }
    ensures { Put at (row_text (row key hop)) result out.old out.new }
{
    let len = address(out, at, key / 64, 47);
    let last = number(out, len, key % 64, 32);
    number(out, last, hop as u64, 10)
}
