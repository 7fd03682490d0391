// Rules 13.1 to 13.4: the program. It reads a feed from standard input and writes what `program` makes of it, every byte of which is
// proved. Only reading and writing are left here: what is read is promised of any reader, and no contract can say what was written.
#![tactic(auto)]

ghost use Rattle.std.specs.Prelude.{◌≡◌, ◌≤◌, ◌<◌, false, length, take};
ghost use Rattle.std.specs.Io.KnownBytes.{Consumes, IsAtEnd};

use program::{LONGEST_FEED, PROGRAM_TEXT, program_text};
use std::io::{Input, Read};

// How many bytes were read, and whether a read failed. No Result: how much was read is promised of a failed read too, so both sides would have it.
#[derive(Drop)]
struct Fed {
    bytes: usize,
    failed: bool,
}

// Reads into the front of a buffer until that is full or the input ends. Rule 13.6: a read that fails is told apart from the end, so that
// no part of a feed is taken for the whole.
fn read_feed<R: Read>(from: &mut R, input: &mut [u8]) -> Fed
    ensures in_room { result.bytes ≤ length input.new }
    ensures at_front { result.bytes ≡ length (take result.bytes input.new) }
    ensures bytes { Consumes (R.remaining from.old) (R.remaining from.new) (take result.bytes input.new) }
    ensures whole { result.failed ≡ false → result.bytes < length input.new → IsAtEnd (R.remaining from.new) }
{
    let mut bytes = 0;
    while bytes < input.len() {
        match from.read(&mut input[bytes..]) {
            Ok(0) => {
                return Fed {
                    bytes,
                    failed: false,
                };
            }
            Ok(more) => bytes += more,
            Err(_) => {
                return Fed {
                    bytes,
                    failed: true,
                };
            }
        }
    }
    Fed {
        bytes,
        failed: false,
    }
}

// Writes to standard output. A write that fails is said on standard error.
fn write(rt: &(impl Print + Eprint), bytes: &[u8]) {
    if rt.write_all(bytes).is_err() {
        let _ = rt.eprintln("whelk: write failed");
    }
}

// Rule 13.1: one byte more is asked for, so that a feed that is too long is known.
fn main(rt: HostRuntime) {
    let mut input = [0u8; LONGEST_FEED + 1];
    let fed = read_feed(&mut rt.stdin(), &mut input);
    if fed.failed {
        write(&rt, b"read failed\n");
        return;
    }
    let n = fed.bytes;
    let mut out = [0u8; PROGRAM_TEXT];
    let bytes = program_text(&input[..n], &mut out);
    write(&rt, &out[..bytes]);
}
