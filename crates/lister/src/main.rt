// The lister (FORMAT, "The listing"): it reads a reel on standard input and writes its listing to standard output. A read that
// fails is not taken for the end of the tape: then a message goes to standard error, and no listing is written.
#![tactic(auto)]

ghost use Rattle.std.specs.Prelude.{◌≤◌, length, IfOk};

use std::io;
use std::io::{Read, Stdin};

// One byte past the longest input is enough to know that an input is too long.
const INPUT_BYTES: usize = listing::LONGEST_INPUT + 1;

// Reads until no byte comes, a read fails or the buffer is full. A read may give a part of what is there, and gives no byte at the
// end of the input.
fn read_input(mut from: Stdin, buffer: &mut [u8]) -> io::Result<usize>
    ensures { IfOk result (λ n. n ≤ length buffer.new) }
{
    let mut done = 0;
    // Each read says how far it came, so there is nothing that a `for` could count.
    while done < buffer.len() {
        let more = from.read(&mut buffer[done..])?;
        if more == 0 {
            break;
        }
        done += more;
    }
    Ok(done)
}

// Where standard error cannot be written either, nothing is said.
fn complain(rt: &HostRuntime, message: &[u8]) {
    let _ = rt.stderr().write_all(message);
}

fn write_out(rt: &HostRuntime, text: &[u8]) {
    if rt.stdout().write_all(text).is_err() {
        complain(rt, b"lister: standard output cannot be written\n");
    }
}

// The buffer holds any listing, so that nothing is refused. An array with its length beside it: see `listing::LONGEST_LISTING`.
fn list(rt: &HostRuntime, input: &[u8]) {
    let mut text = [0u8; listing::LONGEST_LISTING];
    let length = listing::list_whole(input, &mut text);
    write_out(rt, &text[..length]);
}

fn main(rt: HostRuntime) {
    let mut buffer = [0u8; INPUT_BYTES];
    match read_input(rt.stdin(), &mut buffer) {
        Ok(n) => list(&rt, &buffer[..n]),
        Err(_) => complain(&rt, b"lister: standard input cannot be read\n"),
    }
}
