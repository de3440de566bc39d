// Reads a rota on standard input and prints its listing: all that it prints is said in crate listing_print.
#![tactic(auto)]

ghost use Rattle.std.specs.Prelude.{◌≤◌, length, IfOk};

use std::io;
use std::io::{Read, Write};

fn main(rt: HostRuntime) -> io::Result<()> {
    // One byte more than is taken, so that longer input is seen to be longer.
    let mut input = [0u8; 8193];
    let n = read_full(&mut rt.stdin(), &mut input)?;
    let mut text = [0u8; listing_print::LONGEST];
    let k = listing_print::print(&input[..n], &mut text);
    rt.stdout().write_all(&text[..k])
}

// Reads until the buffer is full or the input ends: how many bytes it put at its start. (A loop: std's `read_exact` fails where the input ends early, and
// its `read_to_end` needs a heap.)
fn read_full<R: Read>(input: &mut R, buffer: &mut [u8]) -> io::Result<usize>
    ensures { IfOk result (λ n. n ≤ length buffer.new) }
{
    let mut done = 0;
    while done < buffer.len() {
        let n = input.read(&mut buffer[done..])?;
        if n == 0 {
            break;
        }
        done += n;
    }
    Ok(done)
}
