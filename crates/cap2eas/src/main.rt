// Prints the conversion of the message on standard input.
#![tactic(auto)]

ghost use Rattle.std.specs.Prelude.{◌≤◌, length, IfOk};

use std::io;
use std::io::Read;

// The longest message, and one byte more, which tells a longer one.
const ROOM: usize = 32769;

// Reads until `message` is full or the input ends, and says how many bytes were read. A proved loop has to end: each turn but the last reads a byte or more.
fn read_all(input: &mut impl Read, message: &mut [u8]) -> io::Result<usize>
    ensures { IfOk result (λ n. n ≤ length message.old) }
{
    let mut n: usize = 0;
    for _ in 0..message.len() {
        let got = input.read(&mut message[n..])?;
        if got == 0 {
            return Ok(n);
        }
        n += got;
    }
    Ok(n)
}

fn main(rt: HostRuntime) -> io::Result<()> {
    let mut message = [0u8; ROOM];
    let mut out = [0u8; report::ROOM];
    let n = read_all(&mut rt.reader(), &mut message)?;
    let end = report::program(&message[..n], &mut out);
    rt.write_all(&out[..end])
}
