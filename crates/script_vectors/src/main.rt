// Reads scripts of a stream back: each text stands after its length in 4 bytes, most significant first. Prints for each its block in hex, or REFUSED 25 and
// the position. The texts and the expected lines come from the independent reading.

#![tactic(auto)]

ghost use Rattle.std.specs.Prelude.{◌≡◌, ◌≤◌, length};

use frames::fill;
use script_telling::tell;
use std::io;
use std::io::{Read, Write};

fn wide(byte: u8) -> usize
    ensures { result ≤ 255 }
{
    byte as usize
}

// Room for the longest script and a byte more.
fn blank() -> [u8; 2024783]
    ensures { 2024783 ≡ length result }
{
    [0; 2024783]
}

// Whether a text was read into the start of the space and told; else the stream ends or is cut off.
fn one<R: Read, W: Write>(
    input: &mut R,
    out: &mut W,
    space: &mut [u8],
    output: &mut [u8],
) -> io::Result<bool> {
    let mut head = [0u8; 4];
    let got = fill(input, &mut head)?;
    if got == 0 {
        return Ok(false);
    }
    let size = wide(head[0]) * 16777216
        + wide(head[1]) * 65536
        + wide(head[2]) * 256
        + wide(head[3]);
    if got < 4 {
        out.write_all(b"CUT OFF\n")?;
        return Ok(false);
    }
    if space.len() < size {
        out.write_all(b"CUT OFF\n")?;
        return Ok(false);
    }
    let had = fill(input, &mut space[..size])?;
    if had < size {
        out.write_all(b"CUT OFF\n")?;
        return Ok(false);
    }
    tell(out, &space[..size], output)?;
    Ok(true)
}

// A proved loop has to end, and nothing says that standard input does: the turns are counted up to a number that no run reaches.
fn main(rt: HostRuntime) -> io::Result<()> {
    let mut input = rt.stdin();
    let mut out = rt.stdout();
    let mut space = blank();
    let mut output = [0u8; 65536];
    for _ in 0..u64::MAX {
        if !one(&mut input, &mut out, &mut space, &mut output)? {
            break;
        }
    }
    Ok(())
}
