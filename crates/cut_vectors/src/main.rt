// Cuts of loads, through the real check at the start: a stream of frames, an area and then a block for each load.
// For each write, and each of the 256 values in its place, it is told whether the old block starts, the new one, none, or another; then the same
// after loads that were begun again on a torn image and cut a second time.

#![tactic(auto)]

use loading::{first_write, place, start, step};
use std::io;
use std::io::{Read, Write};

// How many images started the old block, none, the new one, or another.
#[derive(Clone, Copy)]
struct Tally {
    old: u64,
    refused: u64,
    new: u64,
    other: u64,
}

fn nothing() -> Tally {
    Tally {
        old: 0,
        refused: 0,
        new: 0,
        other: 0,
    }
}

// What an image starts, counted.
fn told(tally: Tally, image: &[u8], old: &[u8], new: &[u8]) -> Tally {
    let mut next = tally;
    let answer = start(image);
    match answer {
        Err(_) => {
            next.refused = tally.refused.saturating_add(1);
            next
        }
        Ok(size) => {
            if size == new.len() && image.starts_with(new) {
                next.new = tally.new.saturating_add(1);
                return next;
            }
            if size == old.len() && image.starts_with(old) {
                next.old = tally.old.saturating_add(1);
                return next;
            }
            next.other = tally.other.saturating_add(1);
            next
        }
    }
}

// A cut in write k: each value from 0 up to 255 in steps, in the byte that is being written. The image is left as it came.
fn cut_in(
    tally: Tally,
    image: &mut [u8],
    block: &[u8],
    old: &[u8],
    k: usize,
    steps: usize,
) -> Tally {
    let at = place(block.len(), k);
    if image.len() <= at {
        return tally;
    }
    let stood = image[at];
    let mut counted = tally;
    let mut v = 0;
    // kept: no index loop, since the step is an argument
    while v < 256 {
        image[at] = (v % 256) as u8;
        counted = told(counted, image, old, block);
        v += 1 + steps % 256;
    }
    image[at] = stood;
    counted
}

// A cut in each write of a load of this block, from the first on. The image is then the finished load.
fn cuts(tally: Tally, image: &mut [u8], block: &[u8], old: &[u8], steps: usize) -> Tally {
    let size = block.len();
    let mut counted = tally;
    for k in first_write(image)..size {
        counted = cut_in(counted, image, block, old, k, steps);
        step(image, block, k);
    }
    counted = cut_in(counted, image, block, old, size, steps);
    step(image, block, size);
    counted
}

// The bytes of one list into another of the same length.
fn copy(from: &[u8], to: &mut [u8]) {
    for i in 0..to.len() {
        put(to, i, byte_at(from, i));
    }
}

fn byte_at(from: &[u8], i: usize) -> u8 {
    if i < from.len() {
        return from[i];
    }
    0
}

fn put(to: &mut [u8], i: usize, byte: u8) {
    if i < to.len() {
        to[i] = byte;
    }
}

// A load begun again on the image that a cut in write k left, with four values of its byte, and cut a second time.
fn again_in(
    tally: Tally,
    image: &[u8],
    torn: &mut [u8],
    block: &[u8],
    old: &[u8],
    k: usize,
) -> Tally {
    let at = place(block.len(), k);
    let mut counted = tally;
    let mut v: usize = 0;
    // kept: no index loop, since four values are taken, 85 apart
    while v < 256 {
        copy(image, torn);
        put(torn, at, (v % 256) as u8);
        counted = cuts(counted, torn, block, old, 84);
        v += 85;
    }
    counted
}

// The same for a first cut in each write of a load of this block.
fn again(tally: Tally, image: &mut [u8], torn: &mut [u8], block: &[u8], old: &[u8]) -> Tally {
    let size = block.len();
    let mut counted = tally;
    for k in first_write(image)..size {
        counted = again_in(counted, image, torn, block, old, k);
        step(image, block, k);
    }
    again_in(counted, image, torn, block, old, size)
}

fn print<W: Write>(out: &mut W, tally: Tally) -> io::Result<()> {
    writeln!(
        out,
        "OLD {} REFUSED {} NEW {} OTHER {}",
        tally.old, tally.refused, tally.new, tally.other
    )
}

// One load: the area, with the block in it that starts, and the block that is loaded. A line for one cut, a line for two.
fn one<W: Write>(
    out: &mut W,
    area: &[u8],
    image: &mut [u8],
    torn: &mut [u8],
    block: &[u8],
) -> io::Result<()> {
    let old = loading::started(area);
    copy(area, image);
    print(out, cuts(nothing(), image, block, old, 0))?;
    copy(area, image);
    print(out, again(nothing(), image, torn, block, old))
}

// The next load of the stream; whether there may be more.
fn load<R: Read, W: Write>(
    input: &mut R,
    out: &mut W,
    space: &mut [u8],
    given: &mut [u8],
    image: &mut [u8],
    torn: &mut [u8],
) -> io::Result<bool> {
    let n = frames::next(input, space)?.length();
    let m = frames::next(input, given)?.length();
    if m == 0 {
        return Ok(false);
    }
    if image.len() < n || torn.len() < n {
        return Ok(false);
    }
    one(
        out,
        &space[..n],
        &mut image[..n],
        &mut torn[..n],
        &given[..m],
    )?;
    Ok(true)
}

// A proved loop has to end, and nothing says that standard input does: the turns are counted up to a number that no run reaches.
fn main(rt: HostRuntime) -> io::Result<()> {
    let mut input = rt.stdin();
    let mut out = rt.stdout();
    let mut space = [0u8; 65536];
    let mut given = [0u8; 65536];
    let mut image = [0u8; 65536];
    let mut torn = [0u8; 65536];
    for _ in 0..u64::MAX {
        if !load(
            &mut input, &mut out, &mut space, &mut given, &mut image, &mut torn,
        )? {
            break;
        }
    }
    Ok(())
}
