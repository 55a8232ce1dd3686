// A file that stands for the memory that a block is loaded into: what the programs `placardpan_start` and `placardpan_load` share.
// What a file holds and takes is no promise of ours; the check at the start and the order of the writes are crate `loading`'s.

#![tactic(auto)]

use files::{argument, tell};
use loading::{Refusal, place, value};
use std::fs::{File, OpenFile};
use std::io;
use std::io::Write;
use std::os::unix::fs::FileExt;

// The file that the first argument names, for reading or for reading and writing; none if there is none, after a line on standard error.
pub fn open(rt: &HostRuntime, update: bool) -> io::Result<Option<File>> {
    let mut name = [0u8; 4096];
    let n = argument(rt, 1, &mut name);
    let found = files::open(rt, &name[..n], update);
    match found {
        Ok(file) => Ok(Some(file)),
        Err(error) => {
            tell(&mut rt.stderr(), &name[..n], &error)?;
            Ok(None)
        }
    }
}

// A line of a word and a number.
fn print_line<W: Write>(out: &mut W, word: &[u8], number: u64) -> io::Result<()> {
    out.write_all(word)?;
    writeln!(out, "{number}")
}

// The line of an answer: REFUSED and the number, or the word for what was done and the block's length.
pub fn print_answer<W: Write>(
    out: &mut W,
    answer: Result<usize, Refusal>,
    word: &[u8],
) -> io::Result<()> {
    match answer {
        Err(refusal) => print_line(out, b"REFUSED ", refusal.number() as u64),
        Ok(size) => print_line(out, word, size as u64),
    }
}

// Write k of a load, put into the file; with `sync` it is waited for.
fn put<F: FileExt + OpenFile>(file: &F, block: &[u8], k: usize, sync: bool) -> io::Result<()> {
    let at = place(block.len(), k);
    let byte = [value(block, k)];
    file.write_all_at(&byte, at as u64)?;
    if sync {
        file.sync_all()?;
    }
    Ok(())
}

// The writes of a load from the first one on, each finished before the next, up to the first that is not taken.
pub fn put_all<F: FileExt + OpenFile>(
    file: &F,
    block: &[u8],
    first: usize,
    sync: bool,
) -> io::Result<()> {
    let size = block.len();
    for k in first..size {
        put(file, block, k, sync)?;
    }
    put(file, block, size, sync)
}
