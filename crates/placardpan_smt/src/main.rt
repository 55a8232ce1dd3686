// The program of request #112: a block on standard input, the answer's script on standard output, or the line REFUSED and the number. With the argument
// `back` a script in, and its block out as one line of hex pairs, or the line REFUSED 25 and the position. Thin over `script::script` and `script_back`.

#![tactic(auto)]

ghost use Rattle.std.specs.Prelude.{◌≡◌, length};

use files::argument;
use frames::fill;
use script::script;
use script_telling::tell;
use std::env::Env;
use std::io;
use std::io::Write;

// The first bytes of the text.
fn print_first<W: Write>(out: &mut W, text: &[u8], length: usize) -> io::Result<()> {
    if length <= text.len() {
        out.write_all(&text[..length])?;
    }
    Ok(())
}

// A text that every script fits into, and a byte more: none is longer than 2,024,782 bytes (`script_laws/specs/Length.antt: script-length`).
fn blank() -> [u8; 2024783]
    ensures { 2024783 ≡ length result }
{
    [0; 2024783]
}

// Whether the argument is `back`.
fn is_back<E: Env>(env: &E) -> bool {
    let mut word = [0u8; 5];
    let length = argument(env, 1, &mut word);
    &word[..length] == b"back".as_slice()
}

// "It reads at most 32,768 bytes of a block on standard input; the rest is not read."
fn forth(rt: &HostRuntime) -> io::Result<()> {
    let mut space = [0u8; 32768];
    let length = fill(&mut rt.stdin(), &mut space)?;
    let mut text = blank();
    let outcome = script(&space[..length], &mut text);
    let mut out = rt.stdout();
    match outcome {
        Err(refusal) => {
            let number = refusal.number();
            writeln!(out, "REFUSED {number}")
        }
        Ok(size) => print_first(&mut out, &text, size),
    }
}

// A text that is longer than the longest script stops before its end, so that no more of it need be read.
fn back(rt: &HostRuntime) -> io::Result<()> {
    let mut text = blank();
    let length = fill(&mut rt.stdin(), &mut text)?;
    let mut output = [0u8; 32768];
    tell(&mut rt.stdout(), &text[..length], &mut output)
}

fn main(rt: HostRuntime) -> io::Result<()> {
    if is_back(&rt) { back(&rt) } else { forth(&rt) }
}
