// Bytes that must stand at a position of the text.
// A position is a count of bytes from 0.
ghost use Rattle.std.specs.Prelude.{◌≤◌, length};
ghost use Rattle.script_back.specs.Runs.{Said};

use script_polynomial::Stop;

// These bytes: the position behind them is given.
pub fn said(text: &[u8], at: usize, bytes: &[u8]) -> Result<usize, Stop>
    requires { at ≤ length text.now }
    ensures { Said text.now at bytes.now result }
{
    for i in 0..bytes.len() {
        if text.len() <= at + i {
            return Err(Stop { at: at + i });
        }
        if text[at + i] != bytes[i] {
            return Err(Stop { at: at + i });
        }
    }
    Ok(at + bytes.len())
}
