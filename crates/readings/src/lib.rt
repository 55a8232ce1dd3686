// Readings as text: whole numbers of 32 bits, apart by spaces, taken in byte by byte, so that a line may be of any length.
// A whole number is one or more digits, with a minus before them or not. What is read is no promise of ours; it is handed to a proved function.

#![tactic(auto)]

ghost use Rattle.std.specs.Prelude.{◌<◌};

// The number at hand: none, a minus alone, or digits.
#[derive(Clone, Copy)]
enum AtHand {
    Nothing,
    Minus,
    Digits { negative: bool, magnitude: u64 },
}

// How far a line is.
#[derive(Clone, Copy)]
pub struct Line {
    // how many numbers it has so far; 17 stands for more than 16
    pub count: usize,
    at_hand: AtHand,
    // something is no whole number of 32 bits
    pub other: bool,
    // there was a byte
    pub begun: bool,
}

pub fn begin() -> Line {
    Line {
        count: 0,
        at_hand: AtHand::Nothing,
        other: false,
        begun: false,
    }
}

// The number of a sign and a magnitude.
pub fn signed(negative: bool, magnitude: u64) -> i32
    requires { magnitude < 2147483648 }
{
    if negative {
        return 0 - (magnitude as i32);
    }
    magnitude as i32
}

// The same, if it is one of 32 bits.
fn number(negative: bool, magnitude: u64) -> Option<i32> {
    if magnitude < 2147483648 {
        return Some(signed(negative, magnitude));
    }
    if negative && magnitude == 2147483648 {
        return Some(i32::MIN);
    }
    None
}

// A line behind a number or what is none: so many numbers, and whether something was none.
fn behind(count: usize, other: bool) -> Line {
    Line {
        count,
        at_hand: AtHand::Nothing,
        other,
        begun: true,
    }
}

// One more reading, if there is room for it: how many numbers there are then.
fn stored(count: usize, x: i32, readings: &mut [i32]) -> usize {
    if count < readings.len() {
        readings[count] = x;
        if count < 16 {
            return count + 1;
        }
    }
    17
}

// The number at hand is over. It is stored in its place behind something that is no number too.
fn ended(line: Line, readings: &mut [i32]) -> Line {
    let found = match line.at_hand {
        AtHand::Nothing => return line,
        AtHand::Minus => None,
        AtHand::Digits {
            negative,
            magnitude,
        } => number(negative, magnitude),
    };
    match found {
        Some(x) => behind(stored(line.count, x, readings), line.other),
        None => behind(line.count, true),
    }
}

// One digit more; from 2^32 on the magnitude stays, since it is too large already.
fn digit(line: Line, value: u8) -> Line {
    let (negative, mut magnitude) = match line.at_hand {
        AtHand::Nothing => (false, 0),
        AtHand::Minus => (true, 0),
        AtHand::Digits {
            negative,
            magnitude,
        } => (negative, magnitude),
    };
    if magnitude < 4294967296 {
        magnitude = magnitude * 10 + u64::from(value);
    }
    Line {
        count: line.count,
        at_hand: AtHand::Digits {
            negative,
            magnitude,
        },
        other: line.other,
        begun: true,
    }
}

// A minus begins a number.
fn minus(line: Line) -> Line {
    match line.at_hand {
        AtHand::Nothing => Line {
            count: line.count,
            at_hand: AtHand::Minus,
            other: line.other,
            begun: true,
        },
        _ => behind(line.count, true),
    }
}

// One byte of the line.
pub fn taken(line: Line, byte: u8, readings: &mut [i32]) -> Line {
    match byte {
        b'0'..=b'9' => digit(line, byte - b'0'),
        b'-' => minus(line),
        b' ' | b'\t' | b'\r' => ended(line, readings),
        _ => behind(line.count, true),
    }
}

// The bytes of a word, one after the other, and a space behind it.
pub fn word_taken(line: Line, word: &[u8], numbers: &mut [i32]) -> Line {
    let mut next = line;
    for byte in word {
        next = taken(next, *byte, numbers);
    }
    taken(next, b' ', numbers)
}

// The line is over: how many readings it has, 17 if it is not readings alone or has more than 16.
// kept: 17 for such a line, since a public function keeps its signature
pub fn over(line: Line, readings: &mut [i32]) -> usize {
    let last = ended(line, readings);
    if last.other { 17 } else { last.count }
}

// Whether a word is a whole number, of however many bits.
pub fn is_whole(word: &[u8]) -> bool {
    let digits = match word.split_first() {
        Some((first, rest)) if *first == b'-' => rest,
        _ => word,
    };
    !digits.is_empty() && digits.iter().all(|byte| byte.is_ascii_digit())
}
