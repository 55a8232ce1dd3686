// The words of a pool: 32 marks in one word, and a coefficient in one word.
// A word that is not there reads as 0, so that every slice of words can be read.
ghost use Rattle.std.specs.Prelude.{◌≡◌, false, ◌<◌, get_or, set};
ghost use Rattle.pool.specs.Marks.{marks, row_word};
ghost use Rattle.pool.specs.Coefficients.{coefficient_word as coefficient_word_of};

// The word at a place.
pub fn word(pool: &[u64], k: usize) -> u64
    ensures { result ≡ get_or pool.now k 0 }
{
    if k < pool.len() {
        return pool[k];
    }
    0
}

// Whether a word has a mark for a number.
pub fn mark(word: u64, number: usize) -> bool
    requires { number < 32 }
    ensures { result ≡ get_or (marks 32 word) number false }
{
    (word >> number) % 2 == 1
}

// The word's 32 marks, that of one number set or taken away.
pub fn with_mark(word: u64, number: usize, on: bool) -> u64
    requires { number < 32 }
    ensures { result ≡ row_word (set (marks 32 word) number on) }
{
    let row = word % 4294967296;
    if mark(word, number) {
        if on {
            return row;
        }
        return row - (1 << number);
    }
    if on {
        return row + (1 << number);
    }
    row
}

// A coefficient as a word: twice the number, or, below 0, twice its magnitude and one less.
pub fn coefficient_word(c: i32) -> u64
    ensures { result ≡ coefficient_word_of c }
{
    let wide = c as i64;
    if wide < 0 {
        return ((0 - wide) as u64) * 2 - 1;
    }
    (wide as u64) * 2
}
