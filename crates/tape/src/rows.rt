// Rows of tokens by value: what a level works on.
// A tree has at most 255 nodes, each is one token in its row, so 256 places are enough for every row.
// Tokens are stored where they lie, in an array that is lent, and become a row at the end: a row that is passed on is copied each time. A struct
// has its rows before its flags, which spares one more copy of each.
ghost use Rattle.std.specs.Prelude.{◌≡◌, List, [], ◌∷◌, ◌++◌, ℕ, ◌+◌, ◌-◌, ◌*◌, ◌/◌, ◌%◌, ◌<◌, ◌≤◌, length, take, drop};
ghost use Rattle.tape.specs.Row.{row_of, Lists};
ghost use Rattle.tape.specs.Tape.{Children, child, none, laid, also};

#[derive(Clone, Copy)]
pub struct Row {
    pub token: [u32; 256],
    pub count: usize,
}

pub fn empty() -> Row
    ensures { (result.count ≡ 0) × Lists result [] }
{
    Row {
        token: [0; 256],
        count: 0,
    }
}

// One token more.
pub fn push(row: Row, token: u32) -> Row
    requires { row.count < 256 }
    ensures { (result.count ≡ row.count + 1) × ((l : List ℕ) → Lists row l → Lists result (l ++ (token ∷ []))) }
{
    let n = row.count;
    let mut longer = row;
    longer.token[n] = token;
    longer.count = n + 1;
    longer
}

// Tokens from one place up to another, laid down from a place on.
pub fn lay(out: &mut [u32], n: usize, tokens: &[u32], from: usize, to: usize)
    requires { (from ≤ to) × ((to ≤ length tokens.now) × (n + to ≤ length out.old + from)) }
    ensures { (k : ℕ) (l m : List ℕ) → Lists (row_of out.old n) l → Lists (row_of tokens.now k) m → to ≤ length m → Lists (row_of out.new (n + (to - from))) (l ++ take (to - from) (drop from m)) }
{
    out[n..n + (to - from)].copy_from_slice(&tokens[from..to]);
}

// The tokens of another row from one place up to another.
pub fn append(row: Row, other: Row, from: usize, to: usize) -> Row
    requires { (from ≤ to) × ((to ≤ 256) × (row.count + to ≤ 256 + from)) }
    ensures { (result.count + from ≡ row.count + to) × ((l m : List ℕ) → Lists row l → Lists other m → to ≤ length m → Lists result (l ++ take (to - from) (drop from m))) }
{
    let n = row.count;
    let mut longer = row.token;
    let tokens = other.token;
    lay(&mut longer, n, &tokens, from, to);
    Row {
        token: longer,
        count: n + (to - from),
    }
}

// The tokens from one place up to another as a row.
pub fn part(tokens: &[u32], from: usize, to: usize) -> Row
    requires { (from ≤ to) × ((to ≤ length tokens.now) × (to ≤ 256)) }
    ensures { (result.count + from ≡ to) × ((k : ℕ) (m : List ℕ) → Lists (row_of tokens.now k) m → to ≤ length m → Lists result (take (to - from) (drop from m))) }
{
    let mut list = [0u32; 256];
    lay(&mut list, 0, tokens, from, to);
    Row {
        token: list,
        count: to - from,
    }
}

// ---- a child in a row of children: its head, its atoms, its own children

// How many atoms a child has, by its head.
pub fn atoms_of(head: u32) -> usize
    ensures { (result ≡ head / 65536) × (result < 65536) }
{
    (head / 65536) as usize
}

// How many tokens a child's own children take, by its head.
pub fn tokens_of(head: u32) -> usize
    ensures { (result ≡ head % 65536) × (result < 65536) }
{
    (head % 65536) as usize
}

// One child more, with its atoms and its own children.
pub fn put_child(row: Row, atoms: Row, inner: Row) -> Row
    requires { row.count + atoms.count + inner.count + 1 ≤ 256 }
    ensures { (result.count ≡ row.count + atoms.count + inner.count + 1) × ((earlier : Children) (l : List ℕ) (own : Children) → Lists row (laid earlier) → Lists atoms l → Lists inner (laid own) → Lists result (laid (also earlier (child l own none)))) }
{
    let a = atoms.count;
    let e = inner.count;
    let n = row.count;
    let mut longer = row.token;
    longer[n] = (a * 65536 + e) as u32;
    let list = atoms.token;
    lay(&mut longer, n + 1, &list, 0, a);
    let below = inner.token;
    lay(&mut longer, n + 1 + a, &below, 0, e);
    Row {
        token: longer,
        count: n + 1 + a + e,
    }
}
