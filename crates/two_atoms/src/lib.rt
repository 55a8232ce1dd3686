// Two atoms at once, 02, #111: what two atoms say of p together, by p + u·q1 + v·q2 for small whole factors u and v.
// p, q1 and q2 are runs of places of lent slices; the sign of each monomial on the board is lent beside them.

#![tactic(auto)]

pub mod sum; // p + u·q1, term by term
pub mod total; // the set by terms of p + u·q1 + v·q2
pub mod finding; // what one try finds
pub mod range; // the factors v with which a test can pass
pub mod pair; // the tries of a pair of atoms
