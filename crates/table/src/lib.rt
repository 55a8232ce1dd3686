// The working table of normal forms, and lists of atoms over it.
// The table itself is lent as three slices: a coefficient and a monomial at each place, and a count of terms for each slot of sixteen places;
// behind the counts the mark of the engine that deduces (crate engines).

#![tactic(auto)]

// Atoms joined by AND, in order: the slot of the polynomial, and its sign set. A count above 64 counts as 64, a slot as its remainder by 64.
#[derive(Clone, Copy)]
pub struct Atoms {
    pub count: usize,
    pub number: [u8; 64],
    pub set: [u8; 64],
}
