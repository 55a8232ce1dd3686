// Request #108: one common run over the atoms that remain in step 5. It counts for each atom that none of its cuts rests on, and the run without any
// other is begun at the round that first rests on it (`count_laws/Onward`).

#![tactic(auto)]

pub mod marks; // which atoms its cuts rest on
pub mod takers; // which atom alone takes a sign out
pub mod turning; // a round of it
pub mod boards; // the board at the start of each round
pub mod run; // all of it
pub mod without; // the run without an atom
pub mod counting; // step 5 counted by it
