// 01, "A level", steps 2 to 5 over tokens, each by itself; the crate `level` takes them in their order.
// The table of normal forms is lent as three slices and the number of variables, the tokens as lists that are changed where they lie.

#![tactic(auto)]

pub mod tidying; // step 2: each polynomial once, no set full
pub mod carrying; // steps 3 and 5: the rounds, and the atoms that the others imply
pub mod sweeping; // step 4: the OR children against what the list says
