// The t for which p + tq has a sign, as intervals, and what is found of p from them: 01 "Deducing p from q", with 02, #104.
// They stand below the merge, which cuts L and U by one monomial after the other.

#![tactic(auto)]

pub mod interval; // the t for which p + tq has a sign
pub mod vanishing; // the t at which all monomials with set > or < vanish
pub mod finding; // what L, U and these say of p
