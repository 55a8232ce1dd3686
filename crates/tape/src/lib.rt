// What a level works on, 01 "A level": the tokens of a tree, rows of tokens by value, and walks over a level's children.
// Its steps are in the crates `steps` and `level`; nothing here knows which of them asks.

#![tactic(auto)]

pub mod tokens; // one token: a slot of the table and a sign set
pub mod rows; // tokens in a row, and children in a row of children
pub mod walks; // how a child that comes back enters its AND
