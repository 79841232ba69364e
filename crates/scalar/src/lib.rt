// Scalars: what the text of a string, an integer or a key says.

#![tactic(auto)]

pub mod integer;
pub mod key;
pub mod string;
