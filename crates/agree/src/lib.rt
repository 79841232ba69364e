// That the rooms, and the records read there, are what 01 says of the text: theorems, in proofs/. There is no code here
// but one function, since a crate has at least one.

#![tactic(auto)]

ghost use Rattle.std.specs.Prelude.{◌≡◌};

fn nothing(x: usize) -> usize
    ensures { result ≡ x }
{
    x
}
