// Lemmas about the definitions stand in specs/, for proofs in the crates above. There is no code here but one
// function, since a crate has at least one.

#![tactic(auto)]

ghost use Rattle.std.specs.Prelude.{◌≡◌};

fn nothing(x: usize) -> usize
    ensures { result ≡ x }
{
    x
}
