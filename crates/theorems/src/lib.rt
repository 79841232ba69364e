// What is proved, for those who rely on it: statements in specs/, each file to be read alone; their proofs in proofs/.
// There is no code here but one function, since a crate has at least one.

#![tactic(auto)]

ghost use Rattle.std.specs.Prelude.{◌≡◌};

fn nothing(x: usize) -> usize
    ensures { result ≡ x }
{
    x
}
