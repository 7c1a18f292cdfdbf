// Laws of the definitions, in the words of the table. Each is the contract of a function that does
// nothing.

ghost use Rattle.std.specs.Prelude.{ℕ, ◌*◌, ◌<◌, ◌≤◌};
ghost use Rattle.line_kit.specs.Parts.{share};

/// The outputs of `split` get the least number of lines each with which all lines have a place.
pub fn share_is_least(lines: u64, outputs: u32)
    requires { 0 < outputs }
    ensures enough { lines ≤ share lines outputs * outputs }
    ensures least { (q : ℕ) → lines ≤ q * outputs → share lines outputs ≤ q }
{
    let _ = (lines, outputs);
}
