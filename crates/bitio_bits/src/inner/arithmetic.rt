// A number only where it is wanted, without a branch where the processor needs none.
ghost use Rattle.std.specs.Prelude.{◌≡◌, cond, ◌≤◌};

// A function and no `if` at each caller: its second clause is what their sums stand on.
pub fn only_if(wanted: bool, n: u64) -> u64
    ensures { (result ≡ cond wanted n 0) × (result ≤ n) }
{
    if wanted { n } else { 0 }
}
