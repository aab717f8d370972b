// Words put together of parts.
ghost use Rattle.std.specs.Prelude.{◌≡◌, ◌++◌, ◌+◌, ◌≤◌, length, take, drop};

// A part's words in one call: taken one by one, each would be a step of the caller's proof. By the library's copy_from_slice they would
// stand in memory, and the packet reader take 1.5 times as long.
pub fn put(to: &mut [u64], at: usize, from: &[u64])
    requires { at + length from.now ≤ length to.old }
    ensures { to.new ≡ take at to.old ++ (from.now ++ drop (at + length from.now) to.old) }
{
    for i in 0..from.len() {
        to[at + i] = from[i];
    }
}
