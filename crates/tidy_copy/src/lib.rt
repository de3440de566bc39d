// Bytes from one slice to another.
#![tactic(auto)]

ghost use Rattle.std.specs.Prelude.{◌≡◌, ◌+◌, ◌≤◌, length, take, drop};
ghost use Rattle.std.proofs.lemmas.List.Edits.{sets as stores};

// Copies n bytes: those of s from `from` on to `to` and on of out, and keeps every other byte. (By a loop and not by `copy_from_slice`, for which the
// compiler would call memmove, and hosts are promised that memcpy and memset are enough.)
pub fn copy(out: &mut [u8], to: usize, s: &[u8], from: usize, n: usize)
    requires { (to + n ≤ length out.old) × (from + n ≤ length s.now) }
    ensures { out.new ≡ stores out.old to (take n (drop from s.now)) }
{
    for i in 0..n {
        out[to + i] = s[from + i];
    }
}
