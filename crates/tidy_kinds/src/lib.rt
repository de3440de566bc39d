// The rows of one kind of an accepted rota in order, each once: copied where they are so already, sorted where they are few, else gathered
// into sets.
#![tactic(auto)]

ghost use Rattle.std.specs.Prelude.{◌≡◌, ◌+◌, ◌*◌, ◌≤◌, length};
ghost use Rattle.std.proofs.lemmas.List.Edits.{sets as stores};
ghost use Rattle.tidy_rules.specs.Inside.{KindFine, kind_rows, kind_bytes};

// Writes the n rows from `at` on in order, each once, from `to` on. Gives where they end. (By slices and places, not structs of them: docs/CLAIMS.md names this
// contract.)
pub fn put_kind(out: &mut [u8], to: usize, s: &[u8], at: usize, n: usize) -> usize
    requires { KindFine s.now at n × (to + 3 * length (kind_rows s.now at n) ≤ length out.old) }
    ensures { (out.new ≡ stores out.old to (kind_bytes s.now at n)) × (result ≡ to + 3 * length (kind_rows s.now at n)) }
{
    if !rota::any_falls(s, at, n) {
        tidy_copy::copy(out, to, s, at, 3 * n);
        return to + 3 * n;
    }
    if n <= 20 {
        return tidy_few::put_few(out, to, s, at, n);
    }
    tidy_sets::put_many(out, to, s, at, n)
}

// How many the n rows from `at` on are, each once: they are written where nobody reads them, so that there is one way only, with its sets on the stack once.
pub fn count_kind(s: &[u8], at: usize, n: usize) -> usize
    requires { KindFine s.now at n × (n ≤ 512) }
    ensures { result ≡ length (kind_rows s.now at n) }
{
    let mut spare = [0u8; 1536];
    put_kind(&mut spare, 0, s, at, n) / 3
}
