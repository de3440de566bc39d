// The tidy rota of any accepted rota: format 3, rows in order, each once.
#![tactic(auto)]

ghost use Rattle.std.specs.Prelude.{◌≡◌, ◌≤◌, ltb, length};
ghost use Rattle.std.proofs.lemmas.List.Edits.{sets as stores};
ghost use Rattle.endian.specs.Believed.Numbers.{Bytes};
ghost use Rattle.refusal.specs.Believed.Ends.{outcome_of};
ghost use Rattle.tidy_rules.specs.Believed.Tidy.{tidy_bytes, tidy_outcome, area_tidied};
ghost use Rattle.tidy_rota.specs.Parts.{head_bytes};

use refusal::Refusal;
use rota::accepted::{Rota, open};

// The header with counts of rows of its own: format 3, and what else the rota's header has.
fn put_header(out: &mut [u8], s: &[u8], user_rows: u16, permission_rows: u16)
    requires { (12 ≤ length out.old) × (12 ≤ length s.now) }
    ensures { out.new ≡ stores out.old 0 (head_bytes s.now user_rows permission_rows) }
{
    endian::write16(out, 0, 3);
    tidy_copy::copy(out, 2, s, 2, 6);
    endian::write16(out, 8, user_rows);
    endian::write16(out, 10, permission_rows);
}

// How long the tidy rota is. A rota of format 3 is tidy already.
fn tidy_length(rota: &Rota) -> usize
    requires { Bytes rota.now.bytes.now }
    ensures { result ≡ length (tidy_bytes rota.now.bytes.now) }
{
    let s = rota.bytes;
    let l = rota.layout;
    let format = l.counts.format;
    if format == 3 {
        return s.len();
    }
    let users = tidy_kinds::count_kind(s, l.user_rows_at, l.counts.user_rows as usize);
    let permissions = tidy_kinds::count_kind(
        s,
        l.permission_rows_at,
        l.counts.permission_rows as usize,
    );
    l.user_rows_at + 3 * users + 3 * permissions
}

// Whether the tidy rota is longer than so much room. It is no longer than the rota, so there is nothing to count where that has room.
fn exceeds(rota: &Rota, room: usize) -> bool
    requires { Bytes rota.now.bytes.now }
    ensures { result ≡ ltb room (length (tidy_bytes rota.now.bytes.now)) }
{
    if rota.bytes.len() <= room {
        return false;
    }
    room < tidy_length(rota)
}

// Writes the tidy rota, which has room: how long it is. The counts of its rows are known once they are written.
fn put_tidy(rota: &Rota, out: &mut [u8]) -> usize
    requires { Bytes rota.now.bytes.now × (length (tidy_bytes rota.now.bytes.now) ≤ length out.old) }
    ensures { (out.new ≡ stores out.old 0 (tidy_bytes rota.now.bytes.now))
        × (result ≡ length (tidy_bytes rota.now.bytes.now)) }
{
    let s = rota.bytes;
    let l = rota.layout;
    let n = l.counts;
    if n.format == 3 {
        tidy_copy::copy(out, 0, s, 0, s.len());
        return s.len();
    }
    let first = l.user_rows_at;
    tidy_copy::copy(out, l.hours_at, s, l.hours_at, first - l.hours_at);
    let second = tidy_kinds::put_kind(out, first, s, first, n.user_rows as usize);
    let end = tidy_kinds::put_kind(
        out,
        second,
        s,
        l.permission_rows_at,
        n.permission_rows as usize,
    );
    put_header(
        out,
        s,
        ((second - first) / 3) as u16,
        ((end - second) / 3) as u16,
    );
    end
}

// Tidies a rota into an area: 1 to 12 and 52 as it is read, then 20 exactly where the tidy rota is longer than the area, which then stays as it came;
// else the tidy rota at its start, and its length.
pub fn tidy(s: &[u8], out: &mut [u8]) -> Result<usize, Refusal>
    ensures { (outcome_of result ≡ tidy_outcome s.now (length out.old)) × (out.new ≡ area_tidied s.now out.old) }
{
    let rota = open(s)?;
    if exceeds(&rota, out.len()) {
        return Err(Refusal::AreaTooSmall);
    }
    Ok(put_tidy(&rota, out))
}
