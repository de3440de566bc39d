// The rota: reading it.
#![tactic(auto)]

ghost use Rattle.std.specs.Prelude.{◌≡◌, ◌+◌, ◌*◌, ◌≤◌, ◌<◌, ltb, length};
ghost use Rattle.ground.specs.Believed.Judgement.{in_turn};
ghost use Rattle.ground.specs.Believed.Search.{any_below};
ghost use Rattle.refusal.specs.Believed.Numbers.{number};
ghost use Rattle.refusal.specs.Believed.Ends.{outcome_of, judgement_of};
ghost use Rattle.rota.specs.Believed.RotaBytes.{header_length, format_of, roles_at, hours_of, row_at_byte, row_at};
ghost use Rattle.rota.specs.Believed.Order.{key_of, least};
ghost use Rattle.rota.specs.Believed.RotaRefusals.{counts_over, format_read, header_judged, role_judged, row_judged};
ghost use Rattle.rota.specs.Believed.Answers.{read_outcome, counts_of};
ghost use Rattle.rota.specs.Inside.{layout_outcome, rest_judged, Measured, RowsKnown};

pub mod accepted;

use hours::decode;
use refusal::Refusal;

// The counts of an accepted rota's header.
#[derive(Clone, Copy, Default)]
pub struct Counts {
    pub cycle: u32,
    pub hours: u32,
    pub users: u32,
    pub permissions: u32,
    pub roles: u32,
    pub user_rows: u32,
    pub permission_rows: u32,
    pub format: u32,
}

// The counts of an accepted rota, and where its hours records, role bytes and rows begin.
#[derive(Clone, Copy, Default)]
pub struct Layout {
    pub counts: Counts,
    pub hours_at: usize,
    pub roles_at: usize,
    pub user_rows_at: usize,
    pub permission_rows_at: usize,
}

// The rows of one kind: `n` rows from `at` on, with numbers below `top`, and the refusal of a row with a number out of range.
#[derive(Clone, Copy)]
struct Rows {
    refusal: Refusal,
    top: u32,
    at: usize,
    n: usize,
}

// How many bytes the header has: hours records begin behind it.
fn header_length(s: &[u8]) -> usize
    ensures { result ≡ header_length s.now }
{
    12
}

// Whether one of the header's counts is over its limit.
#[tactic(auto, unfolding(crate::specs::Believed::RotaBytes::header_length, crate::specs::Believed::RotaRefusals::counts_over))]
fn counts_over(s: &[u8]) -> bool
    requires { header_length s.now ≤ length s.now }
    ensures { result ≡ counts_over s.now }
{
    32 < endian::read8(s, 4)
        || 64 < endian::read8(s, 5)
        || 64 < endian::read8(s, 6)
        || 32 < endian::read8(s, 7)
        || 512 < endian::read16(s, 8)
        || 512 < endian::read16(s, 10)
}

// Whether a rota of this format is read.
#[tactic(auto, unfolding(crate::specs::Believed::RotaRefusals::format_read))]
fn is_read(format: u16) -> bool
    ensures { result ≡ format_read format }
{
    format == 1 || format == 3
}

// The header's refusal.
#[tactic(auto, unfolding(crate::specs::Believed::RotaBytes::header_length))]
fn judge_header(s: &[u8]) -> Result<(), Refusal>
    ensures { judgement_of result ≡ header_judged s.now }
{
    if s.len() < header_length(s) {
        return Err(Refusal::RotaShort);
    }
    if !is_read(endian::read16(s, 0)) {
        return Err(Refusal::RotaFormat);
    }
    let cycle = endian::read16(s, 2);
    if cycle == 0 {
        return Err(Refusal::RotaCycle);
    }
    if 40320 < cycle {
        return Err(Refusal::RotaCycle);
    }
    if counts_over(s) {
        return Err(Refusal::RotaCounts);
    }
    Ok(())
}

// The first refusal of the role bytes, which begin at `at`.
fn judge_roles(s: &[u8], n: Counts, at: usize) -> Result<(), Refusal>
    requires { (at + n.roles ≤ length s.now) × (at ≡ roles_at s.now) × (n.hours ≡ hours_of s.now) }
    ensures { judgement_of result ≡ in_turn (role_judged s.now) n.roles }
{
    for k in 0..n.roles as usize {
        if decode(s[at + k]).dangles(n.hours as usize) {
            return Err(Refusal::RoleHours);
        }
    }
    Ok(())
}

// The place in the order of the row at `at`.
pub fn key_at(s: &[u8], at: usize) -> u32
    requires { at + 3 ≤ length s.now }
    ensures { (result ≡ key_of (row_at_byte s.now at)) × (result < 16777216) }
{
    rota_rows::place_at(s, at) as u32
}

// Whether one of the n rows from `at` on is not above the one before.
pub fn any_falls(s: &[u8], at: usize, n: usize) -> bool
    requires { at + 3 * n ≤ length s.now }
    ensures { result ≡ any_below n (λ k. ltb (key_of (row_at s.now at k)) (least (row_at s.now at) k)) }
{
    rota_rows::any_next_falls(s, at, n)
}

// The first refusal of the rows of a rota of format 3, row by row.
fn judge_each(s: &[u8], n: Counts, rows: Rows) -> Result<(), Refusal>
    requires { RowsKnown s.now n rows × (format_of s.now ≡ 3) }
    ensures { judgement_of result ≡ in_turn (row_judged (number rows.refusal) rows.top s.now rows.at) rows.n }
{
    let mut above = 0;
    for k in 0..rows.n {
        let i = rows.at + 3 * k;
        if rota_rows::row_out(s, i, rows.top as u8, n.roles as u8, n.hours as u8) {
            return Err(rows.refusal);
        }
        let key = key_at(s, i);
        if key < above {
            return Err(Refusal::RowOrder);
        }
        above = key + 1;
    }
    Ok(())
}

// The first refusal of the rows of a rota of format 3. Where no row has a number out of range, they share 52.
fn judge_ordered(s: &[u8], n: Counts, rows: Rows) -> Result<(), Refusal>
    requires { RowsKnown s.now n rows × (format_of s.now ≡ 3) }
    ensures { judgement_of result ≡ in_turn (row_judged (number rows.refusal) rows.top s.now rows.at) rows.n }
{
    if rota_rows::rows_out(
        s,
        rows.at,
        rows.n,
        rows.top as u8,
        n.roles as u8,
        n.hours as u8,
    ) {
        return judge_each(s, n, rows);
    }
    if any_falls(s, rows.at, rows.n) {
        return Err(Refusal::RowOrder);
    }
    Ok(())
}

// The same where the format does not fix their order: they share one refusal, so it is enough to know whether some row has a number out of range.
fn judge_rows(s: &[u8], n: Counts, rows: Rows) -> Result<(), Refusal>
    requires { RowsKnown s.now n rows × (format_of s.now ≡ 3 → ⊥) }
    ensures { judgement_of result ≡ in_turn (row_judged (number rows.refusal) rows.top s.now rows.at) rows.n }
{
    if rota_rows::rows_out(
        s,
        rows.at,
        rows.n,
        rows.top as u8,
        n.roles as u8,
        n.hours as u8,
    ) {
        return Err(rows.refusal);
    }
    Ok(())
}

// The first refusal of what follows the hours records, which end at `at`. The counts are those of the header.
fn judge_rest(s: &[u8], n: Counts, at: usize) -> Result<(), Refusal>
    requires { Measured s.now n at }
    ensures { judgement_of result ≡ rest_judged s.now }
{
    let users = Rows {
        refusal: Refusal::UserRow,
        top: n.users,
        at: at + n.roles as usize,
        n: n.user_rows as usize,
    };
    let permissions = Rows {
        refusal: Refusal::PermissionRow,
        top: n.permissions,
        at: users.at + 3 * users.n,
        n: n.permission_rows as usize,
    };
    if s.len() != permissions.at + 3 * permissions.n {
        return Err(Refusal::RotaLength);
    }
    judge_roles(s, n, at)?;
    if n.format == 3 {
        judge_ordered(s, n, users)?;
        judge_ordered(s, n, permissions)
    } else {
        judge_rows(s, n, users)?;
        judge_rows(s, n, permissions)
    }
}

// The counts of the header.
#[tactic(auto, unfolding(crate::specs::Believed::RotaBytes::header_length, crate::specs::Believed::Answers::counts_of))]
fn read_counts(s: &[u8]) -> Counts
    requires { header_length s.now ≤ length s.now }
    ensures { result ≡ counts_of s.now }
{
    Counts {
        cycle: endian::read16(s, 2) as u32,
        hours: endian::read8(s, 4) as u32,
        users: endian::read8(s, 5) as u32,
        permissions: endian::read8(s, 6) as u32,
        roles: endian::read8(s, 7) as u32,
        user_rows: endian::read16(s, 8) as u32,
        permission_rows: endian::read16(s, 10) as u32,
        format: endian::read16(s, 0) as u32,
    }
}

// Reads a rota for the crates above: the first refusal, or the layout.
pub fn locate(s: &[u8]) -> Result<Layout, Refusal>
    ensures { outcome_of result ≡ layout_outcome s.now }
{
    judge_header(s)?;
    let n = read_counts(s);
    let hours_at = header_length(s);
    let roles_at = hours_reader::judge_all(s, n.cycle, hours_at, n.hours as usize)?;
    judge_rest(s, n, roles_at)?;
    let user_rows_at = roles_at + n.roles as usize;
    Ok(Layout {
        counts: n,
        hours_at,
        roles_at,
        user_rows_at,
        permission_rows_at: user_rows_at + 3 * n.user_rows as usize,
    })
}

// Reads a rota: 1 to 12 and 52 in order, or the counts of its header.
pub fn read(s: &[u8]) -> Result<Counts, Refusal>
    ensures { outcome_of result ≡ read_outcome s.now }
{
    let l = locate(s)?;
    Ok(l.counts)
}
