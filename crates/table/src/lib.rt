// The flat table: its header, one entry and one row, read and judged; crate table_reader reads a whole table. And an accepted table with its rows.
#![tactic(auto)]

ghost use Rattle.std.specs.Prelude.{◌≡◌, ◌+◌, ◌≤◌, length};
ghost use Rattle.endian.specs.Believed.Numbers.{u8_at};
ghost use Rattle.table.specs.Believed.TableBytes.{entry_at_byte, row_at_byte};
ghost use Rattle.table.specs.Believed.TableRefusals.{entry_bad, row_bad, follows};
ghost use Rattle.refusal.specs.Believed.Ends.{outcome_of};
ghost use Rattle.table.specs.Believed.Answers.{counts_of};
ghost use Rattle.table.specs.Inside.{header_outcome, window_given, row_made};

mod accepted;

pub use accepted::{Moment, Table};
use refusal::Refusal;

// The counts of an accepted table's header.
#[derive(Clone, Copy, Default)]
pub struct Counts {
    pub cycle: u32,
    pub users: u32,
    pub permissions: u32,
    pub roles: u32,
    pub derived: u32,
    pub rows: u32,
}

// The window of a row.
#[derive(Clone, Copy, Default)]
pub struct Window {
    pub begin: u32,
    pub end: u32,
    pub offset: u16,
    pub length: u16,
}

// The counts of a header.
#[tactic(auto, unfolding(crate::specs::Believed::Answers::counts_of))]
fn read_counts(s: &[u8]) -> Counts
    requires { 16 ≤ length s.now }
    ensures { result ≡ counts_of s.now }
{
    Counts {
        cycle: endian::read16(s, 2) as u32,
        users: endian::read8(s, 4) as u32,
        permissions: endian::read8(s, 5) as u32,
        roles: endian::read16(s, 6) as u32,
        derived: endian::read32(s, 8),
        rows: endian::read32(s, 12),
    }
}

// Reads a header: 21 to 25 in order, or its counts.
pub fn read_header(s: &[u8]) -> Result<Counts, Refusal>
    ensures { outcome_of result ≡ header_outcome s.now }
{
    if s.len() < 16 {
        return Err(Refusal::TableShort);
    }
    if endian::read16(s, 0) != 2 {
        return Err(Refusal::TableFormat);
    }
    let n = read_counts(s);
    if n.cycle == 0 || 40320 < n.cycle {
        return Err(Refusal::TableCycle);
    }
    if 64 < n.users || 64 < n.permissions || 32 < n.roles {
        return Err(Refusal::TableCounts);
    }
    if s.len() != 16 + 17 * (n.derived as usize) + 16 * (n.rows as usize) {
        return Err(Refusal::TableLength);
    }
    Ok(n)
}

// Whether the entry at `at`, of this source, is refused after one whose source is `before`.
#[tactic(auto, unfolding(crate::specs::Believed::TableRefusals::entry_bad))]
pub fn entry_refused(s: &[u8], n: Counts, at: usize, source: usize, before: usize) -> bool
    requires { (at + 17 ≤ length s.now) × (source ≡ u8_at s.now at) × (n.users ≤ 64) × (n.permissions ≤ 64) }
    ensures { result ≡ entry_bad n.roles n.users n.permissions before (entry_at_byte s.now at) }
{
    let users = endian::read64(s, at + 1);
    let permissions = endian::read64(s, at + 9);
    n.roles as usize <= source
        || source < before
        || users == 0
        || permissions == 0
        || !bitset::all_below(users, n.users)
        || !bitset::all_below(permissions, n.permissions)
}

// The window of the row at `at`.
pub fn read_window(s: &[u8], at: usize) -> Window
    requires { at + 16 ≤ length s.now }
    ensures { window_given result ≡ (row_at_byte s.now at).window }
{
    Window {
        begin: endian::read32(s, at + 4),
        end: endian::read32(s, at + 8),
        offset: endian::read16(s, at + 12),
        length: endian::read16(s, at + 14),
    }
}

// Whether a row is refused by itself.
#[tactic(auto, unfolding(crate::specs::Believed::TableRefusals::row_bad, minutes::specs::Believed::Minutes::E))]
pub fn row_refused(n: Counts, derived: u32, w: Window) -> bool
    ensures { result ≡ row_bad n.derived n.cycle (row_made derived (window_given w)) }
{
    n.derived <= derived
        || w.end <= w.begin
        || minutes::END < w.end
        || w.length == 0
        || n.cycle < w.offset as u32 + w.length as u32
}

// Whether window w of source role q follows window v of source role r.
#[tactic(auto, unfolding(crate::specs::Believed::TableRefusals::follows))]
pub fn window_follows(r: usize, v: Window, q: usize, w: Window) -> bool
    ensures { result ≡ follows r (window_given v) q (window_given w) }
{
    r < q
        || (r == q
            && (v.end <= w.begin
                || (v.begin == w.begin
                    && v.end == w.end
                    && v.offset as u32 + v.length as u32 <= w.offset as u32)))
}
