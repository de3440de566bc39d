// The text of a table, from its bytes.
#![tactic(auto)]

ghost use Rattle.std.specs.Prelude.{◌≡◌, ◌+◌, ◌*◌, ◌≤◌, length};
ghost use Rattle.ground.specs.Believed.Sequence.{list_of, joined};
ghost use Rattle.output.specs.Put.{Put};
ghost use Rattle.table.specs.Believed.TableBytes.{derived_of, entry_of, row_at_byte, row_of, table_of};
ghost use Rattle.listing_table.specs.Believed.TableText.{role_text, row_text, roles_text, table_text};
ghost use Rattle.listing_table.specs.Parts.{TableFits};

use output::Output;

// The line of derived role d.
fn put_role(t: &[u8], d: u32, out: &mut Output)
    requires { (16 + 17 * d + 17 ≤ length t.now) × (out.old.at + 61 ≤ length out.old.bytes.now) }
    ensures { Put (role_text d (entry_of t.now d)) out.old out.new × (out.new.at ≤ out.old.at + 61) }
{
    let p = 16 + 17 * (d as usize);
    let source = endian::read8(t, p) as u32;
    listing_lines::role_line(
        out,
        d,
        source,
        endian::read64(t, p + 1),
        endian::read64(t, p + 9),
    );
}

// The lines of the n derived roles.
fn put_roles(t: &[u8], n: u32, out: &mut Output)
    requires { (16 + 17 * n ≤ length t.now) × (out.old.at + 61 * n ≤ length out.old.bytes.now) }
    ensures { Put (roles_text 0 (list_of n (entry_of t.now))) out.old out.new × (out.new.at ≤ out.old.at + 61 * n) }
{
    for d in 0..n {
        put_role(t, d, out);
    }
}

// The line of the row at p.
fn put_row(t: &[u8], p: usize, out: &mut Output)
    requires { (p + 16 ≤ length t.now) × (out.old.at + 61 ≤ length out.old.bytes.now) }
    ensures { Put (row_text (row_at_byte t.now p)) out.old out.new × (out.new.at ≤ out.old.at + 61) }
{
    listing_lines::row_line(
        out,
        endian::read32(t, p),
        endian::read32(t, p + 4),
        endian::read32(t, p + 8),
        endian::read16(t, p + 12) as u32,
        endian::read16(t, p + 14) as u32,
    );
}

// The lines of the n rows, which stand after d entries.
fn put_rows(t: &[u8], d: u32, n: u32, out: &mut Output)
    requires { (d ≡ derived_of t.now) × (16 + 17 * d + 16 * n ≤ length t.now) × (out.old.at + 61 * n ≤ length out.old.bytes.now) }
    ensures { Put (joined row_text (list_of n (row_of t.now))) out.old out.new × (out.new.at ≤ out.old.at + 61 * n) }
{
    let first = 16 + 17 * (d as usize);
    for i in 0..n {
        put_row(t, first + 16 * (i as usize), out);
    }
}

// The text of the table that t spells.
pub fn put_table(t: &[u8], out: &mut Output)
    requires { TableFits t.now out.old }
    ensures { Put (table_text (table_of t.now)) out.old out.new × (out.new.at ≤ length out.new.bytes.now) }
{
    let d = endian::read32(t, 8);
    let n = endian::read32(t, 12);
    listing_lines::table_line(out, endian::read16(t, 2) as u32, d, n);
    put_roles(t, d, out);
    put_rows(t, d, n, out);
}
