// Writing a table's parts.
#![tactic(auto)]

ghost use Rattle.std.specs.Prelude.{◌≡◌, ◌+◌, ◌≤◌, ◌<◌, length};
ghost use Rattle.std.proofs.lemmas.List.Edits.{sets};
ghost use Rattle.table.specs.Believed.TableBytes.{header_bytes, entry_bytes, row_bytes};
ghost use Rattle.table.specs.Inside.{window_given, entry_made, row_made};
ghost use Rattle.table_writer.specs.Limits.{limits_bytes};

use table::{Counts, Window};

// The writers store a part of a table and keep every other byte. First what the header has before its two counts.
fn write_limits(d: &mut [u8], counts: Counts)
    requires { (8 ≤ length d.old) × (counts.cycle < 65536) × (counts.users < 256) × (counts.permissions < 256) × (counts.roles < 65536) }
    ensures { d.new ≡ sets d.old 0 (limits_bytes counts.cycle counts.users counts.permissions counts.roles) }
{
    endian::write16(d, 0, 2);
    endian::write16(d, 2, counts.cycle as u16);
    endian::write8(d, 4, counts.users as u8);
    endian::write8(d, 5, counts.permissions as u8);
    endian::write16(d, 6, counts.roles as u16);
}

pub fn write_header(d: &mut [u8], counts: Counts)
    requires { (16 ≤ length d.old) × (counts.cycle < 65536) × (counts.users < 256) × (counts.permissions < 256) × (counts.roles < 65536) }
    ensures { d.new ≡ sets d.old 0 (header_bytes counts.cycle counts.users counts.permissions counts.roles counts.derived counts.rows) }
{
    write_limits(d, counts);
    endian::write32(d, 8, counts.derived);
    endian::write32(d, 12, counts.rows);
}

pub fn write_entry(d: &mut [u8], at: usize, source: u8, users: u64, permissions: u64)
    requires { at + 17 ≤ length d.old }
    ensures { d.new ≡ sets d.old at (entry_bytes (entry_made source users permissions)) }
{
    endian::write8(d, at, source);
    endian::write64(d, at + 1, users);
    endian::write64(d, at + 9, permissions);
}

pub fn write_row(d: &mut [u8], at: usize, derived: u32, w: Window)
    requires { at + 16 ≤ length d.old }
    ensures { d.new ≡ sets d.old at (row_bytes (row_made derived (window_given w))) }
{
    endian::write32(d, at, derived);
    endian::write32(d, at + 4, w.begin);
    endian::write32(d, at + 8, w.end);
    endian::write16(d, at + 12, w.offset);
    endian::write16(d, at + 14, w.length);
}
