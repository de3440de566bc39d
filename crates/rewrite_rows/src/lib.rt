// A role's entries and rows, written as bytes of a table. A field has the mark of its kind: 0, or one more than the place of its derived role. Fields
// come in stretches: neighbouring fields of one era that are of one kind. Stretch j is lens[j] fields of the kind kinds[j], and the stretches of era e
// are those from ends[e] to before ends[e + 1].
#![tactic(auto)]

ghost use Rattle.std.specs.Prelude.{◌≡◌, ℕ, ◌+◌, ◌*◌, ◌<◌, ◌≤◌, [], length, get_or, take};
ghost use Rattle.std.proofs.lemmas.List.Edits.{sets};
ghost use Rattle.ground.specs.Believed.Sequence.{joined};
ghost use Rattle.minutes.specs.Believed.Minutes.{E};
ghost use Rattle.table.specs.Believed.TableBytes.{entry_bytes, row_bytes};
ghost use Rattle.rewrite_rules.specs.Roles.{marked};
ghost use Rattle.rewrite_index.specs.Entries.{entries_to};
ghost use Rattle.rewrite_grid.specs.Grid.{Cuts};
ghost use Rattle.rewrite_grid.specs.Stretches.{field_kinds, stretch_count, Stretched};
ghost use Rattle.rewrite_rows.specs.Parts.{field_marks, HaveMarks, EraStretched, cell_of, stretch_rows, role_rows, starts_row, runs_in, runs_to, CountedRows};

use table::Window;

// Writes the first d pairs of sets as entries.
pub fn write_entries(out: &mut [u8], at: usize, source: u8, pairs: &[u64], d: usize)
    requires { (at + 17 * d ≤ length out.old) × (2 * d ≤ length pairs.now) }
    ensures { out.new ≡ sets out.old at (joined entry_bytes (entries_to source d pairs.now)) }
{
    for i in 0..d {
        table_writer::write_entry(out, at + 17 * i, source, pairs[2 * i], pairs[2 * i + 1]);
    }
}

// Writes the row of a run of cells with mark m, or nothing where m is 0: where the next row goes. Derived roles are counted on from base.
fn write_marked(
    out: &mut [u8],
    at: usize,
    base: u32,
    m: u16,
    begin: u32,
    end: u32,
    low: u32,
    high: u32,
) -> usize
    requires { (at + 16 * length (marked base (cell_of begin end low high) m []) ≤ length out.old) × (base ≤ 1067040) × (low ≤ high) × (high ≤ 65535) }
    ensures { (out.new ≡ sets out.old at (joined row_bytes (marked base (cell_of begin end low high) m [])))
        × (result ≡ at + 16 * length (marked base (cell_of begin end low high) m [])) }
{
    if m == 0 {
        return at;
    }
    table_writer::write_row(
        out,
        at,
        base + (m as u32 - 1),
        Window {
            begin,
            end,
            offset: low as u16,
            length: (high - low) as u16,
        },
    );
    at + 16
}

// How many rows begin at a stretch with mark m that comes after one with mark `run`: 1 or none.
fn starts(m: u16, run: u16) -> usize
    ensures { result ≡ starts_row m run }
{
    if m != 0 && m != run { 1 } else { 0 }
}

// How many rows an era has, by the kinds of its stretches.
fn count_era(kinds: &[u16], marks: &[u16]) -> usize
    requires { HaveMarks (length kinds.now) kinds.now marks.now }
    ensures { result ≡ runs_in 0 (field_marks marks.now kinds.now) }
{
    let mut rows = 0;
    let mut prior = 0;
    for kind in kinds {
        let m = marks[*kind as usize];
        rows += starts(m, prior);
        prior = m;
    }
    rows
}

// How many rows a role has. It stops once it has more than `limit`.
pub fn count_rows(kinds: &[u16], ends: &[usize], ne: usize, marks: &[u16], limit: usize) -> usize
    requires { HaveMarks (stretch_count ends.now ne) kinds.now marks.now × (ne < length ends.now) × ((e : ℕ) → e < ne → get_or ends.now e 0 ≤ get_or ends.now (e + 1) 0) }
    ensures { CountedRows limit (runs_to ends.now (field_marks marks.now kinds.now) ne) (stretch_count ends.now ne) result }
{
    let mut rows = 0;
    for e in 0..ne {
        if limit < rows {
            return rows;
        }
        rows += count_era(&kinds[ends[e]..ends[e + 1]], marks);
    }
    rows
}

// Writes the rows of an era, by its stretches: where the next row goes. A run of cells with one mark, which begins at the phase `low`, is one row.
fn write_era(
    out: &mut [u8],
    at: usize,
    base: u32,
    begin: u32,
    end: u32,
    cells: &[u32],
    nc: usize,
    kinds: &[u16],
    lens: &[u8],
    marks: &[u16],
) -> usize
    requires room { (at + 16 * length (stretch_rows base begin end cells.now nc kinds.now lens.now marks.now) ≤ length out.old) × (base ≤ 1067040) }
    requires have_marks { HaveMarks (length kinds.now) kinds.now marks.now × EraStretched nc kinds.now lens.now × Cuts (take (nc + 1) cells.now) cells.now nc 65535 }
    ensures { (out.new ≡ sets out.old at (joined row_bytes (stretch_rows base begin end cells.now nc kinds.now lens.now marks.now)))
        × (result ≡ at + 16 * length (stretch_rows base begin end cells.now nc kinds.now lens.now marks.now)) }
{
    let mut p = at;
    let mut run = 0;
    let mut low = cells[0];
    let mut c = 0;
    for (j, kind) in kinds.iter().enumerate() {
        let m = marks[*kind as usize];
        if m != run {
            p = write_marked(out, p, base, run, begin, end, low, cells[c]);
            run = m;
            low = cells[c];
        }
        c += lens[j] as usize;
    }
    write_marked(out, p, base, run, begin, end, low, cells[nc])
}

// Writes the rows of a role: where the next row goes.
pub fn write_rows(
    out: &mut [u8],
    at: usize,
    base: u32,
    eras: &[u32],
    ne: usize,
    cells: &[u32],
    nc: usize,
    kinds: &[u16],
    lens: &[u8],
    ends: &[usize],
    marks: &[u16],
) -> usize
    requires ne_in_bounds { (at + 16 * length (role_rows base eras.now ne cells.now nc (field_marks marks.now (field_kinds kinds.now lens.now (stretch_count ends.now ne)))) ≤ length out.old) × (base ≤ 1067040) }
    requires have_marks { HaveMarks (stretch_count ends.now ne) kinds.now marks.now × Stretched ne nc kinds.now lens.now ends.now × Cuts (take (ne + 1) eras.now) eras.now ne E × Cuts (take (nc + 1) cells.now) cells.now nc 65535 }
    ensures { (out.new ≡ sets out.old at (joined row_bytes (role_rows base eras.now ne cells.now nc (field_marks marks.now (field_kinds kinds.now lens.now (stretch_count ends.now ne))))))
        × (result ≡ at + 16 * length (role_rows base eras.now ne cells.now nc (field_marks marks.now (field_kinds kinds.now lens.now (stretch_count ends.now ne))))) }
{
    let mut p = at;
    for e in 0..ne {
        let (first, last) = (ends[e], ends[e + 1]);
        p = write_era(
            out,
            p,
            base,
            eras[e],
            eras[e + 1],
            cells,
            nc,
            &kinds[first..last],
            &lens[first..last],
            marks,
        );
    }
    p
}
