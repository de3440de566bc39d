// Reading a table: its entries, then its rows, each in turn.
#![tactic(auto)]

ghost use Rattle.std.specs.Prelude.{◌≡◌, IfOk};
ghost use Rattle.ground.specs.Believed.Judgement.{in_turn};
ghost use Rattle.refusal.specs.Believed.Ends.{judgement_of, outcome_of};
ghost use Rattle.table.specs.Believed.TableRefusals.{entry_judged, row_judged, table_judged};
ghost use Rattle.table.specs.Believed.Answers.{read_outcome};
ghost use Rattle.table.specs.Inside.{Headed};

use refusal::Refusal;
use table::{Counts, Table, Window};

// Judges the entries, up to the first that is refused.
fn judge_entries(s: &[u8], n: Counts) -> Result<(), Refusal>
    requires { Headed s.now n }
    ensures { judgement_of result ≡ in_turn (entry_judged s.now) n.derived }
{
    let mut before = 0;
    for d in 0..n.derived as usize {
        let at = 16 + 17 * d;
        let source = endian::read8(s, at);
        if table::entry_refused(s, n, at, source, before) {
            return Err(Refusal::TableEntry);
        }
        before = source;
    }
    Ok(())
}

// Judges the rows, up to the first that is refused. Before the first row stands a window that every window follows.
fn judge_rows(s: &[u8], n: Counts) -> Result<(), Refusal>
    requires { Headed s.now n }
    ensures { judgement_of result ≡ in_turn (row_judged s.now) n.rows }
{
    let first = 16 + 17 * (n.derived as usize);
    let mut role = 0;
    let mut before = Window::default();
    for i in 0..n.rows as usize {
        let at = first + 16 * i;
        let derived = endian::read32(s, at);
        let w = table::read_window(s, at);
        if table::row_refused(n, derived, w) {
            return Err(Refusal::TableRow);
        }
        let source = endian::read8(s, 16 + 17 * (derived as usize));
        if !table::window_follows(role, before, source, w) {
            return Err(Refusal::TableOrder);
        }
        role = source;
        before = w;
    }
    Ok(())
}

// Reads a table: 21 to 28 in order, or the accepted table.
pub fn open(s: &[u8]) -> Result<Table<'_>, Refusal>
    ensures judged { judgement_of result ≡ table_judged s.now }
    ensures lent { IfOk result (λ table. table.bytes.now ≡ s.now) }
{
    let counts = table::read_header(s)?;
    judge_entries(s, counts)?;
    judge_rows(s, counts)?;
    Ok(Table { bytes: s, counts })
}

// Reads a table: 21 to 28 in order, or its counts.
pub fn read(s: &[u8]) -> Result<Counts, Refusal>
    ensures { outcome_of result ≡ read_outcome s.now }
{
    Ok(open(s)?.counts)
}
