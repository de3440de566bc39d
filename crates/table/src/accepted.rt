// An accepted table, its rows one by one, and an accepted table at a minute.

ghost use Rattle.std.specs.Prelude.{◌≡◌, ◌+◌, ◌*◌, ◌%◌, ◌<◌, ◌≤◌, length};
ghost use Rattle.table.specs.Believed.TableBytes.{cycle_of, derived_of, entry_of, row_of};
ghost use Rattle.table.specs.Believed.TableRefusals.{source_of};
ghost use Rattle.table.specs.Inside.{Opened, Opened-prop, window_given};

use crate::{Counts, Window};

// The bytes of an accepted table, and the counts of its header.
#[derive(Clone, Copy)]
pub struct Table<'a> {
    pub bytes: &'a [u8],
    pub counts: Counts,
    pub ghost opened: { Opened bytes.now counts } by { Opened-prop bytes.now counts },
}

// An accepted table at a minute, with the phase of that minute.
#[derive(Clone, Copy)]
pub struct Moment<'a> {
    pub table: Table<'a>,
    pub minute: u32,
    pub phase: u32,
    pub ghost in_cycle: { phase ≡ minute % cycle_of table.bytes.now },
}

#[tactic(auto, unfolding(crate::specs::Believed::TableBytes::entry_of, crate::specs::Believed::TableBytes::row_of))]
impl<'a> Table<'a> {
    // The table at a minute.
    pub fn at(&self, minute: u32) -> Moment<'a>
        ensures { (result.minute ≡ minute) × (result.table ≡ self.now) }
    {
        Moment {
            table: *self,
            minute,
            phase: minutes::phase(self.counts.cycle, minute),
        }
    }

    // How many rows it has.
    pub fn rows(&self) -> usize
        ensures { result ≡ self.now.counts.rows }
    {
        self.counts.rows as usize
    }

    // Where row i begins.
    pub fn row_place(&self, i: usize) -> usize
        requires { i < self.now.counts.rows }
        ensures place { result ≡ 16 + 17 * derived_of self.now.bytes.now + 16 * i }
        ensures inside { result + 16 ≤ length self.now.bytes.now }
    {
        16 + 17 * (self.counts.derived as usize) + 16 * i
    }

    // Where the entry of row i begins.
    fn entry_place(&self, i: usize) -> usize
        requires { i < self.now.counts.rows }
        ensures place { result ≡ 16 + 17 * (row_of self.now.bytes.now i).derived }
        ensures inside { result + 17 ≤ length self.now.bytes.now }
    {
        16 + 17 * (endian::read32(self.bytes, self.row_place(i)) as usize)
    }

    // The window of row i.
    pub fn window(&self, i: usize) -> Window
        requires { i < self.now.counts.rows }
        ensures { window_given result ≡ (row_of self.now.bytes.now i).window }
    {
        crate::read_window(self.bytes, self.row_place(i))
    }

    // The source role of row i.
    pub fn source(&self, i: usize) -> u8
        requires { i < self.now.counts.rows }
        ensures { result ≡ source_of self.now.bytes.now i }
    {
        self.bytes[self.entry_place(i)]
    }

    // The users of the entry of row i, and its permissions.
    pub fn users(&self, i: usize) -> u64
        requires { i < self.now.counts.rows }
        ensures { result ≡ (entry_of self.now.bytes.now (row_of self.now.bytes.now i).derived).users }
    {
        endian::read64(self.bytes, self.entry_place(i) + 1)
    }

    pub fn permissions(&self, i: usize) -> u64
        requires { i < self.now.counts.rows }
        ensures { result ≡ (entry_of self.now.bytes.now (row_of self.now.bytes.now i).derived).permissions }
    {
        endian::read64(self.bytes, self.entry_place(i) + 9)
    }
}
