// The fields of a rota by kind. What a role has in a field depends only on the mask of the field, which is the set of hours that hold there; the distinct
// masks are numbered once for all roles, in the order of their first fields. A field without a minute is of kind 0, one with mask k of kind k + 1.
// Neighbours of one era often have the same mask, so kinds are laid out by stretches: the kind of some neighbouring fields, and how many these are.
#![tactic(auto)]

ghost use Rattle.std.specs.Prelude.{◌≡◌, ℕ, ◌+◌, ◌*◌, ◌≤◌, ◌<◌, length, get_or, take, drop, replicate};
ghost use Rattle.rota.specs.Inside.{Located};
ghost use Rattle.rewrite_rules.specs.Kinds.{masks_from, masks_in};
ghost use Rattle.rewrite_grid.specs.Grid.{Parted, Ready};
ghost use Rattle.rewrite_masks.specs.Kinds.{Told, HeldBy, SamePlaces, Found, RowRoom, Room, Laid, Numbered};

use rota::Layout;

// The distinct masks so far, in the first places of `sets`, and an index of them. They stand without the bit for always, which each of them has: so 32
// bits tell them apart.
#[derive(Drop)]
struct Masks<'a> {
    sets: &'a mut [u32],
    links: &'a mut [u16],
    trees: usize,
    count: usize,
}

impl Masks<'_> {
    // The kind of mask m; where m has a minute, it is one of the distinct masks then.
    fn kind_of(&mut self, m: u64) -> usize
        requires room { (self.old.count < length self.old.sets.now) × (self.old.trees + 2 * self.old.count + 1 < length self.old.links.now) × (self.old.count < 33345) × (0 < self.old.trees) × (self.old.trees ≤ 65536) }
        requires held { HeldBy self.old × Told m }
        ensures found { Found m self.old.count self.old.sets.now self.new.sets.now result self.new.count }
        ensures held { HeldBy self.new }
        ensures same { SamePlaces self.old self.new }
    {
        if m == 0 {
            return 0;
        }
        let k = rewrite_index::enter_key(
            self.sets,
            self.links,
            self.trees,
            self.count,
            (m % 4294967296) as u32,
        );
        if k == self.count {
            self.count += 1;
        }
        k + 1
    }
}

// How many fields from c on, of an era whose fields have these masks, have the mask of field c: one at least, and at most 255, so that the number fits a
// byte.
fn stretch(row: &[u64], c: usize) -> usize
    requires { c < length row.now }
    ensures { (0 < result) × (result ≤ 255) × (c + result ≤ length row.now) × (take result (drop c row.now) ≡ replicate result (get_or row.now c 0)) }
{
    let m = row[c];
    let most = (row.len() - c).min(255);
    for l in 1..most {
        if row[c + l] != m {
            return l;
        }
    }
    most
}

// The stretches of an era whose fields have these masks, at `first` and the places after it: where they end.
fn number_row(
    row: &[u64],
    kinds: &mut [u16],
    lens: &mut [u8],
    first: usize,
    masks: &mut Masks<'_>,
) -> usize
    requires room { RowRoom (length row.now) first kinds.old lens.old masks.old }
    requires held { HeldBy masks.old × ((c : ℕ) → c < length row.now → Told (get_or row.now c 0)) }
    ensures laid { Laid (masks_in masks.old.sets.now masks.old.count) row.now first result kinds.old lens.old kinds.new lens.new }
    ensures counted { masks_in masks.new.sets.now masks.new.count ≡ masks_from (masks_in masks.old.sets.now masks.old.count) row.now }
    ensures few { masks.new.count ≤ masks.old.count + length row.now }
    ensures held { HeldBy masks.new }
    ensures same { SamePlaces masks.old masks.new }
{
    let mut j = first;
    let mut c = 0;
    while c < row.len() {
        let l = stretch(row, c);
        kinds[j] = masks.kind_of(row[c]) as u16;
        lens[j] = l as u8;
        j += 1;
        c += l;
    }
    j
}

// The stretches of all fields, eras in turn: those of era i stand from ends[i] to before ends[i + 1]. There are as many cells as sets of them in `held`.
fn number_all(
    s: &[u8],
    cycle: u32,
    from: usize,
    h: usize,
    eras: &[u32],
    ne: usize,
    cells: &[u32],
    held: &[u64],
    row: &mut [u64],
    kinds: &mut [u16],
    lens: &mut [u8],
    ends: &mut [usize],
    masks: &mut Masks<'_>,
)
    requires ready { Ready s.now cycle from h eras.now ne cells.now (length held.now) held.now × (length row.old ≡ length held.now) }
    requires room { Room (ne * length held.now) ne masks.old.trees kinds.old lens.old ends.old masks.old.sets.now masks.old.links.now × HeldBy masks.old × (masks.old.count ≡ 0) }
    ensures numbered { Numbered s.now ne (length held.now) masks.new.count kinds.new lens.new ends.new masks.new.sets.now }
    ensures same { SamePlaces masks.old masks.new }
{
    ends[0] = 0;
    let mut first = 0;
    for i in 0..ne {
        let b = eras[i];
        let e = eras[i + 1];
        let dates = rewrite_grid::era_mask(s, from, h, b);
        rewrite_grid::era_masks(cycle, dates, b, e, cells, held, row);
        first = number_row(row, kinds, lens, first, masks);
        ends[i + 1] = first;
    }
}

// Numbers the fields of a rota that is divided so: their kinds by stretches, and the distinct masks without the bit for always. How many these are. Kinds
// and lengths are two arrays, since a kind takes two bytes and a length one.
pub fn number(
    s: &[u8],
    l: Layout,
    eras: &[u32],
    ne: usize,
    cells: &[u32],
    nc: usize,
    held: &mut [u64],
    row: &mut [u64],
    kinds: &mut [u16],
    lens: &mut [u8],
    ends: &mut [usize],
    sets: &mut [u32],
    links: &mut [u16],
    w: usize,
) -> usize
    requires located { Located s.now l × Parted s.now eras.now ne cells.now nc × (nc ≤ length held.old) × (nc ≤ length row.old) }
    requires room { Room (ne * nc) ne w kinds.old lens.old ends.old sets.old links.old }
    ensures { Numbered s.now ne nc result kinds.new lens.new ends.new sets.new }
{
    let n = l.counts;
    let h = n.hours as usize;
    let held = &mut held[..nc];
    rewrite_grid::cell_masks(s, l.hours_at, h, cells, held);
    rewrite_index::clear(links, w);
    let mut masks = Masks {
        sets,
        links,
        trees: w,
        count: 0,
    };
    number_all(
        s,
        n.cycle,
        l.hours_at,
        h,
        eras,
        ne,
        cells,
        held,
        &mut row[..nc],
        kinds,
        lens,
        ends,
        &mut masks,
    );
    masks.count
}
