// The roles of a rota that are rewritten, and its fields by kind.

ghost use Rattle.std.specs.Prelude.{◌≤◌};
ghost use Rattle.std.proofs.Props.{props};
ghost use Rattle.rota.specs.Inside.{Located};
ghost use Rattle.rota.specs.Believed.RotaBytes.{roles_of};
ghost use Rattle.rewrite_grid.specs.Grid.{Divided};
ghost use Rattle.rewrite_masks.specs.Kinds.{Numbered};

use rewrite_grid::Division;
use rota::Layout;

// The roles from `first` on, up to `end`, of a rota that is read and divided into eras and cells.
#[derive(Clone, Copy)]
pub struct Roles<'a> {
    pub bytes: &'a [u8],
    pub layout: Layout,
    pub division: &'a Division,
    pub first: u8,
    pub end: u8,
    pub ghost located: { Located bytes.now layout } by { Prim.hlevel props },
    pub ghost divided: { Divided bytes.now division.now } by { Prim.hlevel props },
    pub ghost range: { (first ≤ end) × (end ≤ roles_of bytes.now) },
}

// Its fields by kind, in stretches, and the distinct masks, of which there are `mask_count`.
#[derive(Clone, Copy)]
pub struct Fields<'a> {
    pub roles: &'a Roles<'a>,
    pub kinds: &'a [u16],
    pub lens: &'a [u8],
    pub ends: &'a [usize],
    pub masks: &'a [u32],
    pub mask_count: usize,
    pub ghost numbered: { Numbered roles.now.bytes.now roles.now.division.now.era_count roles.now.division.now.cell_count mask_count kinds.now lens.now ends.now masks.now } by { Prim.hlevel props },
}
