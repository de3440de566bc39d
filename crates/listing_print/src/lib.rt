// The text of the listing.
#![tactic(auto)]

ghost use Rattle.listing_print.specs.Believed.Listing.{listing_of, Text};

use output::Output;
use refusal::Refusal;

// Room for every listing: 65,536 bytes hold a header and at most 4,095 entries and rows, and 4,096 lines have at most 61 bytes each.
pub const LONGEST: usize = 249856;

// Puts all that is printed for the input s at the start of out: its length.
pub fn print(s: &[u8], out: &mut [u8; LONGEST]) -> usize
    ensures { Text (listing_of s.now) out.old out.new result }
{
    let mut out = Output { bytes: out, at: 0 };
    if 8192 < s.len() {
        listing_lines::refused_line(&mut out, u32::from(Refusal::RotaLength));
        return out.at;
    }
    let mut area = [0u8; 65536];
    match rewrite::rewrite(s, &mut area) {
        Ok(_) => listing_table::put_table(&area, &mut out),
        Err(refusal) => listing_lines::refused_line(&mut out, u32::from(refusal)),
    }
    out.at
}
