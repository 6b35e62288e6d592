// The block table of an image: where each block begins and how many operations it has.
//
// It stands on `tnk_base`. `Table::new` promises the first broken of the table's rules (Table, PageCross and Entry) with its
// row, or a table with just these rows, each block on the image's pages; the look-ups promise the rows. The rule on the
// words between blocks (Padding) is defined here too (specs/Padding.antt), so that the checker and the linker share it, and
// `unpadded` promises the first word that breaks it.
#![tactic(auto)]

mod padding;
mod rules;
mod table;

pub use rules::{TableFault, TableRule};
pub use table::Table;

/// Words of a page.
pub const PAGE: u32 = 512;
