// The rules of a block table.

use std::alloc::AllocError;

/// A rule of a block table, by its title.
#[derive(Clone, Copy, Debug, PartialEq, Eq)]
pub enum TableRule {
    /// Each row's count is at least 1, its entry is on a page, and it begins at or behind the end of the row before.
    Table,
    /// Each block ends on the page that it begins on.
    PageCross,
    /// The program's entry is the entry of a row.
    Entry,
}

/// Why there is no table: a broken rule with its least row, 0 for `Entry`, or want of memory.
#[derive(Clone, Copy, Debug, PartialEq, Eq)]
pub enum TableFault {
    Broken(TableRule, u32),
    NoMemory,
}

impl From<AllocError> for TableFault {
    ghost use Rattle.std.specs.Prelude.{◌≡◌};
    ghost use Rattle.block_table.specs.declared.rules.TableFault.{TableFault};

    ghost from_gives = { λ _ e. e ≡ TableFault.NoMemory };

    fn from(_: AllocError) -> Self {
        TableFault::NoMemory
    }
}
