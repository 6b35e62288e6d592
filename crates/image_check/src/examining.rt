// The rules in their order, where the blocks aren't kept.
ghost use Rattle.std.specs.Prelude.{◌≡◌, None, MatchResult};
ghost use Rattle.image_format.specs.Image.{image_in};
ghost use Rattle.image_format.specs.Laws.{IsImage};
ghost use Rattle.image_format.specs.Parts.{image_of};
ghost use Rattle.image_check.specs.Rules.{broken_blocks, broken_part, first_broken, IsFaultOf, IsCheckFault};
ghost use Rattle.image_check.specs.Paging.{IsTabled};

use super::blocks::block;
use super::rules::CheckFault;
use super::table::{check_padding, table};
use block_table::Table;
use image_format::{Parts, read_parts};
use std::alloc::Global;

/// Looks at the blocks of all rows, one after the other.
fn look_at_blocks(alloc: Global, parts: &Parts, table: &Table) -> Result<(), CheckFault>
    requires { IsTabled (image_of parts.now) table.now }
    ensures { MatchResult result (λ _. broken_blocks (image_of parts.now) ≡ None)
        (IsFaultOf (broken_blocks (image_of parts.now))) }
{
    for row in 0..table.rows() {
        block(alloc, parts, table, row)?;
    }
    Ok(())
}

/// The same parts, or the first rule that they break.
fn examined(alloc: Global, parts: Parts) -> Result<Parts, CheckFault>
    requires { IsImage (image_of parts) }
    ensures { MatchResult result (λ p. (broken_part (image_of parts) ≡ None) × (image_of p ≡ image_of parts))
        (IsFaultOf (broken_part (image_of parts))) }
{
    let table = table(alloc, &parts)?;
    check_padding(&table, &parts.words)?;
    look_at_blocks(alloc, &parts, &table)?;
    Ok(parts)
}

/// The parts of the image in the bytes of a file, or the first rule that it breaks and where: the answer of `check`, for who
/// needs no blocks. It has one block at a time in memory.
pub fn examine(alloc: Global, bytes: &[u8]) -> Result<Parts, CheckFault>
    ensures { MatchResult result (λ p. (first_broken bytes.now ≡ None) × (image_of p ≡ image_in bytes.now))
        (IsCheckFault bytes.now) }
{
    examined(alloc, read_parts(alloc, bytes)?)
}
