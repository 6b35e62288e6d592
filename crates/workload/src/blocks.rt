// The words of blocks.
ghost use Rattle.std.specs.Prelude.{◌≡◌, ◌<◌, ◌≤◌, ◌*◌, ◌-◌, [], ◌∷◌, ◌++◌, IsTrue, OnOk};
ghost use Rattle.operation.specs.Ranges.{is_op_in_range};
ghost use Rattle.operation.specs.Places.{unit_kind, unit_number as unit_number_of, latency_kind};
ghost use Rattle.machine_desc.specs.Description.{latency_of};
ghost use Rattle.machine_desc.specs.BuiltIn.{t1};
ghost use Rattle.workload.specs.Draws.{after};
ghost use Rattle.workload.specs.Words.{serial_word, drawn_words};
ghost use Rattle.workload.specs.Generated.{block_words};

use super::draws::Draws;
use super::operations::drawn;
use list_encoding::{Coded, encode};
use machine_desc::{Generation, T1};
use operation::{Guarded, Op, lat_kind, unit};
use std::alloc::AllocError;

/// The number of the unit kind that an operation takes.
fn unit_number(op: &Op) -> u8
    ensures number { result ≡ unit_number_of (unit_kind op.now) }
    ensures range { result < 16 }
{
    unit(op) as u8
}

/// How many empty cycles follow an operation until it has landed.
fn pause(op: &Op) -> u8
    ensures cycles { result ≡ latency_of t1 (latency_kind op.now) - 1 }
    ensures range { result < 32 }
{
    T1.latency(lat_kind(op)) - 1
}

/// The word of an operation that is a MultiOp of its own, and has landed when the next one issues.
fn word(guarded: Guarded) -> u64
    ensures { result ≡ serial_word guarded.guard guarded.op }
{
    encode(&Coded {
        head: true,
        unit: unit_number(&guarded.op),
        pause: pause(&guarded.op),
        guarded,
    })
}

/// The word of an operation under p0 whose register is in range.
fn push_plain(words: &mut Vec<u64>, op: Op) -> Result<(), AllocError>
    requires { IsTrue (is_op_in_range op) }
    ensures { OnOk result (words.new.items ≡ words.old.items ++ serial_word 0 op ∷ []) }
{
    words.push(word(Guarded { guard: 0, op }))?;
    Ok(())
}

/// So many operations that are drawn.
fn push_drawn(words: &mut Vec<u64>, draws: &mut Draws, count: u16) -> Result<(), AllocError>
    ensures words { OnOk result (words.new.items ≡ words.old.items ++ drawn_words count draws.old.x) }
    ensures state { OnOk result (draws.new.x ≡ after (5 * count) draws.old.x) }
{
    for _step in 0..count {
        words.push(word(drawn(draws)))?;
    }
    Ok(())
}

/// The block `i` of `ops` operations: a byte is put out, and what is drawn follows; the last block halts.
pub fn push_block(
    words: &mut Vec<u64>,
    draws: &mut Draws,
    i: u16,
    ops: u16,
    last: bool,
) -> Result<(), AllocError>
    requires { 1 ≤ ops }
    ensures words { OnOk result (words.new.items ≡ words.old.items ++ block_words i ops last draws.old.x) }
    ensures state { OnOk result (draws.new.x ≡ after (5 * (ops - 1)) draws.old.x) }
{
    push_plain(words, Op::Outb(1 + (i % 15) as u8))?;
    push_drawn(words, draws, ops - 1)?;
    if last {
        push_plain(words, Op::Halt(0))?;
    }
    Ok(())
}
