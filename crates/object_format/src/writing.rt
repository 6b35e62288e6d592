// An object as the bytes of a file.
ghost use Rattle.std.specs.Prelude.{◌≡◌, ◌≤◌, ◌<◌, ◌+◌, ◌*◌, ◌^◌, ◌++◌, ◌∷◌, length, map, codes, All, IfOk, OnOk, List, ℕ};
ghost use Rattle.std.specs.List.{flat_map};
ghost use Rattle.byteorder.specs.Endian.{big_bytes};
ghost use Rattle.machine_desc.specs.Description.{units_of, latency_of, busy_of};
ghost use Rattle.machine_desc.specs.Same.{unit_kinds, latency_kinds};
ghost use Rattle.machine_desc.specs.Value.{description_of};
ghost use Rattle.object_format.specs.Objects.{module_of};
ghost use Rattle.object_format.specs.Module.{IsModule};
ghost use Rattle.object_format.specs.Laws.{HoldsModule};
ghost use Rattle.object_format.specs.Written.{IsWritable, beginning_for};
ghost use Rattle.image_format.specs.Bytes.{needs_two, busy_bytes, description_bytes};
ghost use Rattle.object_format.specs.Bytes.{name_bytes, address_bytes, block_bytes, pair_bytes, table_counts, counts, data_sizes, sizes, numbers as numbers_of, code, uses, tables, magic as magic_of, beginning, body, bytes_of};

use super::numbers::LONG_HEADER;
use super::{ObjBlock, Object};
use machine_desc::{Generation, Mdes};
use operation::{LatKind, UnitKind};
use std::alloc::{AllocError, Global};
use tnk_base::{Name, NoMemory};

fn push_short(bytes: &mut Vec<u8>, number: u16) -> Result<(), AllocError>
    ensures { OnOk result (bytes.new.items ≡ bytes.old.items ++ big_bytes 2 number) }
{
    bytes.extend_from_slice(&number.to_be_bytes())
}

fn push_number(bytes: &mut Vec<u8>, number: u32) -> Result<(), AllocError>
    ensures { OnOk result (bytes.new.items ≡ bytes.old.items ++ big_bytes 4 number) }
{
    bytes.extend_from_slice(&number.to_be_bytes())
}

fn push_count(bytes: &mut Vec<u8>, count: usize) -> Result<(), AllocError>
    requires { count < 2 ^ 32 }
    ensures { OnOk result (bytes.new.items ≡ bytes.old.items ++ big_bytes 4 count) }
{
    push_number(bytes, count as u32)
}

/// The width, the units and the latencies, a byte each.
fn numbers(description: &Mdes) -> [u8; 15]
    ensures { result ≡ (description_of description.now).width ∷
        (map (units_of (description_of description.now)) unit_kinds ++ map
        (latency_of (description_of description.now)) latency_kinds) }
{
    let units = |k| description.units(k);
    let latency = |k| description.latency(k);
    [
        description.width(),
        units(UnitKind::I),
        units(UnitKind::M),
        units(UnitKind::L),
        units(UnitKind::P),
        units(UnitKind::B),
        latency(LatKind::Alu),
        latency(LatKind::Mul),
        latency(LatKind::Div),
        latency(LatKind::Load),
        latency(LatKind::Store),
        latency(LatKind::Io),
        latency(LatKind::Cmp),
        latency(LatKind::Pbr),
        latency(LatKind::Branch),
    ]
}

/// The busy times, a byte each.
fn busy_numbers(description: &Mdes) -> [u8; 9]
    ensures { result ≡ map (busy_of (description_of description.now)) latency_kinds }
{
    let busy = |k| description.busy(k);
    [
        busy(LatKind::Alu),
        busy(LatKind::Mul),
        busy(LatKind::Div),
        busy(LatKind::Load),
        busy(LatKind::Store),
        busy(LatKind::Io),
        busy(LatKind::Cmp),
        busy(LatKind::Pbr),
        busy(LatKind::Branch),
    ]
}

fn push_name(bytes: &mut Vec<u8>, name: &Name) -> Result<(), AllocError>
    requires { length name.now < 256 }
    ensures { OnOk result (bytes.new.items ≡ bytes.old.items ++ name_bytes name.now) }
{
    let text = name.bytes();
    bytes.extend_from_slice(&[text.len() as u8])?;
    bytes.extend_from_slice(text)
}

fn address(at: Option<u32>) -> u32
    ensures { big_bytes 4 result ≡ address_bytes at }
{
    match at {
        None => 0xFFFF_FFFF,
        Some(address) => address,
    }
}

fn push_block(bytes: &mut Vec<u8>, block: ObjBlock) -> Result<(), AllocError>
    ensures { OnOk result (bytes.new.items ≡ bytes.old.items ++ block_bytes block) }
{
    push_number(bytes, block.name)?;
    push_number(bytes, address(block.at))?;
    push_short(bytes, block.count)
}

fn push_pair(bytes: &mut Vec<u8>, pair: (u32, u32)) -> Result<(), AllocError>
    ensures { OnOk result (bytes.new.items ≡ bytes.old.items ++ pair_bytes pair) }
{
    push_number(bytes, pair.0)?;
    push_number(bytes, pair.1)
}

fn push_names(bytes: &mut Vec<u8>, names: &[Name]) -> Result<(), AllocError>
    requires { All (λ n. length n < 256) names.now }
    ensures { OnOk result (bytes.new.items ≡ bytes.old.items ++ flat_map name_bytes names.now) }
{
    for name in names {
        push_name(bytes, name)?;
    }
    Ok(())
}

fn push_blocks(bytes: &mut Vec<u8>, blocks: &[ObjBlock]) -> Result<(), AllocError>
    ensures { OnOk result (bytes.new.items ≡ bytes.old.items ++ flat_map block_bytes blocks.now) }
{
    for block in blocks {
        push_block(bytes, *block)?;
    }
    Ok(())
}

fn push_words(bytes: &mut Vec<u8>, words: &[u64]) -> Result<(), AllocError>
    ensures { OnOk result (bytes.new.items ≡ bytes.old.items ++ flat_map (λ w. big_bytes 8 w) words.now) }
{
    for word in words {
        bytes.extend_from_slice(&word.to_be_bytes())?;
    }
    Ok(())
}

fn push_pairs(bytes: &mut Vec<u8>, pairs: &[(u32, u32)]) -> Result<(), AllocError>
    ensures { OnOk result (bytes.new.items ≡ bytes.old.items ++ flat_map pair_bytes pairs.now) }
{
    for pair in pairs {
        push_pair(bytes, *pair)?;
    }
    Ok(())
}

/// How many bytes the names take, each with its length.
fn names_size(names: &[Name]) -> u64
    requires few { length names.now < 2 ^ 32 }
    requires short { All (λ n. length n < 256) names.now }
    ensures { result ≡ length (flat_map name_bytes names.now) }
{
    let mut size = 0;
    for name in names {
        size += 1 + name.bytes().len() as u64;
    }
    size
}

fn push_table_counts(bytes: &mut Vec<u8>, o: &Object) -> Result<(), AllocError>
    requires { IsWritable (module_of o.now) }
    ensures { OnOk result (bytes.new.items ≡ bytes.old.items ++ table_counts (module_of o.now)) }
{
    push_count(bytes, o.blocks.len())?;
    push_count(bytes, o.words.len())?;
    push_count(bytes, o.refs.len())?;
    push_count(bytes, o.labels.len())
}

fn push_counts(bytes: &mut Vec<u8>, o: &Object) -> Result<(), AllocError>
    requires { IsWritable (module_of o.now) }
    ensures { OnOk result (bytes.new.items ≡ bytes.old.items ++ counts (module_of o.now)) }
{
    push_count(bytes, o.names.len())?;
    push_table_counts(bytes, o)
}

fn push_data_sizes(bytes: &mut Vec<u8>, o: &Object) -> Result<(), AllocError>
    requires { IsWritable (module_of o.now) }
    ensures { OnOk result (bytes.new.items ≡ bytes.old.items ++ data_sizes (module_of o.now)) }
{
    push_number(bytes, o.size)?;
    push_count(bytes, o.init.len())
}

fn push_names_size(bytes: &mut Vec<u8>, names: &[Name]) -> Result<(), AllocError>
    requires few { length names.now < 2 ^ 32 }
    requires short { All (λ n. length n < 256) names.now }
    requires small { length (flat_map name_bytes names.now) < 2 ^ 32 }
    ensures { OnOk result (bytes.new.items ≡ bytes.old.items ++ big_bytes 4 (length (flat_map name_bytes names.now))) }
{
    push_number(bytes, names_size(names) as u32)
}

fn push_sizes(bytes: &mut Vec<u8>, o: &Object) -> Result<(), AllocError>
    requires { IsWritable (module_of o.now) }
    ensures { OnOk result (bytes.new.items ≡ bytes.old.items ++ sizes (module_of o.now)) }
{
    push_data_sizes(bytes, o)?;
    push_names_size(bytes, &o.names)
}

fn push_magic(bytes: &mut Vec<u8>, description: &Mdes) -> Result<(), AllocError>
    ensures { OnOk result (bytes.new.items ≡ bytes.old.items ++ magic_of (needs_two (description_of description.now))) }
{
    bytes.extend_from_slice(if description.is_pipelined() {
        b"TNKO"
    } else {
        b"TNKP"
    })
}

/// The busy times, where one isn't 1.
fn push_busy_times(bytes: &mut Vec<u8>, description: &Mdes) -> Result<(), AllocError>
    ensures { OnOk result (bytes.new.items ≡ bytes.old.items ++ busy_bytes (needs_two (description_of description.now))
        (description_of description.now)) }
{
    if !description.is_pipelined() {
        bytes.extend_from_slice(&busy_numbers(description))?;
    }
    Ok(())
}

fn push_description(bytes: &mut Vec<u8>, description: &Mdes) -> Result<(), AllocError>
    ensures { OnOk result (bytes.new.items ≡ bytes.old.items ++ description_bytes (needs_two (description_of description.now))
        (description_of description.now)) }
{
    bytes.extend_from_slice(&numbers(description))?;
    push_busy_times(bytes, description)?;
    Ok(())
}

fn push_beginning(bytes: &mut Vec<u8>, description: &Mdes) -> Result<(), AllocError>
    ensures { OnOk result (bytes.new.items ≡ bytes.old.items ++ beginning_for (description_of description.now)) }
{
    push_magic(bytes, description)?;
    push_description(bytes, description)?;
    Ok(())
}

fn push_numbers(bytes: &mut Vec<u8>, o: &Object) -> Result<(), AllocError>
    requires { IsWritable (module_of o.now) }
    ensures { OnOk result (bytes.new.items ≡ bytes.old.items ++ numbers_of (module_of o.now)) }
{
    push_short(bytes, o.pages)?;
    push_counts(bytes, o)?;
    push_sizes(bytes, o)?;
    Ok(())
}

fn push_code(bytes: &mut Vec<u8>, o: &Object) -> Result<(), AllocError>
    ensures { OnOk result (bytes.new.items ≡ bytes.old.items ++ code (module_of o.now)) }
{
    push_blocks(bytes, &o.blocks)?;
    push_words(bytes, &o.words)
}

fn push_uses(bytes: &mut Vec<u8>, o: &Object) -> Result<(), AllocError>
    ensures { OnOk result (bytes.new.items ≡ bytes.old.items ++ uses (module_of o.now)) }
{
    push_pairs(bytes, &o.refs)?;
    push_pairs(bytes, &o.labels)
}

fn push_tables(bytes: &mut Vec<u8>, o: &Object) -> Result<(), AllocError>
    requires { IsWritable (module_of o.now) }
    ensures { OnOk result (bytes.new.items ≡ bytes.old.items ++ tables (module_of o.now)) }
{
    push_names(bytes, &o.names)?;
    push_code(bytes, o)?;
    push_uses(bytes, o)
}

fn push_initial(bytes: &mut Vec<u8>, o: &Object) -> Result<(), AllocError>
    ensures { OnOk result (bytes.new.items ≡ bytes.old.items ++ (module_of o.now).initial) }
{
    bytes.extend_from_slice(&o.init)
}

fn push_contents(bytes: &mut Vec<u8>, o: &Object) -> Result<(), AllocError>
    requires { IsWritable (module_of o.now) }
    ensures { OnOk result (bytes.new.items ≡ bytes.old.items ++ (tables (module_of o.now) ++ (module_of o.now).initial)) }
{
    push_tables(bytes, o)?;
    push_initial(bytes, o)
}

fn push_body(bytes: &mut Vec<u8>, o: &Object) -> Result<(), AllocError>
    requires { IsWritable (module_of o.now) }
    ensures { OnOk result (bytes.new.items ≡ bytes.old.items ++ body (module_of o.now)) }
{
    push_numbers(bytes, o)?;
    push_contents(bytes, o)?;
    Ok(())
}

/// At least the length of the file, by the longer header.
fn file_length(o: &Object) -> usize
    requires { IsWritable (module_of o.now) }
{
    let tables = 10 * o.blocks.len() + 8 * (o.words.len() + o.refs.len() + o.labels.len());
    LONG_HEADER + names_size(&o.names) as usize + tables + o.init.len()
}

/// The bytes of an object's file: of version 1 where all busy times are 1, and else of version 2. Read again, they give the
/// object.
pub fn write_object(alloc: Global, o: &Object) -> Result<Vec<u8>, NoMemory>
    requires { IsModule (module_of o.now) }
    ensures bytes { IfOk result (λ bytes. bytes.items ≡ bytes_of (module_of o.now)) }
    ensures reads_back { IfOk result (λ bytes. HoldsModule bytes.items (module_of o.now)) }
{
    let mut bytes = Vec::with_capacity(alloc, file_length(o))?;
    push_beginning(&mut bytes, &o.desc)?;
    push_body(&mut bytes, o)?;
    Ok(bytes)
}
