// The operation set of the machine: each operation as a value, the functional unit and the latency
// that it takes, what it reads and writes, and what it does with the values of its operands.
// The layer stands on std alone, takes no memory and never fails.
// Its contract promises that `evaluate` is the table of effects (specs/Effects.antt, with the
// arithmetic of specs/Arithmetic.antt), and that `places`, `unit`, `lat_kind` and the tests of kinds
// are the tables of places and kinds (specs/Places.antt). `laws` says what holds of these tables.
#![tactic(auto)]

ghost use Rattle.std.specs.Prelude.{IsTrue};
ghost use Rattle.operation.specs.Ranges.{is_in_range};

mod arithmetic;
mod effects;
mod kinds;
pub mod laws;
pub mod numbers;
pub mod places;

pub use effects::evaluate;
pub use kinds::{can_trap, is_branch, is_inb, lat_kind, unit};
pub use places::{is_constant, reads, wired, writes};

/// The arithmetic of a register operation. All results are taken modulo 2^32.
#[derive(Clone, Copy, Debug, PartialEq, Eq)]
pub enum AluKind {
    /// The sum, which wraps.
    Add,
    /// The difference, which wraps.
    Sub,
    /// Each bit that is set in both.
    And,
    /// Each bit that is set in either.
    Or,
    /// Each bit that is set in exactly one.
    Xor,
    /// A shift to the left by the low five bits of the second operand.
    Shl,
    /// A shift to the right by the low five bits of the second operand; zeros come in.
    Shr,
    /// A shift to the right by the low five bits of the second operand; copies of the sign come in.
    Sar,
    /// The lesser, as signed numbers.
    Min,
    /// The greater, as signed numbers.
    Max,
}

/// The test of a compare, of its first operand with its second.
#[derive(Clone, Copy, Debug, PartialEq, Eq)]
pub enum Test {
    /// Equal.
    Ceq,
    /// Not equal.
    Cne,
    /// Less, as signed numbers.
    Clt,
    /// Less or equal, as signed numbers.
    Cle,
    /// Less, as unsigned numbers.
    Cltu,
    /// Less or equal, as unsigned numbers.
    Cleu,
}

/// What a compare whose test gives c does to one destination.
///
/// The letters say how often it writes (U always, O and A only a value that decides an "or" or an
/// "and") and what it takes: N takes c, C its complement.
#[derive(Clone, Copy, Debug, PartialEq, Eq)]
pub enum Action {
    /// Writes c, and false under a false guard.
    Un,
    /// Writes not c, and false under a false guard.
    Uc,
    /// Writes true where the guard and c are true, else nothing.
    On,
    /// Writes true where the guard is true and c is false, else nothing.
    Oc,
    /// Writes false where the guard is true and c is false, else nothing.
    An,
    /// Writes false where the guard and c are true, else nothing.
    Ac,
}

/// What a load or a store moves. A store has `Word`, `Half` or `Byte`.
#[derive(Clone, Copy, Debug, PartialEq, Eq)]
pub enum Size {
    /// Four bytes.
    Word,
    /// Two bytes; a load extends the sign.
    Half,
    /// Two bytes; a load extends with zeros.
    HalfU,
    /// One byte; a load extends the sign.
    Byte,
    /// One byte; a load extends with zeros.
    ByteU,
}

/// A destination of a compare.
#[derive(Clone, Copy, Debug, PartialEq, Eq)]
pub struct Dest {
    /// The number of the predicate, 0 to 31.
    pub p: u8,
    /// What is done to it.
    pub action: Action,
}

/// An operation.
///
/// `r`, `p` and `b` are the general registers, the predicates and the branch targets. The fields
/// stand in the order of the operands in assembly text, named in the text of each variant.
/// Each does what its text says under a true guard. Under a false guard it does nothing, but a
/// compare does what its actions say.
#[derive(Clone, Copy, Debug, PartialEq, Eq)]
pub enum Op {
    /// d, s, t: `r[d] = r[s] op r[t]`.
    Alu(AluKind, u8, u8, u8),
    /// d, s, imm: `r[d] = r[s] op imm`.
    AluImm(AluKind, u8, u8, u32),
    /// d, imm: `b[d] = imm`.
    Pbr(u8, u32),
    /// d, s: `b[d] = r[s]`.
    Mvb(u8, u8),
    /// d, s: `r[d] = b[s]`.
    Mvr(u8, u8),
    /// d, s, t: `r[d] = r[s] * r[t]`, the low 32 bits of the product.
    Mul(u8, u8, u8),
    /// d, s, t: `r[d] = r[s] / r[t]`, signed and toward zero; MIN / -1 is MIN. Traps at a divisor 0.
    Div(u8, u8, u8),
    /// d, s, t: the remainder of that division, with the dividend's sign. Traps at a divisor 0.
    Rem(u8, u8, u8),
    /// d, s, imm: `r[d] =` the number in memory at `r[s] + imm`, a sum that wraps. Traps where the
    /// address isn't a multiple of the size, and else where the access leaves the memory.
    Load(Size, u8, u8, u32),
    /// d, s, imm: the memory at `r[s] + imm` gets the low bytes of `r[d]`. Traps as a load does.
    Store(Size, u8, u8, u32),
    /// d: `r[d] =` the next byte of the input, or 0xFFFFFFFF at its end.
    Inb(u8),
    /// s: puts out the low byte of `r[s]`. Traps where the output has reached its limit.
    Outb(u8),
    /// Two destinations, s, t: compares `r[s]` with `r[t]`, and acts on both destinations.
    Cmp(Test, Dest, Dest, u8, u8),
    /// Two destinations, s, imm: compares `r[s]` with the immediate, whose sign is extended.
    CmpImm(Test, Dest, Dest, u8, i16),
    /// s: a branch to `b[s]`.
    Bru(u8),
    /// s, d: a branch to `b[s]`, taken where `p[d]` is true.
    Brct(u8, u8),
    /// s, d: a branch to `b[s]`, taken where `p[d]` is false.
    Brcf(u8, u8),
    /// d, s: a branch to `b[s]`; `b[d]` gets the entry of the next block.
    Brl(u8, u8),
    /// s: the program ends with the code `r[s]`.
    Halt(u8),
}

/// An operation under a guarding predicate, with all numbers in range.
///
/// The guard and the numbers of registers and predicates are at most 31, those of branch targets
/// at most 7, and a store's size is `Word`, `Half` or `Byte`.
#[derive(Clone, Copy, Debug, PartialEq, Eq)]
pub struct Guarded {
    /// The number of the predicate under which the operation is done; p0 is always true.
    pub guard: u8,
    /// The operation.
    pub op: Op,
    pub ghost in_range: { IsTrue (is_in_range guard op) },
}

/// A kind of functional unit, by number from 0.
#[derive(Clone, Copy, Debug, PartialEq, Eq)]
pub enum UnitKind {
    /// Integers and moves.
    I,
    /// Products and divisions.
    M,
    /// Memory, input and output.
    L,
    /// Compares.
    P,
    /// Branches and `halt`.
    B,
}

/// What decides an operation's latency, by number from 0.
#[derive(Clone, Copy, Debug, PartialEq, Eq)]
pub enum LatKind {
    /// Integers, and moves to a register.
    Alu,
    /// Products.
    Mul,
    /// Quotients and remainders.
    Div,
    /// Loads.
    Load,
    /// Stores.
    Store,
    /// Input and output.
    Io,
    /// Compares.
    Cmp,
    /// What sets a branch target and doesn't branch.
    Pbr,
    /// Branches and `halt`.
    Branch,
}

/// Where a value stands. r0 and p0 are constants, and never read or written as places.
#[derive(Clone, Copy, Debug, PartialEq, Eq)]
pub enum Place {
    /// A general register.
    General(u8),
    /// A predicate.
    Predicate(u8),
    /// A branch target.
    Target(u8),
    /// The whole data memory.
    Memory,
}

/// The operands of an operation, by the numbers of their places. The guard is none of them; r0 and
/// p0 are named like any other.
#[derive(Clone, Copy, Debug, PartialEq, Eq)]
pub struct Sources {
    /// `r[s]`.
    pub first: Option<u8>,
    /// `r[t]`, or `r[d]` of a store.
    pub second: Option<u8>,
    /// `b[s]`.
    pub target: Option<u8>,
    /// `p[d]` of a conditional branch.
    pub test: Option<u8>,
    /// Whether it reads the memory.
    pub memory: bool,
}

/// The places where an operation leaves a value. r0 and p0 are named like any other.
#[derive(Clone, Copy, Debug, PartialEq, Eq)]
pub struct Destinations {
    /// The only one, or a compare's first one.
    pub first: Option<Place>,
    /// A compare's second one.
    pub second: Option<Place>,
}

/// The one value that compares wired together on a predicate can write.
#[derive(Clone, Copy, Debug, PartialEq, Eq)]
pub enum Family {
    /// True, by `On` and `Oc`.
    One,
    /// False, by `An` and `Ac`.
    Zero,
}

/// Why an operation traps, or a block's end.
#[derive(Clone, Copy, Debug, PartialEq, Eq)]
pub enum TrapKind {
    /// A division by 0. The detail is the dividend.
    DivideByZero,
    /// An address that isn't a multiple of the size. The detail is the address.
    Misaligned,
    /// An aligned access whose end, which doesn't wrap, is above the memory's size. The detail is
    /// the address.
    OutOfRange,
    /// A byte too much for the output's limit. The detail is the byte.
    OutputFull,
    /// A taken branch to an address that is no entry, at the block's end. The detail is the address.
    BadTarget,
}

/// A trap.
#[derive(Clone, Copy, Debug, PartialEq, Eq)]
pub struct Trap {
    /// Why.
    pub kind: TrapKind,
    /// The number that `kind` says.
    pub detail: u32,
}

/// A trap with the block in which it came.
#[derive(Clone, Copy, Debug, PartialEq, Eq)]
pub struct Report {
    /// Why.
    pub kind: TrapKind,
    /// The block's entry.
    pub block: u32,
    /// The number that `kind` says.
    pub detail: u32,
}

/// How a run ends.
#[derive(Clone, Copy, Debug, PartialEq, Eq)]
pub enum End {
    /// At a `halt`, with its code.
    Halted(u32),
    /// At a trap.
    Trapped(Report),
    /// After as many blocks as the run may take.
    Bound,
}

/// What an operation finds when it issues. A value that the operation doesn't use decides nothing.
#[derive(Clone, Copy, Debug, PartialEq, Eq)]
pub struct Operands {
    /// The value of the guarding predicate.
    pub guard: bool,
    /// `r[s]`.
    pub first: u32,
    /// `r[t]`, or `r[d]` of a store.
    pub second: u32,
    /// `b[s]`.
    pub target: u32,
    /// `p[d]` of a conditional branch.
    pub test: bool,
    /// The size of the memory in bytes.
    pub memory: u32,
    /// Whether the output has reached its limit.
    pub full: bool,
}

/// What an operation does. The numbers of places are in range.
///
/// A destination r0 or p0 is named like any other; to write it does nothing.
#[derive(Clone, Copy, Debug, PartialEq, Eq)]
pub enum Effect {
    /// Nothing: a false guard, or a branch that isn't taken.
    Nothing,
    /// A general register gets a value.
    General(u8, u32),
    /// What a compare writes to its first and to its second destination, if anything.
    Predicates(Option<bool>, Option<bool>),
    /// A branch target gets a value.
    Target(u8, u32),
    /// A register gets the number in memory at an address.
    Load {
        /// The number of the register.
        d: u8,
        /// The first byte's address: aligned, and the whole access is inside the memory.
        address: u32,
        /// How many bytes, and how they are extended.
        size: Size,
    },
    /// The memory at an address gets the low bytes of a value.
    Store {
        /// The first byte's address: aligned, and the whole access is inside the memory.
        address: u32,
        /// How many bytes.
        size: Size,
        /// The whole register.
        value: u32,
    },
    /// A general register gets the next byte of the input.
    Take(u8),
    /// A byte is put out.
    Put(u8),
    /// The operation traps, and does nothing else.
    Trapped(Trap),
    /// A branch to an address.
    Jump(u32),
    /// A branch to an address; the branch target gets the entry of the next block.
    Link(u8, u32),
    /// The program ends with a code.
    Halt(u32),
}
