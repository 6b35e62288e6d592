// The names of the operations, both ways.
ghost use Rattle.std.specs.Prelude.{◌≡◌, bytes_eq, find};
ghost use Rattle.list_encoding.specs.declared.opcodes.Mnemonic.TheVariants.{AluImm, CmpImm};
ghost use Rattle.list_encoding.specs.Names.{alu_name, test_name, load_name, store_name, name_of, mnemonic_named};
ghost use Rattle.list_encoding.specs.Lettered.{lettered, named_by_letter};

use super::opcodes::Mnemonic;
use operation::{AluKind, Size, Test};

fn alu_kind_name(kind: AluKind) -> &'static [u8]
    ensures { result.now ≡ alu_name kind }
{
    match kind {
        AluKind::Add => b"add",
        AluKind::Sub => b"sub",
        AluKind::And => b"and",
        AluKind::Or => b"or",
        AluKind::Xor => b"xor",
        AluKind::Shl => b"shl",
        AluKind::Shr => b"shr",
        AluKind::Sar => b"sar",
        AluKind::Min => b"min",
        AluKind::Max => b"max",
    }
}

fn alu_imm_name(kind: AluKind) -> &'static [u8]
    ensures { result.now ≡ name_of (AluImm kind) }
{
    match kind {
        AluKind::Add => b"addi",
        AluKind::Sub => b"subi",
        AluKind::And => b"andi",
        AluKind::Or => b"ori",
        AluKind::Xor => b"xori",
        AluKind::Shl => b"shli",
        AluKind::Shr => b"shri",
        AluKind::Sar => b"sari",
        AluKind::Min => b"mini",
        AluKind::Max => b"maxi",
    }
}

fn compare_name(test: Test) -> &'static [u8]
    ensures { result.now ≡ test_name test }
{
    match test {
        Test::Ceq => b"ceq",
        Test::Cne => b"cne",
        Test::Clt => b"clt",
        Test::Cle => b"cle",
        Test::Cltu => b"cltu",
        Test::Cleu => b"cleu",
    }
}

fn compare_imm_name(test: Test) -> &'static [u8]
    ensures { result.now ≡ name_of (CmpImm test) }
{
    match test {
        Test::Ceq => b"ceqi",
        Test::Cne => b"cnei",
        Test::Clt => b"clti",
        Test::Cle => b"clei",
        Test::Cltu => b"cltui",
        Test::Cleu => b"cleui",
    }
}

fn size_load_name(size: Size) -> &'static [u8]
    ensures { result.now ≡ load_name size }
{
    match size {
        Size::Word => b"ldw",
        Size::Half => b"ldh",
        Size::HalfU => b"ldhu",
        Size::Byte => b"ldb",
        Size::ByteU => b"ldbu",
    }
}

fn size_store_name(size: Size) -> &'static [u8]
    ensures { result.now ≡ store_name size }
{
    match size {
        Size::Word => b"stw",
        Size::Half => b"sth",
        Size::Byte => b"stb",
        Size::HalfU | Size::ByteU => b"",
    }
}

/// The name of an operation. Of no bytes for a store of a size that no store has.
pub fn name(mnemonic: Mnemonic) -> &'static [u8]
    ensures { result.now ≡ name_of mnemonic }
{
    match mnemonic {
        Mnemonic::Alu(kind) => alu_kind_name(kind),
        Mnemonic::AluImm(kind) => alu_imm_name(kind),
        Mnemonic::Pbr => b"pbr",
        Mnemonic::Mvb => b"mvb",
        Mnemonic::Mvr => b"mvr",
        Mnemonic::Mul => b"mul",
        Mnemonic::Div => b"div",
        Mnemonic::Rem => b"rem",
        Mnemonic::Load(size) => size_load_name(size),
        Mnemonic::Store(size) => size_store_name(size),
        Mnemonic::Inb => b"inb",
        Mnemonic::Outb => b"outb",
        Mnemonic::Cmp(test) => compare_name(test),
        Mnemonic::CmpImm(test) => compare_imm_name(test),
        Mnemonic::Bru => b"bru",
        Mnemonic::Brct => b"brct",
        Mnemonic::Brcf => b"brcf",
        Mnemonic::Brl => b"brl",
        Mnemonic::Halt => b"halt",
    }
}

/// The operations whose names begin with a letter.
fn begun_by(letter: u8) -> &'static [Mnemonic]
    ensures { result.now ≡ lettered letter }
{
    match letter {
        b'a' => &[
            Mnemonic::Alu(AluKind::Add),
            Mnemonic::AluImm(AluKind::Add),
            Mnemonic::Alu(AluKind::And),
            Mnemonic::AluImm(AluKind::And),
        ],
        b'b' => &[Mnemonic::Bru, Mnemonic::Brct, Mnemonic::Brcf, Mnemonic::Brl],
        b'c' => &[
            Mnemonic::Cmp(Test::Ceq),
            Mnemonic::Cmp(Test::Cne),
            Mnemonic::Cmp(Test::Clt),
            Mnemonic::Cmp(Test::Cle),
            Mnemonic::Cmp(Test::Cltu),
            Mnemonic::Cmp(Test::Cleu),
            Mnemonic::CmpImm(Test::Ceq),
            Mnemonic::CmpImm(Test::Cne),
            Mnemonic::CmpImm(Test::Clt),
            Mnemonic::CmpImm(Test::Cle),
            Mnemonic::CmpImm(Test::Cltu),
            Mnemonic::CmpImm(Test::Cleu),
        ],
        b'd' => &[Mnemonic::Div],
        b'h' => &[Mnemonic::Halt],
        b'i' => &[Mnemonic::Inb],
        b'l' => &[
            Mnemonic::Load(Size::Word),
            Mnemonic::Load(Size::Half),
            Mnemonic::Load(Size::HalfU),
            Mnemonic::Load(Size::Byte),
            Mnemonic::Load(Size::ByteU),
        ],
        b'm' => &[
            Mnemonic::Mul,
            Mnemonic::Mvb,
            Mnemonic::Mvr,
            Mnemonic::Alu(AluKind::Min),
            Mnemonic::Alu(AluKind::Max),
            Mnemonic::AluImm(AluKind::Min),
            Mnemonic::AluImm(AluKind::Max),
        ],
        b'o' => &[
            Mnemonic::Outb,
            Mnemonic::Alu(AluKind::Or),
            Mnemonic::AluImm(AluKind::Or),
        ],
        b'p' => &[Mnemonic::Pbr],
        b'r' => &[Mnemonic::Rem],
        b's' => &[
            Mnemonic::Store(Size::Word),
            Mnemonic::Store(Size::Half),
            Mnemonic::Store(Size::Byte),
            Mnemonic::Alu(AluKind::Sub),
            Mnemonic::AluImm(AluKind::Sub),
            Mnemonic::Alu(AluKind::Shl),
            Mnemonic::Alu(AluKind::Shr),
            Mnemonic::Alu(AluKind::Sar),
            Mnemonic::AluImm(AluKind::Shl),
            Mnemonic::AluImm(AluKind::Shr),
            Mnemonic::AluImm(AluKind::Sar),
        ],
        b'x' => &[Mnemonic::Alu(AluKind::Xor), Mnemonic::AluImm(AluKind::Xor)],
        _ => &[],
    }
}

fn is_named(mnemonic: Mnemonic, word: &[u8]) -> bool
    ensures { result ≡ bytes_eq (name_of mnemonic) word.now }
{
    name(mnemonic) == word
}

/// The one of these that has the name.
fn among(mnemonics: &[Mnemonic], word: &[u8]) -> Option<Mnemonic>
    ensures { result ≡ find (λ m. bytes_eq (name_of m) word.now) mnemonics.now }
{
    mnemonics.iter().copied().find(|m| is_named(*m, word))
}

/// The operation of a name, looked for among those with its first letter.
fn lettered_named(word: &[u8]) -> Option<Mnemonic>
    ensures { result ≡ named_by_letter word.now }
{
    let (letter, _) = word.split_first()?;
    among(begun_by(*letter), word)
}

/// The operation of a name, None where it is no operation's.
#[tactic(auto, using(crate::proofs::OperationNames::by_letter))]
pub fn named(word: &[u8]) -> Option<Mnemonic>
    ensures { result ≡ mnemonic_named word.now }
{
    lettered_named(word)
}
