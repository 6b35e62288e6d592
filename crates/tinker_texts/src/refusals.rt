// How a refused file is told.
ghost use Rattle.std.specs.Prelude.{Some, ◌≡◌, ◌++◌, IfOk, codes};
ghost use Rattle.event_script.specs.Faults.{fault_text};
ghost use Rattle.tinker_texts.specs.Refusals.{rule_name, place, refusal_text, too_long_text, mdes_fault_text, unit_letter, no_unit_text, context_name, refused_line};

use event_script::ScriptFault;
use image_check::{Refusal, Rule};
use machine_desc::{MdesFault, key_name};
use operation::UnitKind;
use std::alloc::{AllocError, Global};
use std::fmt;

/// A rule by its number and its title.
#[derive(Clone, Copy)]
struct RuleName(Rule);

impl fmt::Display for RuleName {
    ghost output = { λ r. Some (rule_name r.0) };

    fn fmt<W: fmt::Write>(&self, f: &mut fmt::Formatter<W>) -> fmt::Result {
        match self.0 {
            Rule::Magic => write!(f, "F1 Magic"),
            Rule::Version => write!(f, "F2 Version"),
            Rule::Limits => write!(f, "F3 Limits"),
            Rule::Length => write!(f, "F4 Length"),
            Rule::Description => write!(f, "F5 Description"),
            Rule::Table => write!(f, "F6 Table"),
            Rule::PageCross => write!(f, "F7 PageCross"),
            Rule::Entry => write!(f, "F8 Entry"),
            Rule::Padding => write!(f, "F9 Padding"),
            Rule::Opcode => write!(f, "B1 Opcode"),
            Rule::Unit => write!(f, "B2 Unit"),
            Rule::Head => write!(f, "B3 Head"),
            Rule::Width => write!(f, "B4 Width"),
            Rule::Units => write!(f, "B5 Units"),
            Rule::SecondBranch => write!(f, "B6 SecondBranch"),
            Rule::Target => write!(f, "B7 Target"),
            Rule::Drain => write!(f, "B8 Drain"),
            Rule::BranchEnd => write!(f, "B9 BranchEnd"),
            Rule::BranchShadow => write!(f, "B10 BranchShadow"),
            Rule::Landing => write!(f, "B11 Landing"),
            Rule::Cycle => write!(f, "B12 Cycle"),
            Rule::Successor => write!(f, "B13 Successor"),
        }
    }
}

/// The place at which a rule is broken, with a space before it; nothing for a rule without places.
#[derive(Clone, Copy)]
struct PlaceText(Refusal);

impl fmt::Display for PlaceText {
    ghost output = { λ p. Some (place p.0.rule p.0.at p.0.op) };

    fn fmt<W: fmt::Write>(&self, f: &mut fmt::Formatter<W>) -> fmt::Result {
        let Refusal { rule, at, op } = self.0;
        match rule {
            Rule::Magic | Rule::Version | Rule::Length | Rule::Entry => Ok(()),
            Rule::Limits => write!(f, " field {at}"),
            Rule::Description => write!(f, " byte {at}"),
            Rule::Table | Rule::PageCross => write!(f, " row {at}"),
            Rule::Padding => write!(f, " word {at}"),
            _ => write!(f, " block {at} op {op}"),
        }
    }
}

/// The first broken rule of an image, with its place.
#[derive(Clone, Copy)]
struct RefusalText(Refusal);

impl fmt::Display for RefusalText {
    ghost output = { λ r. Some (refusal_text r.0) };

    fn fmt<W: fmt::Write>(&self, f: &mut fmt::Formatter<W>) -> fmt::Result {
        let rule = RuleName(self.0.rule);
        let place = PlaceText(self.0);
        write!(f, "{rule}{place}")
    }
}

/// The line of an image that breaks a rule.
pub fn broken(alloc: Global, name: &str, refusal: Refusal) -> Result<Vec<u8>, AllocError>
    ensures { IfOk result (λ line. line.items ≡ refused_line name.now (refusal_text refusal)) }
{
    let why = RefusalText(refusal);
    let line = format!(in alloc; "refused {name} {why}\n")?;
    Ok(line.into_bytes())
}

/// The line of a file that has more bytes than the limit.
pub fn too_long(alloc: Global, name: &str, limit: u64) -> Result<Vec<u8>, AllocError>
    ensures { IfOk result (λ line. line.items ≡ refused_line name.now (too_long_text limit)) }
{
    let line = format!(in alloc; "refused {name} TooLong {limit}\n")?;
    Ok(line.into_bytes())
}

/// The line of a description file whose key has an unknown name.
fn unknown(alloc: Global, name: &str, key: &[u8]) -> Result<Vec<u8>, AllocError>
    ensures { IfOk result (λ line. line.items ≡ refused_line name.now (codes "Unknown " ++ key.now)) }
{
    let mut line = format!(in alloc; "refused {name} Unknown ")?.into_bytes();
    line.extend_from_slice(key)?;
    line.push(b'\n')?;
    Ok(line)
}

/// The line of a description file that has a fault.
pub fn undescribed(alloc: Global, name: &str, fault: &MdesFault) -> Result<Vec<u8>, AllocError>
    ensures { IfOk result (λ line. line.items ≡ refused_line name.now (mdes_fault_text fault.now)) }
{
    let line = match fault {
        MdesFault::Toml => format!(in alloc; "refused {name} Toml\n"),
        MdesFault::Missing(n) => {
            let key = key_name(*n);
            format!(in alloc; "refused {name} Missing {key}\n")
        }
        MdesFault::Unknown(key) => return unknown(alloc, name, key.bytes()),
        MdesFault::NotNumber(n) => {
            let key = key_name(*n);
            format!(in alloc; "refused {name} NotNumber {key}\n")
        }
        MdesFault::Range(n, value) => {
            let key = key_name(*n);
            format!(in alloc; "refused {name} Range {key} {value}\n")
        }
        MdesFault::NoMemory => format!(in alloc; "refused {name} \n"),
    };
    Ok(line?.into_bytes())
}

/// The line of a script that has a fault.
pub fn unscripted(alloc: Global, name: &str, fault: ScriptFault) -> Result<Vec<u8>, AllocError>
    ensures { IfOk result (λ line. line.items ≡ refused_line name.now (fault_text fault)) }
{
    let line = format!(in alloc; "refused {name} {fault}\n")?;
    Ok(line.into_bytes())
}

fn letter(k: UnitKind) -> &'static str
    ensures { result.now ≡ unit_letter k }
{
    match k {
        UnitKind::I => "I",
        UnitKind::M => "M",
        UnitKind::L => "L",
        UnitKind::P => "P",
        UnitKind::B => "B",
    }
}

/// The line of an image that uses a unit kind of which the generation has none.
pub fn no_unit(alloc: Global, name: &str, k: UnitKind) -> Result<Vec<u8>, AllocError>
    ensures { IfOk result (λ line. line.items ≡ refused_line name.now (no_unit_text k)) }
{
    let letter = letter(k);
    let line = format!(in alloc; "refused {name} NoUnit {letter}\n")?;
    Ok(line.into_bytes())
}

/// The line of a context whose image uses a unit kind of which its generation has none.
pub fn no_unit_for_context(alloc: Global, index: u8, k: UnitKind) -> Result<Vec<u8>, AllocError>
    ensures { IfOk result (λ line. line.items ≡ refused_line (context_name index) (no_unit_text k)) }
{
    let letter = letter(k);
    let line = format!(in alloc; "refused context {index} NoUnit {letter}\n")?;
    Ok(line.into_bytes())
}
