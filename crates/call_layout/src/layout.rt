// The layout of the parts of a call by their labels.
ghost use Rattle.std.specs.Prelude.{◌≡◌, ◌↔◌, ◌<◌, ◌++◌, length, true, IsTrue, IfOk, IfErr, IfSome, IfNone, OnOk};
ghost use Rattle.std.specs.Str.{IsUtf8};
ghost use Rattle.call_layout.specs.Layout as meaning;
ghost use Rattle.call_layout.specs.Layout.{HoldsFirst, IsFolderOf, CanStand, AllCanStand, IsCauseAt, IsFaultOf};

use crate::labels::{is_taken, stays_below};
use crate::told::PartTold;
use object_values::{Bytes, Copied, Memory, Seq};
use std::alloc::Global;
use std::collections::HashMap;

/// A part that is laid out at its label. Where a part before it has the same label, that one's file stands there, and this one's has to have the same
/// bytes.
pub struct Placed {
    pub number: u64,
    /// The number of the first part with this label.
    pub first: u64,
    pub label: Bytes,
}

// By hand: a drop is one call, where a derived one is opened field by field at each early return.
impl Drop for Placed {
    fn drop(self) {
        let Placed {
            number: _,
            first: _,
            label,
        } = self;
        drop(label);
    }
}

/// Why parts can't be laid out.
pub enum LayoutFault {
    /// The label isn't the path of a file below the folder.
    Leads(Bytes),
    /// The label is no text.
    NoText(Bytes),
    /// A file or a folder of odin stands there, or is to stand there.
    Taken(Bytes),
    /// A folder of the label is the label of another part.
    Under { folder: Bytes, label: Bytes },
    Memory,
}

// By hand, for the same reason.
impl Drop for LayoutFault {
    fn drop(self) {
        match self {
            LayoutFault::Leads(label) | LayoutFault::NoText(label) | LayoutFault::Taken(label) => {
                drop(label);
            }
            LayoutFault::Under { folder, label } => {
                drop(folder);
                drop(label);
            }
            LayoutFault::Memory => {}
        }
    }
}

impl From<Memory> for LayoutFault {
    ghost use Rattle.std.specs.Prelude.{◌≡◌};
    ghost use Rattle.call_layout.specs.declared.layout.LayoutFault.TheVariants as fault;

    ghost from_gives = { λ _ given. given ≡ fault.Memory };

    fn from(_: Memory) -> Self {
        LayoutFault::Memory
    }
}

/// Parts, and the number of the first one of each label that is there.
#[derive(Drop)]
struct Firsts<'a> {
    parts: &'a [PartTold],
    numbers: HashMap<&'a [u8], u64>,
    ghost firsts: { HoldsFirst numbers 1 parts.now },
}

impl<'a> Firsts<'a> {
    fn new(alloc: Global, parts: &'a [PartTold]) -> Result<Self, Memory>
        ensures { IfOk result (λ firsts. firsts.parts.now ≡ parts.now) }
    {
        let mut numbers = HashMap::new(alloc);
        for place in (0..parts.len()).rev() {
            let part = &parts[place];
            if part.is_there {
                numbers.insert(part.label.as_slice(), place as u64 + 1)?;
            }
        }
        Ok(Firsts { parts, numbers })
    }

    fn number(&self, label: &[u8]) -> Option<u64>
        ensures { result ≡ meaning.first_number label.now 1 self.now.parts.now }
    {
        self.numbers.get(&label).copied()
    }

    /// Whether a part that is there has this label.
    #[tactic(auto, using(crate::proofs::Firsts::first_is_had))]
    fn has_label(&self, label: &[u8]) -> bool
        ensures { result ≡ meaning.has_label self.now.parts.now label.now }
    {
        self.number(label).is_some()
    }
}

/// Whether what stands before a place of a label is a folder of it, and a label itself.
fn has_folder_at(label: &[u8], at: usize, firsts: &Firsts) -> bool
    requires { at < length label.now }
    ensures { result ≡ meaning.has_folder_at firsts.now.parts.now label.now at }
{
    label[at] == b'/' && firsts.has_label(&label[..at])
}

/// A folder of a label that is a label itself.
fn folder_among<'a>(label: &'a [u8], firsts: &Firsts) -> Option<&'a [u8]>
    ensures some { IfSome result (λ folder. IsFolderOf folder.now label.now) }
    ensures label { IfSome result (λ folder.
        meaning.has_label firsts.now.parts.now folder.now ≡ true) }
    ensures none { IfNone result (meaning.IsUnderNone firsts.now.parts.now label.now) }
{
    for at in 0..label.len() {
        if has_folder_at(label, at, firsts) {
            return Some(&label[..at]);
        }
    }
    None
}

fn is_text(label: &[u8]) -> bool
    ensures { IsTrue result ↔ IsUtf8 label.now }
{
    std::str::from_utf8(label).is_ok()
}

#[tactic(auto, using(crate::proofs::Steps::stays, crate::proofs::Steps::strays))]
fn check_label(
    alloc: Global,
    outs: &[Bytes],
    firsts: &Firsts,
    label: &[u8],
) -> Result<(), LayoutFault>
    ensures ok { OnOk result (CanStand outs.now firsts.now.parts.now label.now) }
    ensures err { IfErr result (IsCauseAt outs.now firsts.now.parts.now label.now) }
{
    if !stays_below(label) {
        return Err(LayoutFault::Leads(Bytes::from_slice(alloc, label)?));
    }
    if !is_text(label) {
        return Err(LayoutFault::NoText(Bytes::from_slice(alloc, label)?));
    }
    if is_taken(outs, label) {
        return Err(LayoutFault::Taken(Bytes::from_slice(alloc, label)?));
    }
    if let Some(folder) = folder_among(label, firsts) {
        let folder = Bytes::from_slice(alloc, folder)?;
        let label = Bytes::from_slice(alloc, label)?;
        return Err(LayoutFault::Under { folder, label });
    }
    Ok(())
}

fn check_part(
    alloc: Global,
    outs: &[Bytes],
    firsts: &Firsts,
    part: &PartTold,
) -> Result<(), LayoutFault>
    ensures ok { OnOk result (meaning.PartCanStand outs.now firsts.now.parts.now part.now) }
    ensures there { IfErr result (λ _. part.now.is_there ≡ true) }
    ensures err { IfErr result (IsCauseAt outs.now firsts.now.parts.now part.now.label) }
{
    if part.is_there {
        return check_label(alloc, outs, firsts, part.label.as_slice());
    }
    Ok(())
}

fn check_parts(alloc: Global, outs: &[Bytes], firsts: &Firsts) -> Result<(), LayoutFault>
    ensures ok { OnOk result (AllCanStand outs.now firsts.now.parts.now) }
    ensures err { IfErr result (IsFaultOf outs.now firsts.now.parts.now) }
{
    for part in firsts.parts {
        let checked = check_part(alloc, outs, firsts, part);
        if checked.is_err() {
            return checked;
        }
    }
    Ok(())
}

/// Adds the part of a number, where it is there.
fn put_placed(
    alloc: Global,
    number: u64,
    part: &PartTold,
    firsts: &Firsts,
    placed: &mut Seq<Placed>,
) -> Result<(), Memory>
    ensures { OnOk result (placed.new ≡
        placed.old ++ meaning.placed_of firsts.now.parts.now number part.now) }
{
    if !part.is_there {
        return Ok(());
    }
    let first = firsts.number(part.label.as_slice()).unwrap_or(number);
    let label = part.label.copy(alloc)?;
    placed.push(Placed {
        number,
        first,
        label,
    })
}

fn placed_parts(alloc: Global, firsts: &Firsts) -> Result<Seq<Placed>, Memory>
    ensures { IfOk result (λ placed. placed ≡ meaning.placed_parts firsts.now.parts.now) }
{
    let parts = firsts.parts;
    let mut placed = Seq::new(alloc);
    for (place, part) in parts.iter().enumerate() {
        put_placed(alloc, place as u64 + 1, part, firsts, &mut placed)?;
    }
    Ok(placed)
}

/// The parts that are there, each at its label; or why they can't be laid out.
pub fn layout_of(
    alloc: Global,
    parts: &[PartTold],
    outs: &[Bytes],
) -> Result<Seq<Placed>, LayoutFault>
    ensures placed { IfOk result (λ placed. placed ≡ meaning.placed_parts parts.now) }
    ensures stand { OnOk result (AllCanStand outs.now parts.now) }
    ensures fault { IfErr result (IsFaultOf outs.now parts.now) }
{
    let firsts = Firsts::new(alloc, parts)?;
    check_parts(alloc, outs, &firsts)?;
    Ok(placed_parts(alloc, &firsts)?)
}
