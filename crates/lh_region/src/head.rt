//! The head of a process: the block with which it starts, once the constants of its entry are known.
ghost use Rattle.std.specs.Prelude.{◌≡◌, ◌<◌, ℕ, Bool, ◌||◌, ◌&&◌, not, length, nat_eq, Option, Some, None, slice_get, unwrap_or};
ghost use Rattle.lh_region.specs.Heads as heads;

use lh_flat::{Flat, FlatBlock, FlatInst};
use lh_unit::inst::{BlockId, Inst};

/// The head of a flat text: what the entry leads to, where it holds constants alone and no terminator names it, else the entry.
pub fn head_of(flat: &Flat) -> u32
    ensures { result ≡ heads.head_in flat.now.blocks }
{
    match flat.blocks.as_slice() {
        [entry, ..] => match leads_on(entry) {
            Some(head) if !is_named(flat.blocks.as_slice(), BlockId(0)) => head.0,
            _ => 0,
        },
        [] => 0,
    }
}

/// Where a block leads that holds constants and a branch alone.
fn leads_on(block: &FlatBlock) -> Option<BlockId>
    ensures { result ≡ heads.leads_on block.now.insts }
{
    for line in block.insts.as_slice() {
        match line.inst {
            Inst::Const(_) => {}
            Inst::Br(to) => return Some(to),
            _ => return None,
        }
    }
    None
}

/// Whether a terminator names a block, in code that no path reaches too.
fn is_named(blocks: &[FlatBlock], block: BlockId) -> bool
    ensures { result ≡ heads.is_named block blocks.now }
{
    for from in blocks {
        if names(from.insts.as_slice(), block) {
            return true;
        }
    }
    false
}

/// Whether one of these instructions leads to a block.
fn names(lines: &[FlatInst], block: BlockId) -> bool
    ensures { result ≡ heads.names block lines.now }
{
    for line in lines {
        if leads_to(line, block) {
            return true;
        }
    }
    false
}

/// Whether an instruction leads to a block.
fn leads_to(line: &FlatInst, to: BlockId) -> bool
    ensures { result ≡ heads.leads_to to line.now.inst }
{
    match &line.inst {
        Inst::Br(b) => *b == to,
        Inst::Branch { zero, one, .. } => *zero == to || *one == to,
        Inst::Wait { to: b, .. } => *b == to,
        _ => false,
    }
}

/// Whether a block begins with the result of a call or with a `phi`.
pub fn begins_with_phi(block: &FlatBlock) -> bool
    ensures { result ≡ heads.begins_with_phi block.now }
{
    block.merge.is_some() || starts_with_phi(block.insts.as_slice())
}

fn starts_with_phi(lines: &[FlatInst]) -> bool
    ensures { result ≡ heads.starts_with_phi lines.now }
{
    match lines {
        [first, ..] => match first.inst {
            Inst::Phi { .. } => true,
            _ => false,
        },
        [] => false,
    }
}
