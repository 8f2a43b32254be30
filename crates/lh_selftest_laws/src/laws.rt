//! Laws of the text of a chain of up to 1,000 links, each the contract of a function that does nothing.
ghost use Rattle.lh_selftest_laws.specs.Laws.{GeneratedIsShort, GeneratedReads, ChainIsFaultless, ChainIsWellFormed, ChainElaborates};
ghost use Rattle.lh_selftest_laws.specs.Worked.{TwoLinks};

use lh_text_laws::{modules_are_spelled_by_items, printable_items_are_spelled};

/// The text is short, and reads as the items of the chain.
pub fn reading_law()
    ensures short { GeneratedIsShort }
    ensures reads { GeneratedReads }
{
    modules_are_spelled_by_items();
    printable_items_are_spelled();
}

/// The items are well formed: their canonical text reads as them, and no instruction has a fault.
pub fn well_formed_law()
    ensures faultless { ChainIsFaultless }
    ensures formed { ChainIsWellFormed }
{
    modules_are_spelled_by_items();
    printable_items_are_spelled();
}

/// The chain has a design.
pub fn elaborates_law()
    ensures elaborates { ChainElaborates }
{}

/// What the entity of a chain of two links says, line by line.
pub fn worked_chain()
    ensures { TwoLinks }
{}
