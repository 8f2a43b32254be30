//! Laws of texts: what any text reads as has a canonical text, and that text reads as it again. Each is the contract
//! of a function that does nothing, so that other crates can cite it.
#![tactic(auto)]

ghost use Rattle.lh_text_laws.specs.Laws.{EveryReadingIsSpelled, CanonHasItsLines, CanonHasItsTokens, PrintableIsSpelled, SpelledIsPrintable, SpelledApart, SpelledTogether};

/// What any text reads as, its canonical text reads as too.
pub fn canonical_text_reads_back()
    ensures { EveryReadingIsSpelled }
{}

/// A canonical text has the canonical lines as its lines, and each has the tokens that it is made of.
pub fn canonical_text_has_its_lines()
    ensures lines { CanonHasItsLines }
    ensures tokens { CanonHasItsTokens }
{}

/// An item is spelled as the only one of its module exactly where it can be printed: its lines spell it, and
/// a unit has the shape of its kind, no name twice, and no more instructions than the limit.
pub fn printable_items_are_spelled()
    ensures spelled { PrintableIsSpelled }
    ensures printable { SpelledIsPrintable }
{}

/// A module is spelled where each of its items alone is and no two units have one name. So a unit may be
/// put in the place of another of its name.
pub fn modules_are_spelled_by_items()
    ensures apart { SpelledApart }
    ensures together { SpelledTogether }
{}
