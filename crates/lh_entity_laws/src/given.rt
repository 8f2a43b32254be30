//! What the laws of emitted entities ask of the rows of a flat text, each law as the contract of a function that does nothing.
ghost use Rattle.lh_entity_laws.specs.Given.{CombIsGiven, EdgeIsGiven, OnceIsGiven};

use lh_term::laws::swaps_keep_meaning;

/// Of a combinational flat text each part is reached by steps from an argument, each term is typed, and the drives read only what is
/// waited on.
pub fn comb_given()
    ensures { CombIsGiven }
{}

/// Of a flat text that reacts to edges each part is reached, and each term is typed.
pub fn edge_given()
    ensures { EdgeIsGiven }
{
    swaps_keep_meaning();
}

/// Of a flat text that runs once each part is reached, each term is typed, and the drives read nothing.
pub fn once_given()
    ensures { OnceIsGiven }
{}
