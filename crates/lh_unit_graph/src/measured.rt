//! What is measured of the units of a graph.
ghost use Rattle.std.specs.Prelude.{◌≡◌};
ghost use Rattle.lh_unit_graph.specs.Measures.{Measuring};

use lh_unit::inst::UnitId;

/// A measure of units: of one with all that it reaches, or of some beside each other.
pub trait Measured: Copy {
    /// A unit of the graph.
    type Node;

    /// Which units a node names, and how their measures make up its own.
    ghost measuring: { Measuring Self.Node Self };

    /// The units that a node names, in their order.
    fn targets(node: &Self::Node) -> &[UnitId]
        ensures { result.now ≡ measuring.targets node.now };

    /// The measure of no unit.
    fn nothing() -> Self
        ensures { result ≡ measuring.nothing };

    /// The measure of these units, and of others beside them.
    fn beside(self, other: Self) -> Self
        ensures { result ≡ measuring.beside self other };

    /// The measure of a node that has these below it.
    fn around(self, node: &Self::Node) -> Self
        ensures { result ≡ measuring.around self node.now };
}
