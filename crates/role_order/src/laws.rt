//! Laws of every hierarchy, whatever the code does.
ghost use Rattle.role_order.specs.Laws.{AddedEdgeCrosses, ChainsLead, TestDecides};

/// If the edges have no cycle, and `desc` is neither `asc` nor senior to it, the order with an edge
/// from `asc` to `desc` is the old one with each pair of `asc` or a senior of it and `desc` or a
/// junior of it, and has no cycle.
pub fn added()
    ensures { AddedEdgeCrosses }
{}

/// A role is another, or senior to it, exactly if there is a nonempty list of names from the one to
/// the other in which each pair of neighbours is an edge.
pub fn chains()
    ensures { ChainsLead }
{}

/// The computable test of the order, which other definitions use, decides it.
pub fn decided()
    ensures { TestDecides }
{}
