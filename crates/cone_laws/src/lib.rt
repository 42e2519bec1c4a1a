//! The four laws of cones, each as the contract of a function that does nothing.
#![tactic(auto)]

ghost use Rattle.cone_laws.specs.Laws.{
  LocalToGlobal,
  Generated,
  RingPlanesAreConvex,
  DiagonalsIdentity,
  DiagonalsCross,
  RingUnique,
  RingBounds,
};

/// The local-to-global law: in an accepted face each node is on the non-negative side of each edge
/// plane, and it is zero on exactly the two whose edges meet in it.
pub fn law_local_to_global()
    ensures { LocalToGlobal }
{}

/// The generation law, of any list of at least three planes in which each corner is strictly
/// positive on all planes but its own two: no plane is negative on a direction exactly where a
/// positive multiple of the direction is a sum of corners, each with a whole factor of 0 or more.
pub fn law_generated()
    ensures law { Generated }
    // the planes that a ring lists are such a list
    ensures rings { RingPlanesAreConvex }
{}

/// The diagonals law: an equation of any four triples, and that the two diagonals of four corners
/// in cyclic order have a direction in common.
pub fn law_diagonals_cross()
    ensures identity { DiagonalsIdentity }
    ensures crossing { DiagonalsCross }
{}

/// The uniqueness law: two faces have at most one ring, and a ring bounds what both faces hold.
pub fn law_ring_unique()
    ensures unique { RingUnique }
    ensures bounds { RingBounds }
{}
