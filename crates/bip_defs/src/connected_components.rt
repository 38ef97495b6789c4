//! The connected components of the horizontal and of the vertical part.

ghost use Rattle.std.specs.Prelude.{◌≡◌};
ghost use Rattle.bip_defs.specs.ConnectedComponents.{AreConnectedComponents, Components};
ghost use Rattle.bip_defs.specs.Matrix.{Matrix};

/// A matrix has at most one list of the components of its horizontal part and one of those of its
/// vertical part.
pub fn one_list_of_components()
    ensures { (a : Matrix) (c d : Components) → AreConnectedComponents a c
        → AreConnectedComponents a d → c ≡ d }
{}
