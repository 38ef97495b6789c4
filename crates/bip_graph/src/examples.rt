//! What the definitions say of the orders of a small matrix.

ghost use Rattle.std.specs.Prelude.{◌≡◌, [], ◌∷◌};
ghost use Rattle.bip_defs.specs.Small.{lower_triangle, lower_triangle_parts, single};
ghost use Rattle.bip_defs.specs.Triangular.{diagonal_blocks};
ghost use Rattle.bip_graph.specs.Answers.{orders_of};
ghost use Rattle.bip_graph.specs.Orders.{IsZeroBelow};

/// A lower triangle is reported from its end, and then it has no entry below its blocks; from its
/// start it would have one.
pub fn lower_triangle_in_two_orders()
    ensures orders { orders_of lower_triangle_parts ≡ (2 ∷ 1 ∷ 0 ∷ [], 2 ∷ 1 ∷ 0 ∷ []) }
    ensures from_the_end { IsZeroBelow lower_triangle (diagonal_blocks lower_triangle_parts)
        (2 ∷ 1 ∷ 0 ∷ [], 2 ∷ 1 ∷ 0 ∷ []) }
    ensures from_the_start { ¬ IsZeroBelow lower_triangle (single 0 ∷ single 1 ∷ single 2 ∷ [])
        (0 ∷ 1 ∷ 2 ∷ [], 0 ∷ 1 ∷ 2 ∷ []) }
{}
