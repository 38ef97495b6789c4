//! Laws on forests.

ghost use Rattle.std.specs.Prelude.{◌≡◌, ◌↔◌, ◌+◌, ◌++◌, ℕ, List, [], length};
ghost use Rattle.bip_defs.specs.Lists.{Among, AreDistinct, AreNew, Lists};
ghost use Rattle.bip_defs.specs.Matching.{Covers, IsMatching, IsMaximum, cols_of, rows_of};
ghost use Rattle.bip_defs.specs.Matrix.{IsEntry, Matrix, Place};
ghost use Rattle.bip_defs.specs.Witness.{IsWitness};
ghost use Rattle.forest_core.specs.Current.{IsCurrent};
ghost use Rattle.forest_core.specs.Events.{AreClaimsAndWins, Becomes, Grows, IsLegal, LeadsTo, Runs, flips};
ghost use Rattle.forest_core.specs.Sound.{IsSound};
ghost use Rattle.forest_core.specs.Trees.{HasTrees};
ghost use Rattle.bip_defs.specs.Forest.{InForest, IsRested, IsRootOfRow, IsSettled, State, grown_by, new_forest};
ghost use Rattle.sp_ids.specs.Events.{claim_events, claims_then_wins, win_events};
ghost use Rattle.sp_ids.specs.declared.events.Event.{Event};
ghost use Rattle.sp_ids.specs.declared.events.Event.TheVariants.{Claim, Done, Graft, Rebuild, Win};

/// A new forest is sound, and whatever legal events come, in whatever order, it stays so.
pub fn events_keep_sound()
    ensures new { (a : Matrix) (m : List Place) → IsMatching a m → IsSound (new_forest a m) }
    ensures runs { (s t : State) (es : List Event) → IsSound s → Runs s es t → IsSound t }
{}

/// Runs one after the other are a run, over the same matrix, and a run splits wherever its events
/// are cut.
pub fn runs_join()
    ensures here { (s : State) → LeadsTo s s }
    ensures event { (s t u : State) (e : Event) → LeadsTo s t → IsLegal t e → Becomes t e u
        → LeadsTo s u }
    ensures runs { (s t u : State) (es ds : List Event) → Runs s es t → Runs t ds u
        → Runs s (es ++ ds) u }
    ensures on { (s t u : State) → LeadsTo s t → LeadsTo t u → LeadsTo s u }
    ensures split { (s u : State) (es ds : List Event) → Runs s (es ++ ds) u
        → (t : State) × Runs s es t × Runs t ds u }
    ensures matrix { (s t : State) → LeadsTo s t → t.matrix ≡ s.matrix }
{}

/// No event changes the matrix, and claims and wins do not change the base matching nor what is
/// flipped.
pub fn events_keep_the_matrix()
    ensures event { (s t : State) (e : Event) → Becomes s e t → t.matrix ≡ s.matrix }
    ensures run { (s t : State) (es : List Event) → Runs s es t → t.matrix ≡ s.matrix }
    ensures base { (s t : State) (es : List Event) → AreClaimsAndWins es → Runs s es t
        → t.base ≡ s.base }
    ensures flipped { (s t : State) (es : List Event) → AreClaimsAndWins es → Runs s es t
        → t.flipped ≡ s.flipped }
    ensures pairs { (claims wins : List (ℕ × ℕ)) → AreClaimsAndWins (claims_then_wins claims wins) }
{}

/// Whatever is matched stays matched: legal events leave no row and no column of the base matching
/// uncovered, nor does the exchange of the paths of flipped roots.
pub fn events_keep_covered()
    ensures runs { (s t : State) → IsSound s → LeadsTo s t → Covers s.base t.base }
    ensures current { (s : State) (m : List Place) → IsSound s → IsCurrent s m → Covers s.base m }
{}

/// Trees only grow by claims and wins: what is in the forest stays in it with its root, what is won
/// or used up stays so.
pub fn claims_and_wins_grow()
    ensures here { (s : State) → Grows s s }
    ensures on { (s t u : State) → Grows s t → Grows t u → Grows s u }
    ensures claim { (s t : State) (r c : ℕ) → IsLegal s (Claim r c) → Becomes s (Claim r c) t
        → Grows s t }
    ensures win { (s t : State) (x r : ℕ) → IsLegal s (Win x r) → Becomes s (Win x r) t
        → Grows s t }
    ensures runs { (s t : State) (es : List Event) → AreClaimsAndWins es → Runs s es t → Grows s t }
    ensures pairs { (s t : State) (claims wins : List (ℕ × ℕ))
        → Runs s (claims_then_wins claims wins) t → Grows s t }
{}

/// A sound forest has trees: each column in it and each claimed row has one root, and each root with
/// a leaf has a path.
pub fn sound_forests_have_trees()
    ensures { (s : State) → IsSound s → HasTrees s }
{}

/// A sound forest has one current matching, up to the order of its pairs: it is a matching of
/// entries, larger than the base by the number of flipped roots. In a run from a new forest it has
/// grown with each flip, and with no other event.
pub fn current_is_a_matching()
    ensures some { (s : State) → IsSound s → (m : List Place) × IsCurrent s m }
    ensures matching { (s : State) (m : List Place) → IsSound s → IsCurrent s m
        → IsMatching s.matrix m }
    ensures size { (s : State) (m : List Place) → IsSound s → IsCurrent s m
        → length m ≡ length s.base + length s.flipped }
    ensures grown { (a : Matrix) (m n : List Place) (es : List Event) (s : State) → IsMatching a m
        → Runs (new_forest a m) es s → IsCurrent s n → length n ≡ length m + flips es }
{}

/// Where nothing is left to be claimed and the forest is settled, the current matching is maximum,
/// and the columns in the forest are the horizontal columns, a Hall set.
pub fn done_is_maximum()
    ensures witness { (s : State) (m : List Place) (w : List ℕ) → IsSound s → IsSettled s
        → IsLegal s Done → IsCurrent s m → Lists (InForest s) w → IsWitness s.matrix m w }
    ensures base { (s : State) → IsSound s → IsSettled s → IsLegal s Done → s.flipped ≡ []
        → IsMaximum s.matrix s.base }
{}

/// A new forest is rested, and a settled forest is rested once its base matching is renewed.
pub fn forests_are_rested()
    ensures new { (a : Matrix) (m : List Place) → IsRested (new_forest a m) }
    ensures graft { (s t : State) → IsSound s → IsSettled s → Becomes s Graft t → IsRested t }
    ensures rebuild { (s t : State) → Becomes s Rebuild t → IsRested t }
{}

/// Where there are no leaves, a forest is settled exactly where no root can win one.
pub fn settled_without_wins()
    ensures { (s : State) → IsSound s → s.leaves ≡ []
        → IsSettled s ↔ ((x r : ℕ) → ¬ IsLegal s (Win x r)) }
{}

/// Claims lead to the forest with these claims more, and wins to that with these leaves more.
pub fn pairs_stand_in_their_lists()
    ensures claims { (s t : State) (ps : List Place) → Runs s (claim_events ps) t
        → t ≡ grown_by s ps [] }
    ensures wins { (s t : State) (ps : List (ℕ × ℕ)) → Runs s (win_events ps) t
        → t ≡ grown_by s [] ps }
{}

/// Claims of new rows by columns that are in the forest, and then wins of new roots, each with a
/// claimed row of its tree as leaf, are legal events in whatever order they stand.
pub fn new_pairs_run()
    ensures { (s : State) (claims : List Place) (wins : List (ℕ × ℕ)) → AreNew s.claims claims
        → ((r c : ℕ) → Among (r, c) claims → IsEntry s.matrix r c × InForest s c)
        → AreNew s.leaves wins
        → ((x r : ℕ) → Among (x, r) wins → (¬ Among x (cols_of s.base))
        × (¬ Among r (rows_of s.base)) × IsRootOfRow s.base (s.claims ++ claims) x r)
        → Runs s (claims_then_wins claims wins) (grown_by s claims wins) }
{}
