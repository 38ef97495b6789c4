//! Laws on workers: what they list, step by step, and what they know.

ghost use Rattle.std.specs.Prelude.{◌≡◌, ◌↔◌, ◌⊎◌, ℕ, ◌+◌, List, [], ◌++◌, length, map};
ghost use Rattle.bip_defs.specs.Lists.{Among};
ghost use Rattle.bip_defs.specs.Occurrences.{times};
ghost use Rattle.claim_words.specs.Board.{Board};
ghost use Rattle.claim_words.specs.Listed.{nothing};
ghost use Rattle.claim_words.specs.Seat.{Seat};
ghost use Rattle.claim_words.specs.WorkerState.{AreAllWorkers, HaveGrown, WorkerState, fresh_claims_of, fresh_lists, fresh_wins_of, listed_by_workers, seated, seats_of, settled};

/// Workers that have grown have grown since any earlier time, each of two rows of workers as both
/// together. They stay as many as they were, and all workers of their board.
pub fn workers_grow()
    ensures here { (ws : List WorkerState) → HaveGrown ws ws }
    ensures on { (us vs ws : List WorkerState) → HaveGrown us vs → HaveGrown vs ws
        → HaveGrown us ws }
    ensures both { (vs ws xs ys : List WorkerState) → HaveGrown vs ws → HaveGrown xs ys
        → HaveGrown (vs ++ xs) (ws ++ ys) }
    ensures many { (vs ws : List WorkerState) → HaveGrown vs ws → length ws ≡ length vs }
    ensures all { (b : Board) (vs ws : List WorkerState) → HaveGrown vs ws → AreAllWorkers b vs
        → AreAllWorkers b ws }
{}

/// Where workers have grown, all seats together list a word more often by as much as all fresh
/// lists do.
pub fn fresh_lists_add_up()
    ensures claims { (before after : List WorkerState) (i : ℕ) → HaveGrown before after
        → times i (listed_by_workers after).claims + times i (fresh_claims_of before)
        ≡ times i (listed_by_workers before).claims + times i (fresh_claims_of after) }
    ensures wins { (before after : List WorkerState) (i : ℕ) → HaveGrown before after
        → times i (listed_by_workers after).wins + times i (fresh_wins_of before)
        ≡ times i (listed_by_workers before).wins + times i (fresh_wins_of after) }
{}

/// Where workers with empty fresh lists have grown, all seats together list what they listed before
/// and what stands in fresh lists, and nothing else.
pub fn fresh_lists_are_listed()
    ensures claims { (before after : List WorkerState) (p : ℕ × ℕ) → HaveGrown before after
        → fresh_claims_of before ≡ [] → Among p (listed_by_workers after).claims
        ↔ (Among p (listed_by_workers before).claims ⊎ Among p (fresh_claims_of after)) }
    ensures wins { (before after : List WorkerState) (p : ℕ × ℕ) → HaveGrown before after
        → fresh_wins_of before ≡ [] → Among p (listed_by_workers after).wins
        ↔ (Among p (listed_by_workers before).wins ⊎ Among p (fresh_wins_of after)) }
{}

/// The fresh lists of all workers are those of one row of workers and then those of the other;
/// workers with the same fresh lists have the same together.
pub fn fresh_lists_join()
    ensures claims { (vs ws : List WorkerState)
        → fresh_claims_of (vs ++ ws) ≡ fresh_claims_of vs ++ fresh_claims_of ws }
    ensures wins { (vs ws : List WorkerState)
        → fresh_wins_of (vs ++ ws) ≡ fresh_wins_of vs ++ fresh_wins_of ws }
    ensures same_claims { (vs ws : List WorkerState) → fresh_lists vs ≡ fresh_lists ws
        → fresh_claims_of vs ≡ fresh_claims_of ws }
    ensures same_wins { (vs ws : List WorkerState) → fresh_lists vs ≡ fresh_lists ws
        → fresh_wins_of vs ≡ fresh_wins_of ws }
{}

/// Workers that take seats have these, and workers that are settled keep theirs; their fresh lists
/// are empty.
pub fn seats_stay()
    ensures seated { (ss : List Seat) → seats_of (map seated ss) ≡ ss }
    ensures seated_claims { (ss : List Seat) → fresh_claims_of (map seated ss) ≡ [] }
    ensures seated_wins { (ss : List Seat) → fresh_wins_of (map seated ss) ≡ [] }
    ensures settled { (ws : List WorkerState) → seats_of (map settled ws) ≡ seats_of ws }
    ensures settled_claims { (ws : List WorkerState) → fresh_claims_of (map settled ws) ≡ [] }
    ensures settled_wins { (ws : List WorkerState) → fresh_wins_of (map settled ws) ≡ [] }
{}
