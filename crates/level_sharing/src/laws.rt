//! Laws on boards and workers that agree with a forest, and on shares.

ghost use Rattle.std.specs.Prelude.{◌≡◌, ℕ, ◌<◌, ◌≤◌, List, ◌++◌, length, map};
ghost use Rattle.bip_defs.specs.Lists.{Among};
ghost use Rattle.claim_words.specs.Board.{Board, Words};
ghost use Rattle.claim_words.specs.Seat.{new_seats};
ghost use Rattle.claim_words.specs.Settles.{SettlesAll};
ghost use Rattle.claim_words.specs.WorkerState.{HaveGrown, WorkerState, fresh_claims_of, fresh_wins_of, seated, seats_of, settled};
ghost use Rattle.level_sharing.specs.Agreement.{Agree, HaveFresh, HoldThese, ListThese, Shows};
ghost use Rattle.level_sharing.specs.Shares.{share_of};

use claim_words::{
    fresh_lists_add_up, fresh_lists_are_listed, listed_words_stand, new_seats_are_all, seats_stay,
    times_add_up, workers_grow,
};

/// Board and workers agreed with a forest, and since then the workers have listed more. Then the
/// fresh claims are of rows that were unclaimed, each once, the fresh wins of roots without a leaf,
/// each once, and the words hold the old claims and leaves with the fresh ones and nothing else.
pub fn fresh_lists_are_new()
    ensures { (b : Board) (words : Words) (before after : List WorkerState)
        (claims leaves : List (ℕ × ℕ)) → Agree b before claims leaves → HaveGrown before after
        → SettlesAll b words (seats_of after) → HaveFresh words after claims leaves }
{
    listed_words_stand();
    times_add_up();
    fresh_lists_add_up();
    fresh_lists_are_listed();
}

/// Board and workers agreed with a forest, and since then the workers have listed more, by whatever
/// steps. Then they list the claims and the leaves that there were with the fresh ones: no seats
/// need be gathered for that.
pub fn fresh_lists_are_added()
    ensures { (b : Board) (before after : List WorkerState) (claims leaves : List (ℕ × ℕ))
        → Agree b before claims leaves → HaveGrown before after
        → ListThese b after (claims ++ fresh_claims_of after) (leaves ++ fresh_wins_of after) }
{
    workers_grow();
    fresh_lists_are_listed();
}

/// Workers that list the claims and the leaves of a forest agree with it once they are settled, and
/// so do workers that show them, since they list them.
pub fn settled_workers_agree()
    ensures listed { (b : Board) (ws : List WorkerState) (claims leaves : List (ℕ × ℕ))
        → ListThese b ws claims leaves → Agree b (map settled ws) claims leaves }
    ensures shown { (b : Board) (ws : List WorkerState) (claims leaves : List (ℕ × ℕ))
        → Shows b ws claims leaves → ListThese b ws claims leaves }
{
    listed_words_stand();
    seats_stay();
}

/// New workers agree with a forest, each on a new seat of a board that was opened with the claims
/// and the leaves of the forest. They are as many as the seats.
pub fn new_workers_agree()
    ensures agree { (b : Board) (seats : ℕ) (claims leaves : List (ℕ × ℕ)) → 1 ≤ seats
        → HoldThese claims b.rows → HoldThese leaves b.roots
        → Agree b (map seated (new_seats b seats)) claims leaves }
    ensures many { (b : Board) (seats : ℕ) → length (map seated (new_seats b seats)) ≡ seats }
{
    new_seats_are_all();
    seats_stay();
}

/// The shares of so many workers cover a list, and have nothing else.
pub fn shares_cover_a_list()
    ensures cover { (xs : List ℕ) (workers x : ℕ) → 0 < workers → Among x xs
        → (i : ℕ) × (i < workers) × Among x (share_of xs workers i) }
    ensures within { (xs : List ℕ) (workers i x : ℕ)
        → Among x (share_of xs workers i) → Among x xs }
{}
