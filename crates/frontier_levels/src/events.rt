//! The events of a level, made on the forest.

ghost use Rattle.std.specs.Prelude.{◌≡◌, ℕ, List, ◌++◌, map};
ghost use Rattle.claim_words.specs.Board.{Board};
ghost use Rattle.claim_words.specs.WorkerState.{fresh_claims_of, fresh_wins_of, settled};
ghost use Rattle.forest_core.specs.Events.{Grows, Runs};
ghost use Rattle.forest_core.specs.Growing.{GrowsOn};
ghost use Rattle.level_sharing.specs.Agreement.{Agree, ListThese, Shows};
ghost use Rattle.level_sharing.specs.Growth.{fresh_events, grown};
ghost use Rattle.sp_ids.specs.Events.{claim_events, win_events};

use claim_words::Worker;
use forest_core::{Forest, claims_and_wins_grow};
use level_sharing::settled_workers_agree;
use sp_ids::{Col, Row};

/// Makes the workers' fresh claims on the forest, in the order of workers, and then their fresh
/// wins, by which it grows, and settles the workers. If board and workers listed the claims and the
/// leaves of the forest afterwards, as they do after a level, and also after a caller's own claims
/// and wins, they agree with it.
///
/// Takes no memory. Work: constant for each fresh claim and win.
pub fn absorb(forest: &mut Forest, workers: &mut [Worker])
    requires { Runs forest.old (fresh_events workers.old) (grown forest.old workers.old) }
    ensures forest { forest.new ≡ grown forest.old workers.old }
    ensures workers { workers.new ≡ map settled workers.old }
    ensures grown { Grows forest.old forest.new }
    ensures on { GrowsOn forest.old forest.new }
    ensures agree { (b : Board) → Shows b workers.old forest.new.claims forest.new.leaves
        → Agree b workers.new forest.new.claims forest.new.leaves }
    ensures listed { (b : Board) → ListThese b workers.old forest.new.claims forest.new.leaves
        → Agree b workers.new forest.new.claims forest.new.leaves }
{
    claims_and_wins_grow();
    make_claims(forest, workers);
    make_wins(forest, workers);
    settle(workers);
}

// Makes the fresh claims of these workers.
fn make_claims(forest: &mut Forest, workers: &[Worker])
    requires { Runs forest.old (claim_events (fresh_claims_of workers.now))
        (record forest.old { claims = forest.old.claims ++ fresh_claims_of workers.now }) }
    ensures { forest.new
        ≡ record forest.old { claims = forest.old.claims ++ fresh_claims_of workers.now } }
{
    for worker in workers {
        make_claims_of(forest, worker.fresh_claims());
    }
}

// Makes these claims.
fn make_claims_of(forest: &mut Forest, claims: &[(Row, Col)])
    requires { Runs forest.old (claim_events claims.now)
        (record forest.old { claims = forest.old.claims ++ claims.now }) }
    ensures { forest.new ≡ record forest.old { claims = forest.old.claims ++ claims.now } }
{
    for claim in claims {
        let (row, col) = *claim;
        forest.claim(row, col);
    }
}

// Makes the fresh wins of these workers.
fn make_wins(forest: &mut Forest, workers: &[Worker])
    requires { Runs forest.old (win_events (fresh_wins_of workers.now))
        (record forest.old { leaves = forest.old.leaves ++ fresh_wins_of workers.now }) }
    ensures { forest.new
        ≡ record forest.old { leaves = forest.old.leaves ++ fresh_wins_of workers.now } }
{
    for worker in workers {
        make_wins_of(forest, worker.fresh_wins());
    }
}

// Makes these wins.
fn make_wins_of(forest: &mut Forest, wins: &[(Col, Row)])
    requires { Runs forest.old (win_events wins.now)
        (record forest.old { leaves = forest.old.leaves ++ wins.now }) }
    ensures { forest.new ≡ record forest.old { leaves = forest.old.leaves ++ wins.now } }
{
    for win in wins {
        let (root, leaf) = *win;
        forest.win(root, leaf);
    }
}

// Settles each worker. Workers that show or list the claims and the leaves of a forest agree with
// it then.
fn settle(workers: &mut [Worker])
    ensures workers { workers.new ≡ map settled workers.old }
    ensures agree { (b : Board) (claims leaves : List (ℕ × ℕ)) → Shows b workers.old claims leaves
        → Agree b workers.new claims leaves }
    ensures listed { (b : Board) (claims leaves : List (ℕ × ℕ))
        → ListThese b workers.old claims leaves → Agree b workers.new claims leaves }
{
    settled_workers_agree();
    for worker in workers.iter_mut() {
        worker.settle();
    }
}
