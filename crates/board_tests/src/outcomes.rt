//! What several tests ask: who came to a gate, and what a worker lists.

use claim_words::Worker;
use sp_ids::{Col, Row};
use sp_ports::MeetGate;
use std::process::Abort;
use test_gates::BarrierGate;

/// Each of the two workers came once, and neither waited in vain.
pub(crate) fn both_have_met<R: Abort>(rt: &R, gate: &MeetGate) {
    assert_eq!(rt; (gate.arrivals(0), gate.arrivals(1)), (1, 1));
    assert!(rt; !gate.ran_out());
}

/// So many workers came once each and nobody else did, and none of them waited in vain.
pub(crate) fn have_come_once<R: Abort>(rt: &R, gate: &BarrierGate, workers: u32) {
    assert!(rt; gate.have_arrived(workers, 1) && !gate.ran_out());
}

/// A worker has claimed and won this since it was settled.
pub(crate) fn has_fresh_lists<R: Abort>(
    rt: &R,
    worker: &Worker,
    claims: &[(Row, Col)],
    wins: &[(Col, Row)],
) {
    assert_eq!(rt; worker.fresh_claims(), claims);
    assert_eq!(rt; worker.fresh_wins(), wins);
}
