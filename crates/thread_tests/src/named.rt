//! Which entry a receipt names.
use cluster_history::{ClusterShape, HistoryName};
use node_journal::RecordedReceipt;
use obj_id::JobNo;
use std::sync::ledger::Ledger;

/// A receipt that tells which entry it names. The tests are written over any node, whose proofs take a third of the time.
pub(crate) trait Named {
    /// The node, the job, and the number of the entry.
    fn named(&self) -> (u32, JobNo, u64);
}

impl<L: Ledger + HistoryName, S: ClusterShape> Named for RecordedReceipt<L, S> {
    fn named(&self) -> (u32, JobNo, u64) {
        let receipt = self.receipt();
        (receipt.node(), receipt.job(), receipt.number())
    }
}
