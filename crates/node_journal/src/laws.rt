//! What receipts are worth. Each function does nothing; its contract is a theorem.
ghost use Rattle.std.specs.Prelude.{◌≡◌, ◌==◌};
ghost use Rattle.node_journal.specs.declared.entries.Agreement.TheVariants.{Yes};
ghost use Rattle.node_journal.specs.declared.entries.Entry.{Entry};
ghost use Rattle.node_journal.specs.Journals.{IsRooted, Journal, agreement};
ghost use Rattle.node_journal.specs.Logs.{journal_of};
ghost use Rattle.node_journal.specs.Receipts.{AnswersAgree, IsDueIn};

use crate::{Kept, Receipt};
use obj_id::JobNo;
use std::sync::ledger::Ledger;

/// Whenever a node with its journal can be seen: if the journal says Yes of a receipt, it has the receipt's entry; and the answer
/// of that is the one, without contents, that the job's private store gives after the inputs that the journal holds up to there: to an
/// input what its step is answered, to a Take the first work that isn't taken, or that there is none, and to a Finish or a message
/// `Stale` exactly if no such work is taken or the store isn't live.
pub fn what_agrees_is_due<L: Ledger>(kept: &Kept<L>, receipt: &Receipt<L>)
    ensures { agreement (receipt.now.node == kept.now.number) receipt.now.entry (journal_of kept.now.logs receipt.now.job.0) ≡ Yes → ∥ IsDueIn (journal_of kept.now.logs receipt.now.job.0) receipt.now.entry ∥₁ }
{}

/// Whenever a node with its journal can be seen: inputs of the job lead from its beginning to the store that its journal begins with, and each
/// has the reply that the private store gives it, without contents. So what the law above says of the private store on the journal's inputs it
/// says of that on all inputs of the job.
pub fn a_journal_is_rooted<L: Ledger>(kept: &Kept<L>, job: JobNo)
    ensures { ∥ IsRooted job.0 (journal_of kept.now.logs job.0).base.store ∥₁ }
{}

/// If two journals of a job begin with the same store and hold the same inputs before an entry each, and the entries are of the
/// same input, their answers are the same, without contents: what neighbours did in between doesn't show.
pub fn equal_inputs_have_equal_answers()
    ensures { (first second : Journal) (a b : Entry) → AnswersAgree first second a b }
{}
