//! Messages that know where they stand in the history of their cluster.
ghost use Rattle.std.specs.Prelude.{◌≡◌};
ghost use Rattle.cluster_history.specs.Sending.{IsSentBy};

use crate::posts::{Mail, Posted};
use cluster_history::{ClusterShape, HistoryName, Sight};
use std::marker::Model;
use std::snapshot::Snapshot;
use std::sync::ledger::Ledger;

/// What a step sends, message by message, with the history up to that step. Contracts see the mail, that history, and how many messages
/// were given out.
pub struct RecordedMail<L: Ledger + HistoryName, S: ClusterShape> {
    pub(crate) mail: Mail<L>,
    pub(crate) sight: Sight<L, S>,
    pub(crate) given: usize,
    pub(crate) all: usize,
}

impl<L: Ledger + HistoryName, S: ClusterShape> Model for RecordedMail<L, S> {
    ghost use Rattle.std.specs.Prelude.{◌≤◌, ◌+◌, ℕ, List};
    ghost use Rattle.std.specs.Vec.Iter.{into_iter_len};
    ghost use Rattle.obj_id.specs.declared.messages.Endpoint.TheVariants as place;
    ghost use Rattle.private_store.specs.declared.schedules.Traced.{Traced};
    ghost use Rattle.cluster_history.specs.Sending.{IsMailOf};
    ghost use Rattle.node_journal.specs.declared.posts.Mail.{Mail};
    ghost use Rattle.node_journal.specs.Posts.{posts_left};

    ghost Value = { Mail L × (List Traced × ℕ) };

    ghost view = { λ m. (m.mail, (m.sight, m.given)) };

    ghost invariant = { λ m. ∥ IsMailOf S.nodes m.mail.job.0 (place.Node m.mail.node) m.sight m.given (posts_left m.mail) ∥₁ × (m.given + into_iter_len m.mail.rest ≤ m.all) };
}

// By hand, so that it is proved here and not in each crate above.
impl<L: Ledger + HistoryName, S: ClusterShape> Drop for RecordedMail<L, S> {
    fn drop(self) {
        let RecordedMail {
            mail: _mail,
            sight: _sight,
            given: _,
            all: _,
        } = self;
    }
}

/// Gives each message once, in order. Takes no memory.
impl<L: Ledger + HistoryName, S: ClusterShape> Iterator for RecordedMail<L, S> {
    ghost use Rattle.std.specs.Prelude.{option_map};
    ghost use Rattle.std.specs.Iterator.{at_most};
    ghost use Rattle.std.specs.Vec.Iter.{into_iter_len};
    ghost use Rattle.node_journal.specs.Posts.{DeliversPost};

    type Item = RecordedPosted<L, S>;

    ghost next_gives = { λ old response new. DeliversPost old.0 (option_map (λ p. p.0) response) new.0 };

    ghost remaining = { λ mail. at_most (into_iter_len mail.0.rest) };

    fn next(&mut self) -> Option<RecordedPosted<L, S>> {
        let RecordedMail {
            mail,
            sight,
            given,
            all: _,
        } = self;
        let posted = mail.next()?;
        let index = Snapshot::of(&*given);
        *given += 1;
        Some(RecordedPosted {
            posted,
            sight: sight.again(),
            index,
        })
    }
}

/// A message on its way, with the history up to the step that sent it. Contracts see the message, that history, and how many of that
/// step's messages came before it.
pub struct RecordedPosted<L: Ledger + HistoryName, S: ClusterShape> {
    pub(crate) posted: Posted<L>,
    pub(crate) sight: Sight<L, S>,
    pub(crate) index: Snapshot<usize>,
}

impl<L: Ledger + HistoryName, S: ClusterShape> Model for RecordedPosted<L, S> {
    ghost use Rattle.std.specs.Prelude.{ℕ, List};
    ghost use Rattle.private_store.specs.declared.schedules.Traced.{Traced};
    ghost use Rattle.cluster_history.specs.Sending.{IsSentBy};
    ghost use Rattle.node_journal.specs.declared.posts.Posted.{Posted};

    ghost Value = { Posted L × (List Traced × ℕ) };

    ghost view = { λ p. (p.posted, (p.sight, p.index.value)) };

    ghost invariant = { λ p. ∥ IsSentBy S.nodes p.posted.job.0 p.posted.from p.posted.to p.posted.message p.sight p.index.value ∥₁ };
}

// By hand, so that it is proved here and not in each crate above.
impl<L: Ledger + HistoryName, S: ClusterShape> Drop for RecordedPosted<L, S> {
    fn drop(self) {
        let RecordedPosted {
            posted: _posted,
            sight: _sight,
            index: _index,
        } = self;
    }
}

impl<L: Ledger + HistoryName, S: ClusterShape> RecordedPosted<L, S> {
    /// The message, the history up to the step that sent it, and how many of that step's messages came before it.
    pub(crate) fn into_parts(self) -> (Posted<L>, (Sight<L, S>, Snapshot<usize>))
        ensures parts { (result.0 ≡ self.0) × ((result.1.0 ≡ self.1.0) × (result.1.1.value ≡ self.1.1)) }
        ensures sent { ∥ IsSentBy S.nodes result.0.job.0 result.0.from result.0.to result.0.message result.1.0 result.1.1.value ∥₁ }
    {
        let RecordedPosted {
            posted,
            sight,
            index,
        } = self;
        (posted, (sight, index))
    }
}
