//! The rule of a link, in the words of a channel under a rule: what its passes know, and what each step tells them.
use crossbeam_channel::protocol::{Join, Lesson, Outcome, Protocol, Split};
use std::collections::LinkedList;

/// The most messages that a link holds.
pub const MOST_IN_FLIGHT: usize = 1024;

/// What a pass knows, which is nothing of what it doesn't do. No value of it is made.
pub struct Known<M> {
    pub sends: bool,
    pub receives: bool,
    pub accepted: LinkedList<M>,
    pub received: LinkedList<M>,
}

/// Messages leave in the order in which they came, and are few.
pub struct InOrder;

impl<M> Protocol<M, Known<M>> for InOrder {
    ghost use Rattle.std.specs.Prelude.{true, []};
    ghost use Rattle.fetch_link.specs.Rule.{known, IsInOrder};

    ghost holds = { λ items views. IsInOrder items views };

    ghost first = { known true true [] [] };
}

/// The first pass is cut in two, one for each end, and the two become one again.
pub struct Roles;

impl<M> Split<Known<M>> for Roles {
    ghost use Rattle.std.specs.Prelude.{true, false, []};
    ghost use Rattle.fetch_link.specs.Rule.{known};

    ghost left = { λ k. known true false k.accepted [] };

    ghost right = { λ k. known false true [] k.received };
}

impl<M> Join<Known<M>> for Roles {
    ghost use Rattle.std.specs.Prelude.{true, false, []};
    ghost use Rattle.fetch_link.specs.Rule.{known};

    ghost both = { λ sender receiver. known true true sender.accepted receiver.received };

    ghost spent = { known false false [] [] };
}

/// A message is accepted after those before it. If there is no room, the last ones that were accepted fill the link.
pub struct Accepts;

impl<M> Outcome<M, Known<M>> for Accepts {
    ghost use Rattle.std.specs.Prelude.{[], ◌∷◌, ◌++◌, ◌≡◌};
    ghost use Rattle.fetch_link.specs.Rule.{known};

    ghost then = { λ k message after. after ≡ known k.sends k.receives (k.accepted ++ message ∷ []) k.received };
}

impl<M> Lesson<M, Known<M>> for Accepts {
    ghost use Rattle.fetch_link.specs.Rule.{EndsWith};

    ghost fact = { λ k items. EndsWith k.accepted items };
}

/// A message is received after those before it. That there is none tells the receiver nothing, as it doesn't know what was
/// accepted.
pub struct Receives;

impl<M> Outcome<M, Known<M>> for Receives {
    ghost use Rattle.std.specs.Prelude.{[], ◌∷◌, ◌++◌, ◌≡◌};
    ghost use Rattle.fetch_link.specs.Rule.{known};

    ghost then = { λ k message after. after ≡ known k.sends k.receives k.accepted (k.received ++ message ∷ []) };
}

impl<M> Lesson<M, Known<M>> for Receives {
    ghost use Rattle.std.specs.Prelude.{⊤};

    ghost fact = { λ _ _. ⊤ };
}

/// What a pass learns that sends and receives.
pub struct Whole;

impl<M> Lesson<M, Known<M>> for Whole {
    ghost use Rattle.std.specs.Prelude.{◌≡◌, ◌≤◌, ◌++◌, length};
    ghost use Rattle.fetch_link.specs.declared.rule.TheConstants.{MOST_IN_FLIGHT};

    ghost fact = { λ k items. (k.accepted ≡ k.received ++ items) × (length items ≤ MOST_IN_FLIGHT) };
}
