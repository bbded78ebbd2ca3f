//! What is said of two histories.
ghost use Rattle.cluster_history.specs.Histories.{EqualInputsHaveEqualReplies};

/// Two clusters whose histories agree for a job gave it equal replies.
pub fn equal_inputs_have_equal_replies()
    ensures { EqualInputsHaveEqualReplies }
{}
