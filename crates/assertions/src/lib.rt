//! What a test says of values. To the prover `assert_eq!` is a match, a branch and a text wherever it stands; `same!` is two
//! calls with a clause each.
#![tactic(auto)]

ghost use Rattle.std.specs.Prelude.{◌≡◌, ◌↔◌, true, IsOk};

use std::fmt::Debug;

/// What was found in place of what was due.
#[derive(Debug, Drop)]
pub struct Difference<'a, T> {
    found: &'a T,
    due: &'a T,
}

/// Both values, unless they are the same.
pub fn same<'a, T: PartialEq + Debug>(found: &'a T, due: &'a T) -> Result<(), Difference<'a, T>>
    ensures { IsOk result ↔ (T.eq found.now due.now ≡ true) }
{
    if *found == *due {
        return Ok(());
    }
    Err(Difference { found, due })
}

/// Ends the test, and shows both values, unless they are the same.
#[macro_export]
macro_rules! same {
    ($rt:expr; $found:expr, $due:expr $(,)?) => {
        $crate::same(&$found, &$due).expect(&$rt, stringify!($found))
    };
}

/// Ends the test unless the condition is true.
#[macro_export]
macro_rules! holds {
    ($rt:expr; $condition:expr $(,)?) => {
        $crate::same(&$condition, &true).expect(&$rt, stringify!($condition))
    };
}
