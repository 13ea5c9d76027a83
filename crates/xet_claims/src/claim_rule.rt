//! The rule of the two words of a `Claims`, and what each step of a pass tells.
ghost use Rattle.xet_claims.specs.ClaimViews.{newcomer};
ghost use Rattle.xet_claims.specs.steps.PoolRule.{Kept, Draws, Halts, Looks, lighter, apart, gathered, spent};

use atomic_table::{Join, Play, Split, TableRule};
use std::collections::LinkedList;

/// How many numbers there are, and how many passes. The table keeps both for good.
#[derive(Clone, Copy)]
pub struct Limits {
    /// Numbers from 0 to before this one are drawn.
    pub count: u64,
    /// How many passes draw them.
    pub passes: u32,
}

/// What a pass knows. Only contracts read it, and no value of it is made.
pub struct View {
    /// The numbers that it drew, in their order.
    pub drawn: LinkedList<u64>,
    /// How often it drew none.
    pub misses: u64,
    /// How many passes it stands for: 1, for a pass that is handed out.
    pub weight: u64,
    /// Whether it saw or set the mark.
    pub stopped: bool,
    /// Whether it set the mark.
    pub raised: bool,
    /// How many numbers there are.
    pub count: u64,
}

/// The rule of the two words.
pub struct Pool;

impl TableRule<(), View, Limits> for Pool {
    ghost holds = { Kept };

    ghost first = { λ l. newcomer l.passes l.count };
}

/// A number is drawn, by one `fetch_add` on the first word.
pub(crate) struct Draw;

impl Play<(), View> for Draw {
    ghost then = { Draws };
}

/// The mark is set, by a store into the second word.
pub(crate) struct Stop;

impl Play<(), View> for Stop {
    ghost then = { Halts };
}

/// The mark is looked at, by a load of the second word.
pub(crate) struct Look;

impl Play<(), View> for Look {
    ghost then = { Looks };
}

/// One of a view's weight becomes a view of its own.
pub(crate) struct One;

impl Split<View> for One {
    ghost left = { lighter };

    ghost right = { apart };
}

/// Two views become one.
pub(crate) struct Both;

impl Join<View> for Both {
    ghost both = { gathered };

    ghost spent = { spent };
}
