// The rule that the queue keeps, and the moves under it.
ghost use Rattle.std.specs.Prelude.{◌≡◌};
ghost use Rattle.work_queue.specs.Accounts.{whole, spent, one_share, one_share_less, joined, with_put, with_got, Balanced, MayHold};

use crate::account::Account;
use crossbeam_queue::protocol::{Join, Lesson, Outcome, Protocol, Split};

// What was put is what was got and what the queue holds.
pub struct Even;

impl<J> Protocol<J, Account<J>> for Even {
    ghost holds = { λ jobs accounts. Balanced jobs accounts };

    ghost first = { whole };
}

// A new pass gets one share.
pub struct Cut;

impl<J> Split<Account<J>> for Cut {
    ghost left = { λ account. one_share_less account };

    ghost right = { λ _. one_share };
}

impl<J> Join<Account<J>> for Cut {
    ghost both = { λ account other. joined account other };

    ghost spent = { spent };
}

pub struct Puts;

impl<J> Outcome<J, Account<J>> for Puts {
    ghost then = { λ old job new. new ≡ with_put old job };
}

pub struct Gets;

impl<J> Outcome<J, Account<J>> for Gets {
    ghost then = { λ old job new. new ≡ with_got old job };
}

// What the whole account tells of the jobs that are in the queue.
impl<J> Lesson<J, Account<J>> for Puts {
    ghost fact = { λ account jobs. MayHold account jobs };
}

impl<J> Lesson<J, Account<J>> for Gets {
    ghost fact = { λ account jobs. MayHold account jobs };
}
