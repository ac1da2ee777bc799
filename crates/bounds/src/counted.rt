// A number and a count, as C sees them: what prune and count answer.
ghost use Rattle.std.specs.Prelude.{◌≡◌};
ghost use Rattle.refusals.specs.Numbers.{asked_number};
ghost use Rattle.bounds.specs.Pruning.{pruning_number, pruning_count, counting_count};

use crate::prune::NotPruned;
use refusals::Refusal;

#[repr(C)]
#[derive(Clone, Copy, Debug, PartialEq, Eq)]
pub struct Counted {
    pub number: u32,
    pub count: u32,
}

// What prune answers.
impl From<Result<u32, NotPruned>> for Counted {
    ghost from_gives = { λ pruned counted. (counted.number ≡ pruning_number pruned) × (counted.count ≡ pruning_count pruned) };

    fn from(pruned: Result<u32, NotPruned>) -> Counted {
        match pruned {
            Ok(count) => Counted { number: 0, count },
            Err(NotPruned::NoGrid) => Counted {
                number: 102,
                count: 0,
            },
            Err(NotPruned::Refused(refusal)) => Counted {
                number: refusal.into(),
                count: 0,
            },
        }
    }
}

// What count answers.
impl From<Result<u32, Refusal>> for Counted {
    ghost from_gives = { λ found counted. (counted.number ≡ asked_number found) × (counted.count ≡ counting_count found) };

    fn from(found: Result<u32, Refusal>) -> Counted {
        match found {
            Ok(count) => Counted { number: 0, count },
            Err(refusal) => Counted {
                number: refusal.into(),
                count: 0,
            },
        }
    }
}
