//! Why a call on a strike layer was refused: one case for each refusal, and its number.
ghost use Rattle.std.specs.Prelude.{◌≡◌};
ghost use Rattle.pile.specs.Refusals.{restore_notice, strike_notice};

use schema::faults::Notice;
use thiserror::Error;

/// Why a row was not struck.
#[derive(Clone, Copy, PartialEq, Eq, Debug, Error)]
pub enum StrikeFault {
    #[error("there is no such row below")]
    NoSuchRow,
    #[error("the row is struck already")]
    StruckAlready,
    #[error("32 rows are struck")]
    TooManyStruck,
}

/// Why a row was not restored.
#[derive(Clone, Copy, PartialEq, Eq, Debug, Error)]
pub enum RestoreFault {
    #[error("the row is not struck")]
    NotStruck,
}

impl From<StrikeFault> for Notice {
    ghost from_gives = { λ x r. r ≡ strike_notice x };

    fn from(fault: StrikeFault) -> Notice {
        match fault {
            StrikeFault::NoSuchRow => Notice::bare(4),
            StrikeFault::StruckAlready => Notice::bare(5),
            StrikeFault::TooManyStruck => Notice::bare(6),
        }
    }
}

impl From<RestoreFault> for Notice {
    ghost from_gives = { λ x r. r ≡ restore_notice x };

    fn from(fault: RestoreFault) -> Notice {
        match fault {
            RestoreFault::NotStruck => Notice::bare(7),
        }
    }
}
