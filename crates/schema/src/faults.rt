//! Why a call was refused: one case for each refusal, its number, and the places it names.
ghost use Rattle.std.specs.Prelude.{◌≡◌};
ghost use Rattle.schema.specs.Refusals.{set_up_notice, enter_notice, amend_notice, line_notice, text_notice, load_notice, sheet_notice, check_notice, verdict_notice, question_notice, report_notice, print_notice, reprint_notice};
ghost use Rattle.schema.specs.declared.faults.LineFault.TheVariants.{Form};
ghost use Rattle.schema.specs.declared.faults.TextFault.TheVariants.{Line};
ghost use Rattle.schema.specs.declared.faults.LoadFault.TheVariants.{Text};
ghost use Rattle.schema.specs.declared.faults.CheckFault.TheVariants.{Sheet};
ghost use Rattle.schema.specs.declared.faults.VerdictFault.TheVariants.{Check};
ghost use Rattle.schema.specs.declared.faults.PrintFault.TheVariants.{Sheet as Unprinted};
ghost use Rattle.schema.specs.declared.faults.ReprintFault.TheVariants.{Text as Unread};
ghost use Rattle.schema.specs.declared.faults.QuestionFault.TheVariants.{Check as QuestionCheck};

use thiserror::Error;

/// A refusal's number and the two places that it names, 0 where it has none.
#[derive(Clone, Copy, PartialEq, Eq, Debug)]
pub struct Notice {
    pub number: u16,
    pub first: u16,
    pub second: u16,
}

impl Notice {
    /// A refusal that names no place.
    pub fn bare(number: u16) -> Notice
        ensures { result ≡ record { number = number; first = 0; second = 0 } }
    {
        Notice {
            number,
            first: 0,
            second: 0,
        }
    }
}

/// Why a book was not set up.
#[derive(Clone, Copy, PartialEq, Eq, Debug, Error)]
pub enum SetUpFault {
    #[error("more than 64 classes or 32 arrows")]
    TooMany,
}

/// Why a row was not entered.
#[derive(Clone, Copy, PartialEq, Eq, Debug, Error)]
pub enum EnterFault {
    #[error("the part is full")]
    Full,
}

/// Why a row was not amended.
#[derive(Clone, Copy, PartialEq, Eq, Debug, Error)]
pub enum AmendFault {
    #[error("there is no such row")]
    NoRow,
}

/// Where a line is out of form: the first column at which no well-formed line begins alike.
#[derive(Clone, Copy, PartialEq, Eq, Debug, Error)]
#[error("line {line}, column {column} is out of form")]
pub struct ColumnFault {
    pub line: u16,
    pub column: u16,
}

/// What is wrong with one line of a text.
#[derive(Clone, Copy, PartialEq, Eq, Debug, Error)]
pub enum LineFault {
    #[error(transparent)]
    Form(ColumnFault),
    #[error("line {line}, field {field} is unsound")]
    UnsoundLine { line: u16, field: u16 },
}

/// What is wrong with a text.
#[derive(Clone, Copy, PartialEq, Eq, Debug, Error)]
pub enum TextFault {
    #[error("the text is shorter than a line")]
    TooShort,
    #[error(transparent)]
    Line(LineFault),
    #[error("the text has more than 64 classes, 32 arrows or 512 rows")]
    TooLarge,
    #[error("the text is not as long as its first line says")]
    WrongLength,
}

/// Why a text was not loaded into a sheet.
#[derive(Clone, Copy, PartialEq, Eq, Debug, Error)]
pub enum LoadFault {
    #[error(transparent)]
    Text(TextFault),
    #[error("the text has more classes or arrows than the part")]
    MoreNames,
    #[error("the rows do not fit")]
    NoRoom,
}

/// Why a sheet has no text: it is too large, or a row is unsound.
#[derive(Clone, Copy, PartialEq, Eq, Debug, Error)]
pub enum SheetFault {
    #[error("more than 64 classes, 32 arrows or 512 rows")]
    OverLimits,
    #[error("row {row}, field {field} is unsound")]
    UnsoundRow { row: u16, field: u16 },
}

/// Why the rows of a sheet cannot be judged.
#[derive(Clone, Copy, PartialEq, Eq, Debug, Error)]
pub enum CheckFault {
    #[error(transparent)]
    Sheet(SheetFault),
    #[error("row {row} caps an arrow that another leads to")]
    Capped { row: u16 },
}

/// Why a verdict was refused.
#[derive(Clone, Copy, PartialEq, Eq, Debug, Error)]
pub enum VerdictFault {
    #[error(transparent)]
    Check(CheckFault),
    #[error("the table is too short")]
    ShortTable,
}

/// Why a question was refused.
#[derive(Clone, Copy, PartialEq, Eq, Debug, Error)]
pub enum QuestionFault {
    #[error(transparent)]
    Check(CheckFault),
    #[error("field {field} of the asked row is unsound")]
    UnsoundAsked { field: u16 },
    #[error("an asked count on an arrow that another leads to")]
    Uncounted,
}

/// Why a report was not written.
#[derive(Clone, Copy, PartialEq, Eq, Debug, Error)]
pub enum ReportFault {
    #[error("the buffer is too short")]
    ShortBuffer,
}

/// Why a sheet was not printed.
#[derive(Clone, Copy, PartialEq, Eq, Debug, Error)]
pub enum PrintFault {
    #[error(transparent)]
    Sheet(SheetFault),
    #[error("the buffer is too short")]
    ShortBuffer,
}

/// Why a text was not read and printed again.
#[derive(Clone, Copy, PartialEq, Eq, Debug, Error)]
pub enum ReprintFault {
    #[error(transparent)]
    Text(TextFault),
    #[error("the buffer is too short")]
    ShortBuffer,
}

// From one fault to another by hand, ten times, since `#[from]` states no `from_gives` and the callers' contracts name the fault.
impl From<ColumnFault> for LineFault {
    ghost from_gives = { λ x r. r ≡ Form x };

    fn from(fault: ColumnFault) -> LineFault {
        LineFault::Form(fault)
    }
}

impl From<LineFault> for TextFault {
    ghost from_gives = { λ x r. r ≡ Line x };

    fn from(fault: LineFault) -> TextFault {
        TextFault::Line(fault)
    }
}

impl From<TextFault> for LoadFault {
    ghost from_gives = { λ x r. r ≡ Text x };

    fn from(fault: TextFault) -> LoadFault {
        LoadFault::Text(fault)
    }
}

impl From<SheetFault> for CheckFault {
    ghost from_gives = { λ x r. r ≡ Sheet x };

    fn from(fault: SheetFault) -> CheckFault {
        CheckFault::Sheet(fault)
    }
}

impl From<SheetFault> for VerdictFault {
    ghost from_gives = { λ x r. r ≡ Check (Sheet x) };

    fn from(fault: SheetFault) -> VerdictFault {
        VerdictFault::Check(CheckFault::Sheet(fault))
    }
}

impl From<CheckFault> for VerdictFault {
    ghost from_gives = { λ x r. r ≡ Check x };

    fn from(fault: CheckFault) -> VerdictFault {
        VerdictFault::Check(fault)
    }
}

impl From<SheetFault> for PrintFault {
    ghost from_gives = { λ x r. r ≡ Unprinted x };

    fn from(fault: SheetFault) -> PrintFault {
        PrintFault::Sheet(fault)
    }
}

impl From<TextFault> for ReprintFault {
    ghost from_gives = { λ x r. r ≡ Unread x };

    fn from(fault: TextFault) -> ReprintFault {
        ReprintFault::Text(fault)
    }
}

impl From<SheetFault> for QuestionFault {
    ghost from_gives = { λ x r. r ≡ QuestionCheck (Sheet x) };

    fn from(fault: SheetFault) -> QuestionFault {
        QuestionFault::Check(CheckFault::Sheet(fault))
    }
}

impl From<CheckFault> for QuestionFault {
    ghost from_gives = { λ x r. r ≡ QuestionCheck x };

    fn from(fault: CheckFault) -> QuestionFault {
        QuestionFault::Check(fault)
    }
}

impl From<SetUpFault> for Notice {
    ghost from_gives = { λ x r. r ≡ set_up_notice x };

    fn from(fault: SetUpFault) -> Notice {
        match fault {
            SetUpFault::TooMany => Notice::bare(1),
        }
    }
}

impl From<EnterFault> for Notice {
    ghost from_gives = { λ x r. r ≡ enter_notice x };

    fn from(fault: EnterFault) -> Notice {
        match fault {
            EnterFault::Full => Notice::bare(2),
        }
    }
}

impl From<AmendFault> for Notice {
    ghost from_gives = { λ x r. r ≡ amend_notice x };

    fn from(fault: AmendFault) -> Notice {
        match fault {
            AmendFault::NoRow => Notice::bare(3),
        }
    }
}

impl From<LineFault> for Notice {
    ghost from_gives = { λ x r. r ≡ line_notice x };

    fn from(fault: LineFault) -> Notice {
        match fault {
            LineFault::Form(fault) => Notice {
                number: 9,
                first: fault.line,
                second: fault.column,
            },
            LineFault::UnsoundLine { line, field } => Notice {
                number: 12,
                first: line,
                second: field,
            },
        }
    }
}

impl From<TextFault> for Notice {
    ghost from_gives = { λ x r. r ≡ text_notice x };

    fn from(fault: TextFault) -> Notice {
        match fault {
            TextFault::TooShort => Notice::bare(8),
            TextFault::Line(fault) => Notice::from(fault),
            TextFault::TooLarge => Notice::bare(10),
            TextFault::WrongLength => Notice::bare(11),
        }
    }
}

impl From<LoadFault> for Notice {
    ghost from_gives = { λ x r. r ≡ load_notice x };

    fn from(fault: LoadFault) -> Notice {
        match fault {
            LoadFault::Text(fault) => Notice::from(fault),
            LoadFault::MoreNames => Notice::bare(13),
            LoadFault::NoRoom => Notice::bare(14),
        }
    }
}

impl From<SheetFault> for Notice {
    ghost from_gives = { λ x r. r ≡ sheet_notice x };

    fn from(fault: SheetFault) -> Notice {
        match fault {
            SheetFault::OverLimits => Notice::bare(15),
            SheetFault::UnsoundRow { row, field } => Notice {
                number: 16,
                first: row,
                second: field,
            },
        }
    }
}

impl From<CheckFault> for Notice {
    ghost from_gives = { λ x r. r ≡ check_notice x };

    fn from(fault: CheckFault) -> Notice {
        match fault {
            CheckFault::Sheet(fault) => Notice::from(fault),
            CheckFault::Capped { row } => Notice {
                number: 17,
                first: row,
                second: 0,
            },
        }
    }
}

impl From<VerdictFault> for Notice {
    ghost from_gives = { λ x r. r ≡ verdict_notice x };

    fn from(fault: VerdictFault) -> Notice {
        match fault {
            VerdictFault::Check(fault) => Notice::from(fault),
            VerdictFault::ShortTable => Notice::bare(18),
        }
    }
}

impl From<QuestionFault> for Notice {
    ghost from_gives = { λ x r. r ≡ question_notice x };

    fn from(fault: QuestionFault) -> Notice {
        match fault {
            QuestionFault::Check(fault) => Notice::from(fault),
            QuestionFault::UnsoundAsked { field } => Notice {
                number: 19,
                first: field,
                second: 0,
            },
            QuestionFault::Uncounted => Notice::bare(20),
        }
    }
}

impl From<ReportFault> for Notice {
    ghost from_gives = { λ x r. r ≡ report_notice x };

    fn from(fault: ReportFault) -> Notice {
        match fault {
            ReportFault::ShortBuffer => Notice::bare(21),
        }
    }
}

impl From<PrintFault> for Notice {
    ghost from_gives = { λ x r. r ≡ print_notice x };

    fn from(fault: PrintFault) -> Notice {
        match fault {
            PrintFault::Sheet(fault) => Notice::from(fault),
            PrintFault::ShortBuffer => Notice::bare(21),
        }
    }
}

impl From<ReprintFault> for Notice {
    ghost from_gives = { λ x r. r ≡ reprint_notice x };

    fn from(fault: ReprintFault) -> Notice {
        match fault {
            ReprintFault::Text(fault) => Notice::from(fault),
            ReprintFault::ShortBuffer => Notice::bare(21),
        }
    }
}
