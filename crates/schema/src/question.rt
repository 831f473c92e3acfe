//! The question: whether what a row says follows from the rows of a sheet.
ghost use Rattle.schema.specs.Asked.{Uncountable, Replied, Asked};
ghost use Rattle.schema.specs.Found.{TellsYes};
ghost use Rattle.schema.specs.Rows.{Sound};
ghost use Rattle.schema.specs.Verdicts.{Tells};

use crate::checks::shared_arrows;
use crate::description::Description;
use crate::faults::QuestionFault;
use crate::findings::Findings;
use crate::letters::unsound_field;
use crate::row::Row;
use crate::schema::Schema;
use crate::sheet::Sheet;

/// Answers whether every world that fulfils the rows of a sheet fulfils the asked row too.
pub fn question<S: Sheet>(sheet: &S, asked: Row) -> Result<bool, QuestionFault>
    ensures { Asked (S.Sheet.shows sheet.now) asked result }
{
    let schema = Schema::of(sheet)?;
    ask(&schema, asked)
}

// The question about a schema.
fn ask(schema: &Schema, asked: Row) -> Result<bool, QuestionFault>
    ensures { Replied schema.now.sheet.counts.classes schema.now.sheet.counts.arrows schema.now.sheet.rows.items asked result }
{
    let counts = schema.sheet.counts;
    if let Some(field) = unsound_field(asked, counts.classes, counts.arrows) {
        return Err(QuestionFault::UnsoundAsked { field });
    }
    if uncountable(schema, asked) {
        return Err(QuestionFault::Uncounted);
    }
    Ok(answer(schema, asked))
}

// Whether a row asks for 2 or more at an arrow that another leads to.
fn uncountable(schema: &Schema, asked: Row) -> bool
    requires { Sound 64 32 asked }
    ensures { Tells result (Uncountable schema.now.sheet.rows.items asked) }
{
    // a byte, as `Row` has it
    asked.letter == b'F'
        && asked.n >= 2
        && shared_arrows(&schema.sheet).has(usize::from(asked.b) / 2)
}

// Whether a schema tells what a sound row says.
fn answer(schema: &Schema, asked: Row) -> bool
    requires { Sound 64 32 asked }
    ensures { TellsYes schema.now.sheet.rows.items asked result }
{
    let found = Findings::of(schema);
    let a = usize::from(asked.a);
    let b = usize::from(asked.b);
    let n = usize::from(asked.n);
    // a byte, as `Row` has it
    match asked.letter {
        b'S' => found.leads(Description::class(a), Description::class(b)),
        b'X' => found.parted(Description::class(a), Description::class(b)),
        b'D' => found.leads(Description::mark(a, 1), Description::class(b)),
        b'F' => found.leads(Description::class(a), Description::mark(b, n)),
        b'K' => found.parted(Description::class(a), Description::mark(b, n + 1)),
        b'P' => found.arrow_leads(a, b),
        b'Q' => found.arrows_parted(a, b),
        // a sound row has one of the seven letters
        _ => unreachable(),
    }
}
