//! What a schema tells of any description or arrow: where it leads, and whether it is empty.
ghost use Rattle.std.specs.Prelude.{◌≡◌, ◌<◌, ◌⊎◌};
ghost use Rattle.search.specs.Leads.{Leads};
ghost use Rattle.schema.specs.Found.{MarkedEmpty};
ghost use Rattle.schema.specs.Keys.{Reaches};
ghost use Rattle.schema.specs.Points.{Placed};
ghost use Rattle.schema.specs.Questions.{EmptyDescription, Parted, Yes};
ghost use Rattle.schema.specs.Rules.{Q};
ghost use Rattle.schema.specs.Verdicts.{Tells};
ghost use Rattle.schema.specs.Webs.{Description as Meaning, Link, ArrowLink, ArrowApart, Clashing, EmptyArrow};

use crate::arrows::{ARROWS, Arrows};
use crate::clashes::torn;
use crate::description::Description;
use crate::descriptions::{Descriptions, POINTS};
use crate::keys::{KEYS, empty_keys};
use crate::marking::marks_from;
use crate::schema::Schema;
use std::marker::Model;

/// The web of a schema, and a byte for each key, 1 if it is empty, as the search wrote them. A contract sees the rows
/// that they tell of.
#[derive(Drop)]
pub(crate) struct Findings<'a> {
    schema: &'a Schema,
    web: Descriptions,
    empty: [u8; 129],
}

impl<'a> Model for Findings<'a> {
    ghost use Rattle.std.specs.Prelude.{List};
    ghost use Rattle.schema.specs.declared.row.Row.{Row};
    ghost use Rattle.schema.specs.Found.{Found};

    ghost Value = { List Row };

    ghost view = { λ f. f.schema.now.sheet.rows.items };

    ghost invariant = { λ f. Found f.schema.now.sheet.rows.items f.web f.empty };
}

impl Findings<'_> {
    /// What a schema tells.
    pub(crate) fn of(schema: &Schema) -> Findings<'_>
        ensures { result ≡ schema.now.sheet.rows.items }
    {
        let web = Descriptions::of(&schema.sheet);
        let empty = empty_keys(schema);
        Findings { schema, web, empty }
    }

    /// Whether one description is empty or leads to another.
    pub(crate) fn leads(&self, from: Description, to: Description) -> bool
        ensures { Tells result (EmptyDescription self.now from ⊎ Leads (Link self.now) from to) }
    {
        let marks = self.marks(from);
        self.is_empty(&marks) || marks[to.point()] == 1
    }

    /// Whether one of two descriptions is empty, or they lead to two that clash, one from each.
    pub(crate) fn parted(&self, one: Description, two: Description) -> bool
        ensures { Tells result (Parted self.now one two) }
    {
        let first = self.marks(one);
        let second = self.marks(two);
        self.is_empty(&first)
            || self.is_empty(&second)
            || torn::<Descriptions>(&self.schema.sheet, &first, &second)
    }

    /// Whether one arrow is empty or leads to another: an arrow is empty with its tail.
    pub(crate) fn arrow_leads(&self, from: usize, to: usize) -> bool
        requires { (from < 32) × (to < 32) }
        ensures { Tells result (EmptyArrow self.now from ⊎ Leads (ArrowLink self.now) from to) }
    {
        let marks: [u8; ARROWS] = marks_from(&self.web.arrows, from);
        self.empty[64 + 2 * from] == 1 || marks[to] == 1
    }

    /// Whether one of two arrows is empty, or they, their tails or their heads lead to two that clash, one from each.
    /// An arrow is empty with its ends, so that these tell of it.
    pub(crate) fn arrows_parted(&self, one: usize, two: usize) -> bool
        requires { (one < 32) × (two < 32) }
        ensures { Tells result (Yes self.now (Q one two)) }
    {
        self.arrows_clash(one, two)
            || self.parted(Description::mark(2 * one, 1), Description::mark(2 * two, 1))
            || self.parted(
                Description::mark(2 * one + 1, 1),
                Description::mark(2 * two + 1, 1),
            )
    }

    // Whether two arrows lead to two that clash, one from each.
    fn arrows_clash(&self, one: usize, two: usize) -> bool
        ensures { Tells result (Clashing (ArrowLink self.now) (ArrowApart self.now) one two) }
    {
        let first: [u8; ARROWS] = marks_from(&self.web.arrows, one);
        let second: [u8; ARROWS] = marks_from(&self.web.arrows, two);
        torn::<Arrows>(&self.schema.sheet, &first, &second)
    }

    // The marks of what a description leads to.
    fn marks(&self, from: Description) -> [u8; POINTS]
        ensures placed { Placed from }
        ensures reaches { Reaches self.now from result }
    {
        marks_from(&self.web, from.point())
    }

    // Whether a description is empty, by what it leads to: two that clash, or a key that is empty.
    fn is_empty(&self, marks: &[u8; POINTS]) -> bool
        ensures { (d : Meaning) → Placed d → Reaches self.now d marks.now → Tells result (EmptyDescription self.now d) }
    {
        torn::<Descriptions>(&self.schema.sheet, marks, marks) || marks_empty(marks, &self.empty)
    }
}

// Whether a key that is empty is marked.
fn marks_empty(marks: &[u8; POINTS], empty: &[u8; 129]) -> bool
    ensures { Tells result (MarkedEmpty marks.now empty.now) }
{
    (0..KEYS).any(|key| marks[Description::of_key(key).point()] == 1 && empty[key] == 1)
}
