//! Schemas of classes and arrows: rows, texts, sheets, the checks, the verdict, the question and the report.
#![tactic(auto)]

mod arrows;
pub mod book;
mod checks;
mod clashes;
mod columns;
mod counts;
mod description;
mod descriptions;
pub mod faults;
mod findings;
mod keys;
pub mod letters;
pub mod limits;
mod lines;
pub mod loading;
mod marking;
pub mod print;
mod printing;
pub mod question;
#[cfg(test)]
mod question_tests;
pub mod report;
pub mod reserved;
mod rivals;
#[cfg(test)]
mod round_trips;
pub mod row;
mod schema;
mod set64;
pub mod sheet;
mod sound_sheet;
mod tally;
#[cfg(test)]
mod tests;
pub mod text;
pub mod text_sheet;
pub mod verdict;
