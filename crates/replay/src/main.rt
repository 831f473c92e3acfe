//! Replays a script of calls on a pile of four parts, and writes what each call answers.
#![tactic(auto)]

mod answers;
mod help;
mod script;
mod words;

use crate::answers::{Outcome, Told};
use crate::help::HELP;
use crate::script::{Lowest, SCRIPT_BYTES, Script, ScriptFault, read_script};
use crate::words::Puzzle;
use pile::pile::Pile;
use pile::pile::bases::Base;
use pile::pile::life::live;
use pile::request::Request;
use pile::strike::Strike;
use pile::trial::Trial;
use schema::book::Book;
use schema::sheet::Sheet;
use schema::text::check_text;
use schema::text_sheet::TextSheet;
use std::env;
use std::io::Read;
use std::process::ExitCode;

fn main(rt: HostRuntime) -> anyhow::Result<ExitCode> {
    let first = env::args(&rt)?.nth(1);
    if first.is_some_and(|word| matches!(word.as_str(), "--help" | "-h")) {
        rt.print(HELP)?;
        return Ok(ExitCode::SUCCESS);
    }
    let mut bytes = Vec::new(rt.alloc());
    // One byte more than a script may have tells that it is too long. A cast, since no `From` leads from usize to u64.
    rt.stdin()
        .take(SCRIPT_BYTES as u64 + 1)
        .read_to_end(&mut bytes)?;
    match read_script(rt.alloc(), bytes.as_slice()) {
        Ok(script) => {
            replay(&rt, script)?;
            Ok(ExitCode::SUCCESS)
        }
        Err(ScriptFault(_, puzzle @ Puzzle::Memory(_))) => Err(puzzle.into()),
        Err(fault) => {
            eprintln!(rt; "{fault}")?;
            Ok(ExitCode::FAILURE)
        }
    }
}

// Makes the lowest sheet, and the calls on the pile above it.
fn replay(rt: &HostRuntime, script: Script) -> anyhow::Result<()> {
    let Script {
        title,
        lowest,
        steps,
        titles,
    } = script;
    print!(rt; "{title}: ")?;
    match lowest {
        Lowest::Book(classes, arrows) => {
            let mut book = Book::new(rt.alloc())?;
            rt.println(Outcome(book.set_up(classes, arrows)))?;
            play::<Strike<Trial<Trial<Book>>>>(rt, book, steps, titles)
        }
        Lowest::Text(text) => {
            rt.println(Outcome(check_text(text.as_slice())))?;
            let sheet = TextSheet::new(text.as_slice());
            play::<Strike<Trial<Trial<Base<TextSheet>>>>>(rt, sheet, steps, titles)
        }
    }
}

// Makes the calls on a new pile, and writes what each answers.
fn play<P: Pile + Drop>(
    rt: &HostRuntime,
    lowest: P::Lowest,
    steps: Vec<Request>,
    titles: Vec<String>,
) -> anyhow::Result<()> {
    let classes = usize::from(lowest.classes());
    let (_pile, answers) = live::<P>(rt.alloc(), lowest, steps)?;
    for (title, answer) in titles.iter().zip(answers.iter()) {
        let told = Told { answer, classes };
        println!(rt; "{title}: {told}")?;
    }
    Ok(())
}
