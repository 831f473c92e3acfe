//! A script: the lowest sheet, and the calls to be made.
use crate::words::{Puzzle, part_number, read_call, small, split_words};
use pile::request::{Call, Request};
use std::alloc::Global;
use thiserror::Error;

/// The most bytes that a script may have.
pub(crate) const SCRIPT_BYTES: usize = 1048576;

/// The lowest sheet: a book by its counts, or what a text tells.
#[derive(Drop)]
pub enum Lowest {
    Book(u16, u16),
    Text(Vec<u8>),
}

/// The lowest sheet and the steps, each with a title: the number of its line, and the words as they were written. The
/// titles of the steps stand apart from them, since `live` takes those as they are.
#[derive(Drop)]
pub struct Script {
    pub title: String,
    pub lowest: Lowest,
    pub steps: Vec<Request>,
    pub titles: Vec<String>,
}

/// Why a script is refused: a line of it, and what is wrong there.
#[derive(Debug, Drop, Error)]
#[error("line {0}: {1}")]
pub struct ScriptFault(pub usize, pub Puzzle);

// What a text is for: the lowest sheet, by its title, or a part that loads it.
#[derive(Drop)]
enum Purpose {
    Lowest(String),
    Load(usize),
}

// A text that is being read, and the line that asked for it.
#[derive(Drop)]
struct Opened {
    line: usize,
    purpose: Purpose,
    text: Vec<u8>,
}

// What was read so far, the lowest sheet with its title, and the number of the line that is being read.
#[derive(Drop)]
struct Reader {
    heap: Global,
    line: usize,
    lowest: Option<(String, Lowest)>,
    steps: Vec<Request>,
    titles: Vec<String>,
    open: Option<Opened>,
}

/// Reads a script to its end.
pub(crate) fn read_script(heap: Global, bytes: &[u8]) -> Result<Script, ScriptFault> {
    if bytes.len() > SCRIPT_BYTES {
        return Err(ScriptFault(1, Puzzle::TooLong));
    }
    let mut reader = Reader {
        heap,
        line: 0,
        lowest: None,
        steps: Vec::new(heap),
        titles: Vec::new(heap),
        open: None,
    };
    for (line, words) in (1..).zip(bytes.split(|byte| *byte == b'\n')) {
        reader.line = line;
        reader
            .take(words)
            .map_err(|puzzle| ScriptFault(line, puzzle))?;
    }
    reader.finish()
}

impl Reader {
    // One line more.
    fn take(&mut self, line: &[u8]) -> Result<(), Puzzle> {
        match self.open.take() {
            Some(opened) => self.read_on(opened, line),
            None => self.begin(line),
        }
    }

    // A line of a text, or the one that ends it.
    fn read_on(&mut self, mut opened: Opened, line: &[u8]) -> Result<(), Puzzle> {
        if line == b"end".as_slice() {
            return self.close(opened);
        }
        opened.text.extend_from_slice(line)?;
        opened.text.push(b'\n')?;
        self.open = Some(opened);
        Ok(())
    }

    // A text is whole.
    fn close(&mut self, opened: Opened) -> Result<(), Puzzle> {
        let Opened {
            line: _,
            purpose,
            text,
        } = opened;
        match purpose {
            Purpose::Lowest(title) => self.lowest = Some((title, Lowest::Text(text))),
            Purpose::Load(part) => self.steps.push(Request {
                part,
                call: Call::Load(text),
            })?,
        }
        Ok(())
    }

    // A line that is not of a text.
    fn begin(&mut self, line: &[u8]) -> Result<(), Puzzle> {
        let line = std::str::from_utf8(line).map_err(|_| Puzzle::NotText)?;
        let words = split_words(self.heap, line)?;
        if words.first().is_none_or(|first| first.starts_with('#')) {
            return Ok(());
        }
        let (number, line) = (self.line, words.join(self.heap, " ")?);
        let title = format!(in self.heap; "{number}: {line}")?;
        if self.lowest.is_none() {
            return self.found(title, words.as_slice());
        }
        self.titles.push(title)?;
        self.follow(words.as_slice())
    }

    // A call.
    fn follow(&mut self, words: &[&str]) -> Result<(), Puzzle> {
        let [word, name, rest @ ..] = words else {
            return Err(Puzzle::NotCall);
        };
        let part = part_number(word)?;
        match read_call(self.heap, name, rest)? {
            Call::Load(text) => self.open_text(Purpose::Load(part), text),
            call => self.steps.push(Request { part, call })?,
        }
        Ok(())
    }

    // The lowest sheet.
    fn found(&mut self, title: String, words: &[&str]) -> Result<(), Puzzle> {
        match words {
            ["book", classes, arrows] => {
                self.lowest = Some((title, Lowest::Book(small(classes)?, small(arrows)?)));
            }
            ["text"] => self.open_text(Purpose::Lowest(title), Vec::new(self.heap)),
            _ => return Err(Puzzle::Beginning),
        }
        Ok(())
    }

    // The lines that follow are a text.
    fn open_text(&mut self, purpose: Purpose, text: Vec<u8>) {
        self.open = Some(Opened {
            line: self.line,
            purpose,
            text,
        });
    }

    // The script is whole.
    fn finish(self) -> Result<Script, ScriptFault> {
        let Reader {
            heap: _,
            line,
            lowest,
            steps,
            titles,
            open,
        } = self;
        if let Some(opened) = open {
            return Err(ScriptFault(opened.line, Puzzle::NoEnd));
        }
        let Some((title, lowest)) = lowest else {
            return Err(ScriptFault(line, Puzzle::NoLowest));
        };
        Ok(Script {
            title,
            lowest,
            steps,
            titles,
        })
    }
}
