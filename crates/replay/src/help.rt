//! The account of the script's format that `replay --help` prints.

pub(crate) const HELP: &str = "usage: replay < SCRIPT

Makes a pile of four parts and makes the calls of a script on it, in their
order. Each call gets a line: the number of its line in the script, the call as
it was written, and its answer.

The parts are base (0, the lowest sheet), city (1) and tariff (2), two trial
layers, and strikes (3), a strike layer on top; a part goes by its name or its
number. The script begins with one of

  book C P           a book of C classes and P arrows as the lowest sheet
  text               the text on the next lines, up to a line 'end', as that

and goes on with calls. ROW is a letter and two or three numbers; a third that
is left out is 0.

  PART enter ROW     enters a row
  PART amend K ROW   replaces row K of a book
  PART withdraw      drops the rows that were entered into a trial layer
  PART strike K      strikes row K below a strike layer
  PART restore K     takes the strike of row K back
  PART load          loads the text on the next lines, up to a line 'end'
  PART verdict [N]   which names the rows force empty; on a table of N bytes
  PART ask ROW       whether a row follows from the others
  PART counts        the numbers of classes and arrows
  PART capacity      the most rows that the part can show
  PART rows          the number of rows
  PART row K         row K

Lines without words, and lines whose first word begins with #, are skipped. A
bad line is told on standard error; then nothing is run, and the status is 1.

Example:                        Answers:
  book 3 1                        1: book 3 1: done
  base enter D 1 1                2: base enter D 1 1: done
  city enter X 1 1                3: city enter X 1 1: done
  city verdict                    4: city verdict: 2 forced empty: class 1, arrow 0
  strikes strike 1                5: strikes strike 1: done
  strikes ask X 1 1               6: strikes ask X 1 1: no
";
