//! Files of cases, line by line.

use crate::case::{Case, Cut, FailingWrite, File};
use crate::fault::{Cause, Malformed};
use crate::text::{Text, add_quoted, unquoted};
use std::alloc::Global;

/// The text that `and` and lines go on with.
#[derive(Clone, Copy)]
enum Section {
    /// None so far.
    Nothing,
    /// The file that stands last in the case.
    LastFile,
    Out,
    Err,
}

/// What was read of a file.
#[derive(Drop)]
struct Reader {
    alloc: Global,
    /// What each case of the file begins with.
    common: Case,
    /// The case that is being read; the common one before the first name.
    draft: Case,
    is_named: bool,
    section: Section,
    /// Whether lines of a text are being read.
    in_lines: bool,
    cases: Vec<Case>,
}

fn number(word: &str) -> Result<u64, Cause> {
    match word.parse::<u64>() {
        Ok(number) => Ok(number),
        Err(_) => Err(Cause::NoNumber),
    }
}

fn length(word: &str) -> Result<usize, Cause> {
    match word.parse::<usize>() {
        Ok(number) => Ok(number),
        Err(_) => Err(Cause::NoNumber),
    }
}

/// The first word and the rest.
fn split(words: &str) -> Result<(&str, &str), Cause> {
    match words.split_once(' ') {
        Some(parts) => Ok(parts),
        None => Err(Cause::NoWord),
    }
}

/// Reads `N keeping K`.
fn failing_write(words: &str) -> Result<FailingWrite, Cause> {
    let Some((call, kept)) = words.split_once(" keeping ") else {
        return Err(Cause::NoNumber);
    };
    Ok(FailingWrite {
        call: number(call)?,
        kept: length(kept)?,
    })
}

impl Case {
    /// Takes a file away; it may be absent.
    fn remove_file(&mut self, path: &str) {
        self.files.retain(|file| file.path.as_str() != path);
    }

    /// Reads `read N`, `out N keeping K` or `err N keeping K`.
    fn add_failure(&mut self, words: &str) -> Result<(), Cause> {
        let (device, rest) = split(words)?;
        match device {
            "read" => self.failing_reads.push(number(rest)?)?,
            "out" => self.failing_out.push(failing_write(rest)?)?,
            "err" => self.failing_err.push(failing_write(rest)?)?,
            _ => return Err(Cause::Heading),
        }
        Ok(())
    }

    /// Reads `PATH N`, and fills that file with blanks up to this number of bytes.
    fn fill(&mut self, words: &str) -> Result<(), Cause> {
        let (path, rest) = split(words)?;
        let wanted = length(rest)?;
        for file in self.files.iter_mut() {
            if file.path.as_str() == path {
                let missing = wanted.saturating_sub(file.bytes.len());
                for _ in 0..missing {
                    file.bytes.push(b' ')?;
                }
                return Ok(());
            }
        }
        Err(Cause::NoFile)
    }

    /// Reads `PATH FROM TO`.
    fn set_cut(&mut self, alloc: Global, words: &str) -> Result<(), Cause> {
        let (path, rest) = split(words)?;
        let (from, to) = split(rest)?;
        self.cut = Some(Cut {
            path: String::from_str(alloc, path)?,
            from: length(from)?,
            to: length(to)?,
        });
        Ok(())
    }

    fn set_words(&mut self, alloc: Global, words: &str) -> Result<(), Cause> {
        self.words = Vec::new(alloc);
        for word in words.split_whitespace() {
            self.words.push(String::from_str(alloc, word)?)?;
        }
        Ok(())
    }

    fn set_status(&mut self, word: &str) -> Result<(), Cause> {
        match word.parse::<u8>() {
            Ok(status) => {
                self.end.status = status;
                Ok(())
            }
            Err(_) => Err(Cause::NoNumber),
        }
    }

    /// Sets what is told: a whole line, or what it begins with.
    fn set_line(&mut self, alloc: Global, text: &str, is_prefix: bool) -> Result<(), Cause> {
        self.end.err = Vec::from_slice(alloc, text.as_bytes())?;
        self.end.err_is_prefix = is_prefix;
        if !is_prefix {
            self.end.err.push(b'\n')?;
        }
        Ok(())
    }
}

impl Reader {
    fn new(alloc: Global) -> Result<Reader, Cause> {
        Ok(Reader {
            alloc,
            common: Case::new(alloc)?,
            draft: Case::new(alloc)?,
            is_named: false,
            section: Section::Nothing,
            in_lines: false,
            cases: Vec::new(alloc),
        })
    }

    /// Puts the draft where it belongs, and begins another one.
    fn finish(&mut self, next: Case) -> Result<(), Cause> {
        let done = std::mem::replace(&mut self.draft, next);
        if self.is_named {
            self.cases.push(done)?;
        } else {
            self.common = done;
        }
        Ok(())
    }

    /// Begins a case.
    fn begin(&mut self, name: &str) -> Result<(), Cause> {
        let empty = Case::new(self.alloc)?;
        self.finish(empty)?;
        self.draft = self.common.clone()?;
        self.draft.name = String::from_str(self.alloc, name)?;
        self.is_named = true;
        self.section = Section::Nothing;
        Ok(())
    }

    /// The text that is being read.
    fn bytes(&mut self) -> Result<&mut Vec<u8>, Cause> {
        match self.section {
            Section::Nothing => Err(Cause::NothingBefore),
            Section::LastFile => match self.draft.files.last_mut() {
                Some(file) => Ok(&mut file.bytes),
                None => Err(Cause::NothingBefore),
            },
            Section::Out => Ok(&mut self.draft.end.out),
            Section::Err => Ok(&mut self.draft.end.err),
        }
    }

    /// Goes on with a text.
    fn add_text(&mut self, words: &str) -> Result<(), Cause> {
        let alloc = self.alloc;
        match Text::parse(words)? {
            Text::Quoted { times, spelt } => add_quoted(alloc, self.bytes()?, spelt, times),
            Text::Lines => {
                self.in_lines = true;
                Ok(())
            }
        }
    }

    /// Begins a file: its path, and a text.
    fn begin_file(&mut self, words: &str) -> Result<(), Cause> {
        let (path, text) = split(words)?;
        self.draft.remove_file(path);
        self.draft.files.push(File {
            path: String::from_str(self.alloc, path)?,
            bytes: Vec::new(self.alloc),
        })?;
        self.section = Section::LastFile;
        self.add_text(text)
    }

    fn begin_out(&mut self, text: &str) -> Result<(), Cause> {
        self.draft.end.out = Vec::new(self.alloc);
        self.section = Section::Out;
        self.add_text(text)
    }

    fn begin_err(&mut self, text: &str) -> Result<(), Cause> {
        self.draft.end.err = Vec::new(self.alloc);
        self.draft.end.err_is_prefix = false;
        self.section = Section::Err;
        self.add_text(text)
    }

    /// Reads a heading of a case's end.
    fn read_end(&mut self, heading: &str, rest: &str) -> Result<(), Cause> {
        let alloc = self.alloc;
        match heading {
            "out" => self.begin_out(rest),
            "err" => self.begin_err(rest),
            "line" => self.draft.set_line(alloc, rest, false),
            "begins" => self.draft.set_line(alloc, rest, true),
            "status" => self.draft.set_status(rest),
            "told" => {
                self.draft.end.told = String::from_str(alloc, rest)?;
                Ok(())
            }
            "journal" => {
                self.draft.end.journal = String::from_str(alloc, rest)?;
                Ok(())
            }
            _ => Err(Cause::Heading),
        }
    }

    fn read_heading(&mut self, heading: &str, rest: &str) -> Result<(), Cause> {
        let alloc = self.alloc;
        match heading {
            "==" => self.begin(rest),
            "and" => self.add_text(rest),
            "file" => self.begin_file(rest),
            "words" => self.draft.set_words(alloc, rest),
            "word" => {
                self.draft.words.push(unquoted(alloc, rest)?)?;
                Ok(())
            }
            "without" => {
                self.draft.remove_file(rest);
                Ok(())
            }
            "fill" => self.draft.fill(rest),
            "cut" => self.draft.set_cut(alloc, rest),
            "again" => {
                self.draft.again = Some(String::from_str(alloc, rest)?);
                Ok(())
            }
            "fails" => self.draft.add_failure(rest),
            _ => self.read_end(heading, rest),
        }
    }

    /// Adds a line to the text that is being read.
    fn add_line(&mut self, line: &str) -> Result<(), Cause> {
        if line == "--" {
            self.in_lines = false;
            return Ok(());
        }
        let bytes = self.bytes()?;
        bytes.extend_from_slice(line.as_bytes())?;
        bytes.push(b'\n')?;
        Ok(())
    }

    fn read_line(&mut self, line: &str) -> Result<(), Cause> {
        if self.in_lines {
            return self.add_line(line);
        }
        if line.is_empty() || line.starts_with('#') {
            return Ok(());
        }
        match line.split_once(' ') {
            Some((heading, rest)) => self.read_heading(heading, rest),
            None => self.read_heading(line, ""),
        }
    }

    /// The cases of the file, which is read to its end.
    fn end(mut self) -> Result<Vec<Case>, Cause> {
        if self.in_lines {
            return Err(Cause::OpenLines);
        }
        let empty = Case::new(self.alloc)?;
        self.finish(empty)?;
        Ok(self.cases)
    }
}

/// Reads the cases of a file.
pub fn read_cases(alloc: Global, text: &str) -> Result<Vec<Case>, Malformed> {
    let mut line = 0u64;
    let mut reader = match Reader::new(alloc) {
        Ok(reader) => reader,
        Err(cause) => return Err(Malformed { line, cause }),
    };
    for words in text.lines() {
        line = line.saturating_add(1);
        if let Err(cause) = reader.read_line(words) {
            return Err(Malformed { line, cause });
        }
    }
    match reader.end() {
        Ok(cases) => Ok(cases),
        Err(cause) => Err(Malformed { line, cause }),
    }
}
