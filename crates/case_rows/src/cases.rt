//! Cases, as the lines of a file say them.
//!
//! A line begins with a key and a blank, a line of a text with four blanks, a comment with `#`.
//! docs/ARCHITECTURE.md has the keys.
use crate::stop::Stop;
use crate::texts::{NamedText, put_line};
use std::alloc::Global;
use std::mem;

/// Which calls of the devices fail: the number of one, from 1, or 0 for none; and how much the output takes.
#[derive(Clone, Copy)]
pub struct Faults {
    pub read: u32,
    pub image: u32,
    pub write: u32,
    pub room: usize,

    /// Whether the image's file exists.
    pub has_file: bool,
}

const NO_FAULTS: Faults = Faults {
    read: 0,
    image: 0,
    write: 0,
    room: 100_000,
    has_file: true,
};

/// What the program is asked.
#[derive(Drop)]
pub struct Question {
    /// Two runs are asked for, one of the source and one of its translation: the words are a bound and a call.
    pub is_both: bool,

    /// The arguments.
    pub words: Vec<String>,
}

/// A word, and whether it is to stand in the text that is answered.
#[derive(Drop)]
pub struct AskedWord {
    pub word: String,
    pub stands: bool,
}

/// A case: what the program is given, and what it is to answer.
#[derive(Drop)]
pub struct Case {
    /// The line of the case's answer, from 1.
    pub line: u32,
    pub source: Vec<u8>,
    pub image: Vec<u8>,
    pub faults: Faults,

    /// The name of the status that is to be answered.
    pub status: String,

    /// The word that alone is asked of the text; else the whole text is.
    pub asked: Option<AskedWord>,
    pub answer: Vec<u8>,
}

impl Case {
    fn new(alloc: Global) -> Case {
        Case {
            line: 0,
            source: Vec::new(alloc),
            image: Vec::new(alloc),
            faults: NO_FAULTS,
            status: String::new(alloc),
            asked: None,
            answer: Vec::new(alloc),
        }
    }
}

/// What the text that is being read is.
#[derive(Clone, Copy, PartialEq)]
enum Part {
    Nothing,
    Named,
    Source,
    Body,
    Statements,
    Image,
    Answer,
}

/// What the lines of a file have said so far.
#[derive(Drop)]
pub struct Cases {
    alloc: Global,

    /// How many lines were read.
    line: u32,
    question: Question,
    texts: Vec<NamedText>,
    case: Case,
    part: Part,
    text: Vec<u8>,

    /// Whether a line end follows the text: a line follows it, or it is an answer.
    has_end: bool,
}

impl Cases {
    /// The state before the first line.
    pub fn new(alloc: Global) -> Cases {
        Cases {
            alloc,
            line: 0,
            question: Question {
                is_both: false,
                words: Vec::new(alloc),
            },
            texts: Vec::new(alloc),
            case: Case::new(alloc),
            part: Part::Nothing,
            text: Vec::new(alloc),
            has_end: false,
        }
    }

    /// What the case that was closed is asked.
    pub fn question(&self) -> &Question {
        &self.question
    }

    /// How many lines were read.
    pub fn line(&self) -> u32 {
        self.line
    }

    /// Reads a line. Before one with a key what was read is to be closed.
    pub fn read(&mut self, line: &str) -> Result<(), Stop> {
        self.line = self.line.saturating_add(1);
        if let Some(text) = line.strip_prefix("    ") {
            return self.put_line(text);
        }
        if !has_key(line) {
            return Ok(());
        }
        match line.split_once(' ') {
            Some((key, rest)) => self.open(key, Some(rest)),
            None => self.open(line, None),
        }
    }

    /// Reads a line of the text.
    fn put_line(&mut self, line: &str) -> Result<(), Stop> {
        if self.part == Part::Nothing {
            return Err(Stop::NoForm);
        }
        if self.has_end {
            self.text.push(b'\n')?;
        }
        self.has_end = put_line(&mut self.text, line, self.texts.as_slice())?;
        Ok(())
    }

    /// Reads a key and what follows it.
    fn open(&mut self, key: &str, rest: Option<&str>) -> Result<(), Stop> {
        match key {
            "words" => self.put_question(false, rest.unwrap_or("")),
            "both" => self.put_question(true, rest.unwrap_or("")),
            "fault" => self.put_fault(rest.unwrap_or("")),
            "with" => self.put_word(true, rest.unwrap_or("")),
            "without" => self.put_word(false, rest.unwrap_or("")),
            "text" => self.put_name(rest.unwrap_or("")),
            "answer" => self.put_status(rest.unwrap_or("")),
            "source" => self.begin(Part::Source, rest),
            "body" => self.begin(Part::Body, rest),
            "statements" => self.begin(Part::Statements, rest),
            "image" => self.begin(Part::Image, rest),
            _ => Err(Stop::NoForm),
        }
    }

    fn put_question(&mut self, is_both: bool, line: &str) -> Result<(), Stop> {
        self.question.is_both = is_both;
        self.question.words.clear();
        for word in line.split_whitespace() {
            let word = if word == "-" { "" } else { word };
            let word = String::from_str(self.alloc, word)?;
            self.question.words.push(word)?;
        }
        Ok(())
    }

    fn put_fault(&mut self, line: &str) -> Result<(), Stop> {
        let faults = &mut self.case.faults;
        match line.split_once(' ') {
            Some(("read", number)) => faults.read = number_of(number)?,
            Some(("image", number)) => faults.image = number_of(number)?,
            Some(("write", number)) => faults.write = number_of(number)?,
            Some(("room", number)) => faults.room = number_of(number)? as usize,
            None if line == "file" => faults.has_file = false,
            _ => return Err(Stop::NoForm),
        }
        Ok(())
    }

    fn put_word(&mut self, stands: bool, word: &str) -> Result<(), Stop> {
        let word = String::from_str(self.alloc, word)?;
        self.case.asked = Some(AskedWord { word, stands });
        Ok(())
    }

    fn put_name(&mut self, name: &str) -> Result<(), Stop> {
        let named = NamedText {
            name: String::from_str(self.alloc, name)?,
            text: Vec::new(self.alloc),
        };
        self.texts.push(named)?;
        self.begin(Part::Named, None)
    }

    fn put_status(&mut self, line: &str) -> Result<(), Stop> {
        let (name, rest) = match line.split_once(' ') {
            Some((name, rest)) => (name, Some(rest)),
            None => (line, None),
        };
        self.case.status = String::from_str(self.alloc, name)?;
        self.case.line = self.line;
        self.begin(Part::Answer, rest)
    }

    /// Begins a text, with its first line where it follows the key.
    fn begin(&mut self, part: Part, line: Option<&str>) -> Result<(), Stop> {
        self.part = part;
        self.text.extend_from_slice(front_of(part))?;
        match line {
            Some(line) => self.put_line(line),
            None => Ok(()),
        }
    }

    /// Closes the text, and returns the case that ends with it, if one does.
    pub fn close(&mut self) -> Result<Option<Case>, Stop> {
        if self.part == Part::Answer && self.has_end {
            self.text.push(b'\n')?;
        }
        self.text.extend_from_slice(end_of(self.part))?;
        Ok(self.take())
    }

    /// Puts the text where it belongs, and returns the case that ends with it, if one does.
    fn take(&mut self) -> Option<Case> {
        let text = mem::replace(&mut self.text, Vec::new(self.alloc));
        self.has_end = false;
        match mem::replace(&mut self.part, Part::Nothing) {
            Part::Nothing => {}
            Part::Named => {
                if let Some(named) = self.texts.last_mut() {
                    named.text = text;
                }
            }
            Part::Source | Part::Body | Part::Statements => self.case.source = text,
            Part::Image => self.case.image = text,
            Part::Answer => {
                self.case.answer = text;
                return Some(mem::replace(&mut self.case, Case::new(self.alloc)));
            }
        }
        None
    }
}

/// Whether the line has a key.
pub fn has_key(line: &str) -> bool {
    !line.is_empty() && !line.starts_with('#') && !line.starts_with("    ")
}

/// The bytes before the lines of a text.
fn front_of(part: Part) -> &'static [u8] {
    match part {
        Part::Body => b"ORGANIZATION_BLOCK OB 1\nBEGIN\n",
        Part::Statements => b"PROGRAM OB1\n",
        _ => b"",
    }
}

/// The bytes after the lines of a text.
fn end_of(part: Part) -> &'static [u8] {
    match part {
        Part::Body => b"\nEND_ORGANIZATION_BLOCK\n",
        Part::Statements => b"\nEND_PROGRAM\n",
        _ => b"",
    }
}

fn number_of(digits: &str) -> Result<u32, Stop> {
    digits.parse().map_err(|_| Stop::NoForm)
}
