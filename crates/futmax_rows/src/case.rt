//! A case: the words of a command, an input, and how the devices behave.

use crate::input::{add_line, add_span, span_of};
use std::alloc::Global;
use std::io;

/// What a device does not do, or what is missing of the input.
#[derive(Clone, Copy, PartialEq, Eq)]
pub enum Trouble {
    Nothing,
    ReadFails,
    WriteFails,
    Room,
    Cut,
}

/// Which rows are printed.
#[derive(Clone, Copy, PartialEq, Eq)]
pub enum Shown {
    Whole,
    Fields,
    Outline,
}

/// One case. The trouble is run with each number from the first to the last.
#[derive(Drop)]
pub struct Case {
    pub words: Vec<String>,
    pub input: Vec<u8>,
    /// Whether no line is taken of another case.
    pub is_whole: bool,
    pub shown: Shown,
    pub piece: usize,
    pub trouble: Trouble,
    pub first: u64,
    pub last: u64,
}

impl Case {
    /// The case with this head, and no line so far.
    pub fn new(alloc: Global, head: &str) -> io::Result<Case> {
        let (words, options) = head.split_once('|').unwrap_or((head, ""));
        let mut case = Case {
            words: Vec::new(alloc),
            input: Vec::new(alloc),
            is_whole: true,
            shown: Shown::Whole,
            piece: 8192,
            trouble: Trouble::Nothing,
            first: 1,
            last: 1,
        };
        for word in words.split_whitespace() {
            case.words.push(String::from_str(alloc, word)?)?;
        }
        for option in options.split('|') {
            case.set_option(option.trim())
                .ok_or(io::ErrorKind::InvalidInput)?;
        }
        Ok(case)
    }

    /// Adds a line to the input, or the lines of another one, which is given, that it names.
    pub fn add_line(&mut self, whole: &[u8], line: &str) -> io::Result<()> {
        let Some(numbers) = line.strip_prefix('>') else {
            return add_line(&mut self.input, line);
        };
        self.is_whole = false;
        let span = span_of(numbers).ok_or(io::ErrorKind::InvalidInput)?;
        add_span(&mut self.input, whole, span)
    }

    // None if the option has another form.
    fn set_option(&mut self, option: &str) -> Option<()> {
        match option {
            "" => return Some(()),
            "fields" => {
                self.shown = Shown::Fields;
                return Some(());
            }
            "outline" => {
                self.shown = Shown::Outline;
                return Some(());
            }
            _ => {}
        }
        let (name, numbers) = option.rsplit_once(' ')?;
        if name == "piece" {
            self.piece = numbers.parse().ok()?;
            return Some(());
        }
        self.trouble = trouble_of(name)?;
        (self.first, self.last) = span_of(numbers)?;
        Some(())
    }
}

fn trouble_of(name: &str) -> Option<Trouble> {
    match name {
        "read fails" => Some(Trouble::ReadFails),
        "write fails" => Some(Trouble::WriteFails),
        "room" => Some(Trouble::Room),
        "cut" => Some(Trouble::Cut),
        _ => None,
    }
}
