//! Files of tests with those that they include, as one text.

ghost use Rattle.std.specs.Prelude.{◌≡◌};
ghost use Rattle.sfc_cases.specs.Answers.{text_in};

use crate::words::from_word;
use sfc_base::case::is_same_word;
use sfc_page::append::append;
use sfc_script::split::{first_word, is_blank, next_line};
use std::alloc::{AllocError, Global};

/// The most bytes of the text, behind which no line is added.
const LONGEST: usize = 67_108_864;

/// The most files that are included.
const MOST_FILES: usize = 1_024;

/// The most lines and ends of files.
const MOST_LINES: usize = 268_435_456;

/// Where files are read from.
pub trait Library {
    /// What the file of this name holds, at most 67,108,865 bytes of it; None where it can't be read. The one error is that memory was
    /// refused.
    fn read(&mut self, name: &[u8]) -> Result<Option<Vec<u8>>, AllocError>;
}

/// Why a file isn't included.
#[derive(Clone, Copy, Debug, PartialEq, Eq)]
pub enum Reason {
    /// It can't be read.
    Missing,
    /// It includes itself, or another that includes it.
    Ring,
    /// More than 1,024 files are included.
    TooMany,
    /// Memory was refused.
    Memory,
}

impl Reason {
    /// The same in words.
    pub fn text(self) -> &'static str {
        match self {
            Reason::Missing => "it can't be read",
            Reason::Ring => "it includes itself",
            Reason::TooMany => "more than 1024 files are included",
            Reason::Memory => "out of memory",
        }
    }
}

/// Where a file isn't included.
pub struct IncludeError {
    /// The file whose line says so.
    pub file: Vec<u8>,
    /// Its line, counted from 1.
    pub line: usize,
    /// The file that it names.
    pub name: Vec<u8>,
    pub reason: Reason,
}

// By hand, so that a caller that drops one proves one call.
impl Drop for IncludeError {
    fn drop(self) {
        let IncludeError {
            file: _,
            line: _,
            name: _,
            reason: _,
        } = self;
    }
}

/// Lines of the text that stand in one file.
#[derive(Clone, Copy)]
struct Piece {
    // The line of the text with which they begin, counted from 1.
    first: usize,
    file: usize,
    // Which line of the file it is.
    line: usize,
}

/// A file that is gone through.
#[derive(Clone, Copy)]
struct Opened {
    file: usize,
    // The byte and the line that come next.
    place: usize,
    line: usize,
}

/// The text of a file of tests, in which each line INCLUDE is what its file says.
pub struct Sources {
    text: Vec<u8>,
    names: Vec<Vec<u8>>,
    pieces: Vec<Piece>,
}

// By hand, so that a caller that drops one proves one call.
impl Drop for Sources {
    fn drop(self) {
        let Sources {
            text: _,
            names: _,
            pieces: _,
        } = self;
    }
}

// The bytes, kept.
fn copied(alloc: Global, bytes: &[u8]) -> Result<Vec<u8>, AllocError> {
    let mut out = Vec::new(alloc);
    append(&mut out, bytes)?;
    Ok(out)
}

// The bytes without blanks at the end.
fn without_blanks(bytes: &[u8]) -> &[u8] {
    let mut rest = bytes;
    'blanks: while let Some((last, front)) = rest.split_last() {
        if !is_blank(*last) {
            break;
        }
        rest = front;
    }
    rest
}

// The file that a line includes, if it does.
fn included(line: &[u8]) -> Option<&[u8]> {
    let (word, behind) = first_word(line)?;
    if !is_same_word(word, b"INCLUDE") {
        return None;
    }
    let name = without_blanks(from_word(behind));
    if name.is_empty() { None } else { Some(name) }
}

// What stands before the last slash; nothing where there is none.
fn folder_of(name: &[u8]) -> &[u8] {
    match name.iter().rposition(|byte| *byte == b'/') {
        Some(count) => {
            let (front, _) = name.split_at(count.min(name.len()));
            front
        }
        None => b"",
    }
}

// A folder and a name in it by a shorter way, where the name begins with a dot or two and a slash.
fn shortened<'a>(folder: &'a [u8], name: &'a [u8]) -> Option<(&'a [u8], &'a [u8])> {
    if let Some(behind) = name.strip_prefix(b"./") {
        return Some((folder, behind));
    }
    let behind = name.strip_prefix(b"../")?;
    if folder.is_empty() || folder == b"..".as_slice() || folder.ends_with(b"/..") {
        return None;
    }
    Some((folder_of(folder), behind))
}

// The name of a file that stands beside another, or from the root on.
fn beside<'x>(alloc: Global, other: &'x [u8], name: &'x [u8]) -> Result<Vec<u8>, AllocError> {
    if name.first() == Some(&b'/') {
        return copied(alloc, name);
    }
    let mut folder = folder_of(other);
    let mut rest = name;
    'steps: for _step in 0..name.len() {
        let Some((shorter, behind)) = shortened(folder, rest) else {
            break;
        };
        folder = shorter;
        rest = behind;
    }
    let mut out = copied(alloc, folder)?;
    if !folder.is_empty() || other.first() == Some(&b'/') {
        append(&mut out, b"/")?;
    }
    append(&mut out, rest)?;
    Ok(out)
}

// Files that are gone through, the innermost last.
struct Reading {
    sources: Sources,
    texts: Vec<Vec<u8>>,
    opened: Vec<Opened>,
    // The line of the text that comes next.
    number: usize,
}

// By hand, so that a caller that drops one proves one call.
impl Drop for Reading {
    fn drop(self) {
        let Reading {
            sources: _,
            texts: _,
            opened: _,
            number: _,
        } = self;
    }
}

/// What comes of one line, or of the end of a file.
#[derive(Drop)]
enum Gone {
    On,
    Includes(Vec<u8>, Opened),
    Over,
}

impl Reading {
    // The line of a file that comes next begins a piece.
    fn begin_piece(&mut self, file: usize, line: usize) -> Result<(), AllocError> {
        self.sources.pieces.push(Piece {
            first: self.number,
            file,
            line,
        })?;
        Ok(())
    }

    // A file of this name is gone through from here on.
    fn open(&mut self, name: Vec<u8>, text: Vec<u8>) -> Result<(), AllocError> {
        let file = self.texts.len();
        self.sources.names.push(name)?;
        self.texts.push(text)?;
        self.opened.push(Opened {
            file,
            place: 0,
            line: 1,
        })?;
        self.begin_piece(file, 1)
    }

    // The file that included the one that has ended goes on, if one did.
    fn close(&mut self) -> Result<Gone, AllocError> {
        let Some(opened) = self.opened.last() else {
            return Ok(Gone::Over);
        };
        let opened = *opened;
        self.begin_piece(opened.file, opened.line)?;
        Ok(Gone::On)
    }

    // Goes on by one line.
    fn step(&mut self, alloc: Global) -> Result<Gone, AllocError> {
        let Some(opened) = self.opened.pop() else {
            return Ok(Gone::Over);
        };
        let Some(text) = self.texts.get(opened.file) else {
            return Ok(Gone::Over);
        };
        let (_, rest) = text.split_at(opened.place.min(text.len()));
        let Some((line, after)) = next_line(rest) else {
            return self.close();
        };
        let gone = match included(line) {
            Some(name) => Gone::Includes(copied(alloc, name)?, opened),
            None => {
                append(&mut self.sources.text, line)?;
                append(&mut self.sources.text, b"\n")?;
                self.number = self.number.saturating_add(1);
                Gone::On
            }
        };
        self.opened.push(Opened {
            file: opened.file,
            place: text.len() - after.len(),
            line: opened.line.saturating_add(1),
        })?;
        Ok(gone)
    }

    // The name of a file by its number.
    fn name(&self, file: usize) -> &[u8] {
        match self.sources.names.get(file) {
            Some(name) => name.as_slice(),
            None => b"",
        }
    }

    // Whether a file of this name is gone through.
    fn has_opened(&self, name: &[u8]) -> bool {
        self.opened
            .iter()
            .any(|opened| self.name(opened.file) == name)
    }

    // The text that came of it.
    fn into_sources(self) -> Sources {
        let Reading {
            sources,
            texts: _,
            opened: _,
            number: _,
        } = self;
        sources
    }

    // Includes a file that a line names.
    fn include<L: Library>(
        &mut self,
        alloc: Global,
        library: &mut L,
        name: &[u8],
        at: Opened,
    ) -> Result<(), Reason> {
        let Ok(path) = beside(alloc, self.name(at.file), name) else {
            return Err(Reason::Memory);
        };
        if self.has_opened(&path) {
            return Err(Reason::Ring);
        }
        if self.texts.len() > MOST_FILES {
            return Err(Reason::TooMany);
        }
        match library.read(&path) {
            Ok(Some(text)) => match self.open(path, text) {
                Ok(()) => Ok(()),
                Err(_) => Err(Reason::Memory),
            },
            Ok(None) => Err(Reason::Missing),
            Err(_) => Err(Reason::Memory),
        }
    }
}

// The error of a line of a file.
fn error_at(
    alloc: Global,
    reading: &Reading,
    at: Opened,
    name: Vec<u8>,
    reason: Reason,
) -> IncludeError {
    let file = match copied(alloc, reading.name(at.file)) {
        Ok(file) => file,
        Err(_) => Vec::new(alloc),
    };
    IncludeError {
        file,
        line: at.line,
        name,
        reason,
    }
}

// That memory was refused.
fn no_memory(alloc: Global) -> IncludeError {
    IncludeError {
        file: Vec::new(alloc),
        line: 0,
        name: Vec::new(alloc),
        reason: Reason::Memory,
    }
}

// Goes on by one line, and includes the file that it names.
fn go_on<L: Library>(
    alloc: Global,
    library: &mut L,
    reading: &mut Reading,
) -> Result<bool, IncludeError> {
    match reading.step(alloc) {
        Err(_) => Err(no_memory(alloc)),
        Ok(Gone::Over) => Ok(false),
        Ok(Gone::On) => Ok(reading.sources.text.len() <= LONGEST),
        Ok(Gone::Includes(name, at)) => match reading.include(alloc, library, &name, at) {
            Ok(()) => Ok(true),
            Err(reason) => Err(error_at(alloc, reading, at, name, reason)),
        },
    }
}

#[tactic(auto, unfolding(crate::specs::Answers::text_in))]
impl Sources {
    /// The text of one file, as it stands. The one error is that memory was refused.
    pub fn of_one(alloc: Global, name: &[u8], text: Vec<u8>) -> Result<Sources, AllocError> {
        let mut names = Vec::new(alloc);
        names.push(copied(alloc, name)?)?;
        let mut pieces = Vec::new(alloc);
        pieces.push(Piece {
            first: 1,
            file: 0,
            line: 1,
        })?;
        Ok(Sources {
            text,
            names,
            pieces,
        })
    }

    /// The text of a file, in which what another file says stands in place of each line INCLUDE that names it, beside the file that says
    /// so; and so on within that. Behind 67,108,864 bytes no line is added. The errors are that a file isn't included, and that memory was
    /// refused.
    pub fn of_file<L: Library>(
        alloc: Global,
        library: &mut L,
        name: &[u8],
        text: Vec<u8>,
    ) -> Result<Sources, IncludeError> {
        let mut reading = Reading {
            sources: Sources {
                text: Vec::new(alloc),
                names: Vec::new(alloc),
                pieces: Vec::new(alloc),
            },
            texts: Vec::new(alloc),
            opened: Vec::new(alloc),
            number: 1,
        };
        let Ok(name) = copied(alloc, name) else {
            return Err(no_memory(alloc));
        };
        if reading.open(name, text).is_err() {
            return Err(no_memory(alloc));
        }
        'lines: for _line in 0..MOST_LINES {
            if !go_on(alloc, library, &mut reading)? {
                break;
            }
        }
        Ok(reading.into_sources())
    }

    /// The text.
    pub fn text(&self) -> &[u8]
        ensures { result.now ≡ text_in self.now }
    {
        self.text.as_slice()
    }

    /// The file in which a line of the text stands, and which line of it that is.
    pub fn place(&self, line: usize) -> (&[u8], usize) {
        let behind = self.pieces.partition_point(|piece| piece.first <= line);
        let Some(piece) = self.pieces.get(behind.saturating_sub(1)) else {
            return (b"", line);
        };
        let name = match self.names.get(piece.file) {
            Some(name) => name.as_slice(),
            None => b"",
        };
        (
            name,
            piece.line.saturating_add(line.saturating_sub(piece.first)),
        )
    }

    /// The name of the file itself.
    pub fn name(&self) -> &[u8] {
        match self.names.first() {
            Some(name) => name.as_slice(),
            None => b"",
        }
    }
}
