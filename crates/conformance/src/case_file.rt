//! Cases in files.

use crate::case::Case;
use crate::recipe::add_line;
use anyhow::{Context, Result};
use std::alloc::{AllocError, Global};
use std::fs;
use std::rt::Files;

// The text of a line, so many times, with the numbers from 0 where it has a place for one.
fn repeated(alloc: Global, line: &str, count: usize) -> Result<Vec<u8>> {
    let mut text = Vec::new(alloc);
    if line.contains("\\#") {
        for number in 0..count {
            add_line(&mut text, line, number)?;
        }
        return Ok(text);
    }
    let mut one = Vec::new(alloc);
    add_line(&mut one, line, 0)?;
    for _ in 0..count {
        text.extend_from_slice(&one)?;
    }
    Ok(text)
}

// Adds a line to one of the texts: `NAME TEXT`, `NAME*COUNT TEXT` or `NAME< FILE`.
fn add_text<R: Files + AllocGlobal>(rt: &R, case: &mut Case, key: &str, line: &str) -> Result<()> {
    let alloc = rt.alloc();
    if let Some(name) = key.strip_suffix('<') {
        let text = fs::read(rt, line)?;
        return case.add(alloc, name, &text);
    }
    let (name, count) = match key.split_once('*') {
        Some((name, count)) => (name, count.parse::<usize>()?),
        None => (key, 1),
    };
    let text = repeated(alloc, line, count)?;
    case.add(alloc, name, &text)
}

// Takes one line of a case.
fn take_line<R: Files + AllocGlobal>(rt: &R, case: &mut Case, key: &str, text: &str) -> Result<()> {
    match key {
        "command" => case.set_command(text)?,
        "status" => case.wanted.status = text.parse::<u8>()?,
        "min" => case.least = text.parse::<u8>()?,
        "stderr" => case.wanted.fault = String::from_str(rt.alloc(), text)?,
        _ => add_text(rt, case, key, text)?,
    }
    Ok(())
}

// The cases of a file as far as they are read: what the group's cases have in common, and the case that was begun.
struct Reader {
    group: Case,
    begun: Option<Case>,
    cases: Vec<Case>,
}

// By hand, so that a caller that drops one proves one call.
impl Drop for Reader {
    fn drop(self) {
        let Reader {
            group: _,
            begun: _,
            cases: _,
        } = self;
    }
}

impl Reader {
    // Nothing is read.
    fn new(alloc: Global) -> Result<Reader, AllocError> {
        Ok(Reader {
            group: Case::new(alloc, "")?,
            begun: None,
            cases: Vec::new(alloc),
        })
    }

    // Ends the case that was begun.
    fn end_case(&mut self) -> Result<(), AllocError> {
        if let Some(case) = self.begun.take() {
            self.cases.push(case)?;
        }
        Ok(())
    }

    // Takes a line, which begins a group or a case or belongs to what was begun.
    fn take<R: Files + AllocGlobal>(&mut self, rt: &R, key: &str, text: &str) -> Result<()> {
        match key {
            "" => {}
            "group" => {
                self.end_case()?;
                self.group = Case::new(rt.alloc(), text)?;
            }
            "case" => {
                self.end_case()?;
                self.begun = Some(self.group.titled(text)?);
            }
            _ => match &mut self.begun {
                Some(case) => take_line(rt, case, key, text)?,
                None => take_line(rt, &mut self.group, key, text)?,
            },
        }
        Ok(())
    }

    // Takes the lines of a file.
    fn take_lines<R: Files + AllocGlobal>(
        &mut self,
        rt: &R,
        name: &str,
        lines: &str,
    ) -> Result<()> {
        for (index, line) in lines.lines().enumerate() {
            let number = index.wrapping_add(1);
            let (key, text) = key_and_text(line);
            self.take(rt, key, text)
                .context(format_args!("{name} line {number}"))?;
        }
        self.end_case()?;
        Ok(())
    }

    // The cases that were read.
    fn into_cases(self) -> Vec<Case> {
        let Reader {
            group: _,
            begun: _,
            cases,
        } = self;
        cases
    }
}

// The first word of a line, and what stands behind the blank that follows it; no word where the line begins with #.
fn key_and_text(line: &str) -> (&str, &str) {
    if line.starts_with('#') {
        return ("", "");
    }
    line.split_once(' ').unwrap_or((line, ""))
}

// The cases of a file of many.
fn groups_of<R: Files + AllocGlobal>(rt: &R, name: &str) -> Result<Vec<Case>> {
    let lines = fs::read_to_string(rt, name)?;
    let mut reader = Reader::new(rt.alloc())?;
    reader.take_lines(rt, name, &lines)?;
    Ok(reader.into_cases())
}

// Takes a file as one of the texts, where there is such a file.
fn take_file<R: Files + AllocGlobal>(
    rt: &R,
    case: &mut Case,
    stem: &str,
    ending: &str,
    text: &str,
) -> Result<()> {
    let name = format!(in rt.alloc(); "{stem}.{ending}")?;
    if fs::exists(rt, name.as_str())? {
        let bytes = fs::read(rt, name.as_str())?;
        case.add(rt.alloc(), text, &bytes)?;
    }
    Ok(())
}

// Takes the lines of the file of one case.
fn take_lines<R: Files + AllocGlobal>(rt: &R, case: &mut Case, name: &str) -> Result<()> {
    let lines = fs::read_to_string(rt, name)?;
    for line in lines.lines() {
        let (key, text) = key_and_text(line);
        take_line(rt, case, key, text).context(format_args!("{name}"))?;
    }
    Ok(())
}

// Takes the files beside that of one case as its texts.
fn take_files<R: Files + AllocGlobal>(rt: &R, case: &mut Case, stem: &str) -> Result<()> {
    take_file(rt, case, stem, "chart", "chart")?;
    take_file(rt, case, stem, "script", "script")?;
    take_file(rt, case, stem, "expect", "output")
}

// The case of a file of one, whose texts are files beside it.
fn single_of<R: Files + AllocGlobal>(rt: &R, name: &str, stem: &str) -> Result<Case> {
    let mut case = Case::new(rt.alloc(), stem)?;
    take_lines(rt, &mut case, name)?;
    take_files(rt, &mut case, stem)?;
    Ok(case)
}

/// The cases of a file: of many where its name ends in `.cases`, of one where it ends in `.case`.
pub fn cases_of<R: Files + AllocGlobal>(rt: &R, name: &str) -> Result<Vec<Case>> {
    match name.strip_suffix(".case") {
        Some(stem) => {
            let case = single_of(rt, name, stem)?;
            Ok(vec![in rt.alloc(); case]?)
        }
        None => groups_of(rt, name),
    }
}
