//! What is told of a file of tests.

ghost use Rattle.std.specs.Prelude.{All, IfOk, OnOk};
ghost use Rattle.sfc_cases.specs.Answers.{text_in};
ghost use Rattle.sfc_why_tests.specs.Telling.{ExplainsTests, IsFaultAt};

use crate::blame::Blame;
use crate::keyword::near_keyword;
use crate::lines::{is_naming, missing_in_line, naming_blame, timed_blame};
use crate::meant::Meant;
use crate::piece::Piece;
use crate::wanted::Wanted;
use sfc_base::case::is_same_word;
use sfc_cases::named::Named;
use sfc_cases::sfc_script::script::ScriptError;
use sfc_cases::sfc_script::split::{first_word, next_line, two_words};
use sfc_cases::sources::Sources;
use sfc_cases::test_file::read_tests;
use sfc_cases::words::kept;
use sfc_page::append::append_number;
use sfc_plant::plant::Plant;
use sfc_script::sfc_debug::sfc_core::resource::Resource;
use sfc_why::condition::{ScriptFault, Site, condition_fault};
use sfc_why::naming::Sought;
use sfc_why::over::{Opened, Over};
use sfc_why::place::{Place, word_place};
use sfc_why::report::{Fault, Report, report_in_file};
use sfc_why::sfc_hints::hints::Hints;
use sfc_why::sfc_hints::sfc_places::span::Span;
use sfc_why::sfc_hints::writing::add_line;
use sfc_why::warning::hints_of;
use std::alloc::{AllocError, Global};

/// The most reports of names.
const MOST: usize = 100;

/// What is told of a line of a file of tests.
pub struct TestFault {
    /// Which line it is of the text with all files that are included, counted from 1; 0 where the text is too long.
    pub line: usize,
    /// The report, with the number of the line in its own file.
    pub report: Report,
}

// By hand, so that a caller that drops one proves one call.
impl Drop for TestFault {
    fn drop(self) {
        let TestFault { line: _, report: _ } = self;
    }
}

/// What is told of a file of tests.
#[derive(Drop)]
pub enum TestsTold {
    /// Its first faulty line.
    Fault(TestFault),
    /// Each line says something: the commands that have to be accepted and name what the chart hasn't, up to a hundred, in the order of
    /// their lines.
    NoFault(Vec<TestFault>),
}

/// A line of the text: its number, its first byte, and the names that stand for words in it.
#[derive(Clone, Copy)]
struct Row<'a> {
    number: usize,
    base: usize,
    meant: Meant<'a>,
}

impl Row<'_> {
    // The bytes of the text from which these of what the line says come.
    fn span_of(&self, alloc: Global, span: Span) -> Result<Span, AllocError> {
        let Span { from, to } = self.meant.span_of(alloc, span)?;
        Ok(Span {
            from: self.base.saturating_add(from),
            to: self.base.saturating_add(to),
        })
    }
}

// The name and the word of a line with LET. The one error is that memory was refused.
fn named_by(alloc: Global, line: &[u8]) -> Result<Option<Named>, AllocError> {
    let Some((word, behind)) = first_word(line) else {
        return Ok(None);
    };
    if !is_same_word(word, b"LET") {
        return Ok(None);
    }
    let Some((name, behind)) = first_word(behind) else {
        return Ok(None);
    };
    let Some((_, word)) = two_words(behind) else {
        return Ok(None);
    };
    Ok(Some(Named {
        name: kept(alloc, name)?,
        word: kept(alloc, word)?,
    }))
}

// What would do in place of a word, and the word that may be meant.
fn wanted_told(alloc: Global, word: &[u8], wanted: Wanted) -> Result<Hints, AllocError> {
    let mut told = Hints::new(alloc);
    if let Wanted::Keyword = wanted {
        if let Some(near) = near_keyword(alloc, word)? {
            told.keep_near(alloc, near.as_bytes())?;
        }
    }
    told.lines.extend_from_slice(b"  expected: ")?;
    add_line(&mut told.lines, wanted.text())?;
    Ok(told)
}

// What a name that is sought and isn't there is told by.
fn missing_told(
    alloc: Global,
    over: &Over<'_>,
    name: &[u8],
    sought: Sought,
) -> Result<Hints, AllocError> {
    let mut told = Hints::new(alloc);
    told.lines.extend_from_slice(b"  in: the name, ")?;
    append_number(&mut told.lines, u64::from(sought.refusal().number()))?;
    told.lines.extend_from_slice(b" ")?;
    add_line(&mut told.lines, sought.refusal().name().as_bytes())?;
    let Hints { lines, near } = hints_of(alloc, over, name, sought)?;
    told.lines.extend_from_slice(&lines)?;
    Ok(Hints {
        lines: told.lines,
        near,
    })
}

// The fault that is blamed, at bytes of what the line says.
fn fault_of(
    alloc: Global,
    over: &Over<'_>,
    text: &[u8],
    blame: Option<Blame<'_>>,
) -> Result<ScriptFault, AllocError> {
    match blame {
        Some(Blame::Word(piece, wanted)) => Ok(ScriptFault {
            span: piece.span(),
            told: wanted_told(alloc, piece.text, wanted)?,
        }),
        Some(Blame::Condition(piece, program)) => {
            let site = Site {
                base: piece.from,
                words: "the condition",
            };
            condition_fault(alloc, over, (program, piece.text), site)
        }
        Some(Blame::Missing(span, sought)) => {
            let name = text.get(span.from..span.to).unwrap_or(b"");
            let told = missing_told(alloc, over, name, sought)?;
            Ok(ScriptFault { span, told })
        }
        None => Ok(ScriptFault {
            span: Piece::of(text).trimmed().span(),
            told: Hints::new(alloc),
        }),
    }
}

// The fault of a line, at bytes of the text.
fn row_fault(alloc: Global, over: &Over<'_>, row: &Row<'_>) -> Result<ScriptFault, AllocError> {
    let line = Piece::of(row.meant.line);
    let is_plain = match line.split() {
        Some((word, _)) => is_naming(word),
        None => true,
    };
    let text = row.meant.text(alloc)?;
    let plant = over.resource.plant();
    let ScriptFault { span, told } = if is_plain {
        fault_of(alloc, over, row.meant.line, naming_blame(line))?
    } else {
        let blame = timed_blame(alloc, plant, Piece::of(&text))?;
        fault_of(alloc, over, &text, blame)?
    };
    let span = if is_plain {
        Span {
            from: row.base.saturating_add(span.from),
            to: row.base.saturating_add(span.to),
        }
    } else {
        row.span_of(alloc, span)?
    };
    Ok(ScriptFault { span, told })
}

// A report of a fault of a line of the text.
fn told_at(
    alloc: Global,
    sources: &Sources,
    number: usize,
    fault: ScriptFault,
) -> Result<TestFault, AllocError>
    ensures { IfOk result (IsFaultAt (text_in sources.now) number) }
{
    let text = sources.text();
    let (_, line) = sources.place(number);
    let place = word_place(text, fault.span);
    let ScriptFault { span: _, told } = fault;
    let Hints { lines, near } = told;
    let report = report_in_file(alloc, text, Fault::Script(line), (place, line), &lines)?;
    Ok(TestFault {
        line: number,
        report: report.with_near(near),
    })
}

// The names that stand for words behind this line.
fn add_named(alloc: Global, names: &mut Vec<Named>, line: &[u8]) -> Result<(), AllocError> {
    if let Some(named) = named_by(alloc, line)? {
        names.push(named)?;
    }
    Ok(())
}

// The fault of the line of this number.
fn faulty_line(
    alloc: Global,
    over: &Over<'_>,
    text: &[u8],
    number: usize,
) -> Result<ScriptFault, AllocError> {
    let mut names = Vec::new(alloc);
    let mut rest = text;
    let mut count = 1usize;
    'lines: for _line in 0..=text.len() {
        let Some((line, after)) = next_line(rest) else {
            break;
        };
        if count == number {
            let row = Row {
                number,
                base: text.len().saturating_sub(rest.len()),
                meant: Meant {
                    names: &names,
                    line,
                },
            };
            return row_fault(alloc, over, &row);
        }
        add_named(alloc, &mut names, line)?;
        count = count.saturating_add(1);
        rest = after;
    }
    Ok(ScriptFault {
        span: Span { from: 0, to: 0 },
        told: Hints::new(alloc),
    })
}

// The name of a line that the plant hasn't, if there is one.
fn missing_fault(
    alloc: Global,
    over: &Over<'_>,
    row: &Row<'_>,
) -> Result<Option<ScriptFault>, AllocError> {
    let text = row.meant.text(alloc)?;
    let is_plain = match Piece::of(row.meant.line).split() {
        Some((word, _)) => is_naming(word) || word.text.first() == Some(&b';'),
        None => true,
    };
    if is_plain {
        return Ok(None);
    }
    let Some(missing) = missing_in_line(over.resource, &text) else {
        return Ok(None);
    };
    let blame = Blame::Missing(missing.span, missing.sought);
    let ScriptFault { span, told } = fault_of(alloc, over, &text, Some(blame))?;
    let span = row.span_of(alloc, span)?;
    Ok(Some(ScriptFault { span, told }))
}

// Puts a report of a fault of a line of the text last.
fn add_fault(
    alloc: Global,
    sources: &Sources,
    number: usize,
    fault: ScriptFault,
    faults: &mut Vec<TestFault>,
) -> Result<(), AllocError>
    ensures { All (λ fault. IsFaultAt (text_in sources.now) fault.line fault) faults.old.items
        → OnOk result (All (λ fault. IsFaultAt (text_in sources.now) fault.line fault) faults.new.items) }
{
    let fault = told_at(alloc, sources, number, fault)?;
    faults.push(fault)?;
    Ok(())
}

// The names in commands of the text that the plant hasn't.
fn missing_names(
    alloc: Global,
    over: &Over<'_>,
    sources: &Sources,
) -> Result<Vec<TestFault>, AllocError>
    ensures { IfOk result (λ faults. All (λ fault. IsFaultAt (text_in sources.now) fault.line fault) faults.items) }
{
    let mut faults = Vec::new(alloc);
    let mut names = Vec::new(alloc);
    let text = sources.text();
    let mut rest = text;
    let mut number = 1usize;
    'lines: while let Some((line, after)) = next_line(rest) {
        if faults.len() >= MOST {
            break;
        }
        let row = Row {
            number,
            base: text.len().saturating_sub(rest.len()),
            meant: Meant {
                names: &names,
                line,
            },
        };
        if let Some(fault) = missing_fault(alloc, over, &row)? {
            add_fault(alloc, sources, row.number, fault, &mut faults)?;
        }
        add_named(alloc, &mut names, line)?;
        number = number.saturating_add(1);
        rest = after;
    }
    Ok(faults)
}

// What is told of a text that is too long.
fn too_long(alloc: Global, text: &[u8]) -> Result<TestFault, AllocError>
    ensures { IfOk result (IsFaultAt text.now 0) }
{
    let lines = b"  there may be: 67108864 bytes\n";
    let report = report_in_file(alloc, text, Fault::Script(0), (Place::Whole, 0), lines)?;
    Ok(TestFault { line: 0, report })
}

// What is told of a text that is refused at a line.
fn refused_at(
    alloc: Global,
    over: &Over<'_>,
    sources: &Sources,
    line: usize,
) -> Result<TestFault, AllocError>
    ensures { IfOk result (IsFaultAt (text_in sources.now) line) }
{
    if line == 0 {
        return too_long(alloc, sources.text());
    }
    let fault = faulty_line(alloc, over, sources.text(), line)?;
    told_at(alloc, sources, line, fault)
}

/// What is told of a file of tests, with those that it includes, over a plant and the text of its chart: its first faulty line, which is
/// that of `read_tests`; where it has none, the commands that name what the chart hasn't. The one error is that memory was refused.
pub fn explain_tests(
    alloc: Global,
    text: &[u8],
    plant: Plant,
    sources: &Sources,
) -> Result<TestsTold, AllocError>
    ensures { IfOk result (ExplainsTests plant (text_in sources.now)) }
{
    let opened = Opened::of(alloc, text)?;
    let chart = opened.chart(text);
    let text = opened.tree(&chart);
    let resource = Resource::open(alloc, plant)?;
    let over = Over {
        resource: &resource,
        text: &text,
    };
    match read_tests(alloc, &resource, sources.text()) {
        Ok(_) => Ok(TestsTold::NoFault(missing_names(alloc, &over, sources)?)),
        Err(ScriptError::Memory) => Err(AllocError),
        Err(ScriptError::Faulty(line)) => {
            let fault = refused_at(alloc, &over, sources, line)?;
            Ok(TestsTold::Fault(fault))
        }
    }
}
