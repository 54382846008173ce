//! Results for tools that read the XML of JUnit.

ghost use Rattle.std.specs.Prelude.{◌≡◌, ◌++◌, OnOk};
ghost use Rattle.sfc_test.specs.Documents as text;

use crate::part::{Part, append_part};
use sfc_page::append::{append, append_number};
use std::alloc::AllocError;

// Whether XML takes a byte as it is: a line end, or a character of ASCII from the blank on.
fn is_plain(byte: u8) -> bool
    ensures { result ≡ text.is_plain byte }
{
    byte == b'\n' || (32 <= byte && byte <= 126)
}

// Puts a byte at the end that is no markup; what is no character that XML takes is a question mark.
fn append_plain(out: &mut Vec<u8>, byte: u8) -> Result<(), AllocError>
    ensures { OnOk result (out.new.items ≡ out.old.items ++ text.plain_text byte) }
{
    if byte == b'\t' {
        return append(out, b" ");
    }
    if is_plain(byte) {
        append(out, &[byte])
    } else {
        append(out, b"?")
    }
}

// What stands for a byte of markup.
fn markup_of(byte: u8) -> Option<Part>
    ensures { result ≡ text.markup_of byte }
{
    match byte {
        b'&' => Some(Part::Ampersand),
        b'<' => Some(Part::Less),
        b'>' => Some(Part::Greater),
        b'"' => Some(Part::Quote),
        _ => None,
    }
}

// Puts a byte of a text at the end.
fn append_byte(out: &mut Vec<u8>, byte: u8) -> Result<(), AllocError>
    ensures { OnOk result (out.new.items ≡ out.old.items ++ text.byte_text byte) }
{
    match markup_of(byte) {
        Some(part) => append_part(out, part),
        None => append_plain(out, byte),
    }
}

// Puts a text at the end that stands within an element or an attribute.
#[tactic(auto, unfolding(crate::specs::Documents::xml_text))]
fn append_text(out: &mut Vec<u8>, bytes: &[u8]) -> Result<(), AllocError>
    ensures { OnOk result (out.new.items ≡ out.old.items ++ text.xml_text bytes.now) }
{
    for byte in bytes {
        append_byte(out, *byte)?;
    }
    Ok(())
}

// Puts the title of a case at the end.
#[tactic(auto, unfolding(crate::specs::Documents::title_text))]
fn append_title(out: &mut Vec<u8>, title: &[u8]) -> Result<(), AllocError>
    ensures { OnOk result (out.new.items ≡ out.old.items ++ text.title_text title.now) }
{
    append_part(out, Part::TitleBegins)?;
    append_text(out, title)?;
    append_part(out, Part::TitleEnds)
}

// Puts the beginning of the element of a case at the end.
#[tactic(auto, unfolding(crate::specs::Documents::case_text))]
fn append_case(out: &mut Vec<u8>, file: &[u8], title: &[u8]) -> Result<(), AllocError>
    ensures { OnOk result (out.new.items ≡ out.old.items ++ text.case_text file.now title.now) }
{
    append_part(out, Part::CaseBegins)?;
    append_text(out, file)?;
    append_title(out, title)
}

/// Puts the element of a case at the end that passed. The one error is that memory was refused.
#[tactic(auto, unfolding(crate::specs::Documents::passed_element))]
pub fn append_passed(out: &mut Vec<u8>, file: &[u8], title: &[u8]) -> Result<(), AllocError>
    ensures { OnOk result (out.new.items ≡ out.old.items ++ text.passed_element file.now title.now) }
{
    append_case(out, file, title)?;
    append_part(out, Part::CaseEnds)
}

// Puts what is told of a case that failed at the end.
#[tactic(auto, unfolding(crate::specs::Documents::failure_text))]
fn append_failure(out: &mut Vec<u8>, told: &[u8]) -> Result<(), AllocError>
    ensures { OnOk result (out.new.items ≡ out.old.items ++ text.failure_text told.now) }
{
    append_part(out, Part::FailureBegins)?;
    append_text(out, told)?;
    append_part(out, Part::FailureEnds)
}

/// Puts the element of a case at the end that failed, of which this is told. The one error is that memory was refused.
#[tactic(auto, unfolding(crate::specs::Documents::failed_element))]
pub fn append_failed(
    out: &mut Vec<u8>,
    file: &[u8],
    title: &[u8],
    told: &[u8],
) -> Result<(), AllocError>
    ensures { OnOk result (out.new.items ≡ out.old.items ++ text.failed_element file.now title.now told.now) }
{
    append_case(out, file, title)?;
    append_failure(out, told)
}

// Puts at the end how many cases there were, and how many of them failed.
#[tactic(auto, unfolding(crate::specs::Documents::counts_attributes))]
fn append_counts(out: &mut Vec<u8>, tests: u64, failures: u64) -> Result<(), AllocError>
    ensures { OnOk result (out.new.items ≡ out.old.items ++ text.counts_attributes tests failures) }
{
    append_part(out, Part::TestsBegin)?;
    append_number(out, tests)?;
    append_part(out, Part::FailuresBegin)?;
    append_number(out, failures)
}

// Puts the elements of the cases at the end, and the end of the document.
#[tactic(auto, unfolding(crate::specs::Documents::elements_text))]
fn append_elements(out: &mut Vec<u8>, elements: &[u8]) -> Result<(), AllocError>
    ensures { OnOk result (out.new.items ≡ out.old.items ++ text.elements_text elements.now) }
{
    append_part(out, Part::CasesBegin)?;
    append(out, elements)?;
    append_part(out, Part::DocumentEnds)
}

/// Puts the document of a chart of this name at the end, with so many cases, so many of which failed, and their elements. The one error is
/// that memory was refused.
#[tactic(auto, unfolding(crate::specs::Documents::document))]
pub fn append_document(
    out: &mut Vec<u8>,
    chart: &[u8],
    tests: u64,
    failures: u64,
    elements: &[u8],
) -> Result<(), AllocError>
    ensures { OnOk result (out.new.items ≡ out.old.items ++ text.document chart.now tests failures elements.now) }
{
    append_part(out, Part::DocumentBegins)?;
    append_text(out, chart)?;
    append_counts(out, tests, failures)?;
    append_elements(out, elements)
}
