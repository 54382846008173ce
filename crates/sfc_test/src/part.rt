//! What stands between the parts of a text.

ghost use Rattle.std.specs.Prelude.{◌≡◌, ◌++◌, OnOk};
ghost use Rattle.sfc_test.specs.Parts.{part_text};

use sfc_page::append::append;
use std::alloc::AllocError;

/// What stands between the parts of a text.
#[derive(Clone, Copy, Debug, PartialEq, Eq)]
pub enum Part {
    LineEnd,
    /// Before the title of a case that passed, and of one that failed.
    Passed,
    Failed,
    /// Before what is told of a case that failed.
    Indent,
    /// Behind the number of those that passed, and of those that failed.
    PassedCount,
    FailedCount,
    /// The same in the Test Anything Protocol, and what stands before the number of cases.
    TapPassed,
    TapFailed,
    TapDash,
    TapComment,
    TapPlan,
    /// Before a file's name and a title in XML, and behind those.
    CaseBegins,
    TitleBegins,
    TitleEnds,
    /// Behind an element without more, and around what is told of a case that failed.
    CaseEnds,
    FailureBegins,
    FailureEnds,
    /// Before the chart's name, the number of cases, the number of those that failed and the cases in XML, and behind those.
    DocumentBegins,
    TestsBegin,
    FailuresBegin,
    CasesBegin,
    DocumentEnds,
    /// What stands in XML for bytes of markup.
    Ampersand,
    Less,
    Greater,
    Quote,
}

// What stands between parts.
#[tactic(auto, unfolding(crate::specs::Parts::part_text))]
fn text_of(part: Part) -> &'static [u8]
    ensures { result.now ≡ part_text part }
{
    match part {
        Part::LineEnd => b"\n",
        Part::Passed => b"ok ",
        Part::Failed => b"FAILED ",
        Part::Indent => b"  ",
        Part::PassedCount => b" passed, ",
        Part::FailedCount => b" failed\n",
        Part::TapPassed => b"ok ",
        Part::TapFailed => b"not ok ",
        Part::TapDash => b" - ",
        Part::TapComment => b"# ",
        Part::TapPlan => b"1..",
        Part::CaseBegins => b"<testcase classname=\"",
        Part::TitleBegins => b"\" name=\"",
        Part::TitleEnds => b"\"",
        Part::CaseEnds => b"/>\n",
        Part::FailureBegins => b">\n<failure>",
        Part::FailureEnds => b"</failure>\n</testcase>\n",
        Part::DocumentBegins => {
            b"<?xml version=\"1.0\" encoding=\"UTF-8\"?>\n<testsuites>\n<testsuite name=\""
        }
        Part::TestsBegin => b"\" tests=\"",
        Part::FailuresBegin => b"\" failures=\"",
        Part::CasesBegin => b"\" errors=\"0\">\n",
        Part::DocumentEnds => b"</testsuite>\n</testsuites>\n",
        Part::Ampersand => b"&amp;",
        Part::Less => b"&lt;",
        Part::Greater => b"&gt;",
        Part::Quote => b"&quot;",
    }
}

/// Puts what stands there at the end. The one error is that memory was refused.
pub fn append_part(out: &mut Vec<u8>, part: Part) -> Result<(), AllocError>
    ensures { OnOk result (out.new.items ≡ out.old.items ++ part_text part) }
{
    append(out, text_of(part))
}
