//! The page.

use crate::contents::{Contents, Run, Source};
use crate::escaped::append_element;
use crate::facts::append_facts;
use crate::part::{append_controls, append_end, append_head, append_panels, append_picture};
use sfc_page::append::append;
use std::alloc::{AllocError, Global};

// Puts the table of runs.
fn append_runs(out: &mut Vec<u8>, scripts: &[Source<'_>], runs: &[Run]) -> Result<(), AllocError> {
    append(
        out,
        b"<h2>Runs</h2>\n<table id=\"runs\"><thead><tr><th>script</th><th>commands</th><th>refused</th><th>scans</th><th>hits</th>\
        <th>faults</th></tr></thead>\n<tbody>\n",
    )?;
    for (script, run) in scripts.iter().zip(runs) {
        run.append_row(out, script.name.as_bytes())?;
    }
    append(out, b"</tbody></table>\n")
}

// Puts what came of the tests, where there are some.
fn append_judged(out: &mut Vec<u8>, contents: &Contents<'_>) -> Result<(), AllocError> {
    if contents.tests.is_empty() {
        return Ok(());
    }
    append_element(
        out,
        b"<h2>Tests</h2>\n<pre id=\"tests\">",
        contents.judged,
        b"</pre>\n",
    )
}

// Puts the charts with what shows a run on them.
fn append_live(out: &mut Vec<u8>, charts: &[u8]) -> Result<(), AllocError> {
    append_controls(out)?;
    append(out, charts)?;
    append_panels(out)
}

// Puts how the program instances stand behind each script.
fn append_afters(
    alloc: Global,
    out: &mut Vec<u8>,
    scripts: &[Source<'_>],
    runs: &[Run],
) -> Result<(), AllocError> {
    for (script, run) in scripts.iter().zip(runs) {
        run.append_after(alloc, out, script.name.as_bytes())?;
    }
    Ok(())
}

// Puts what the page reads of the runs.
fn append_texts(out: &mut Vec<u8>, runs: &[Run]) -> Result<(), AllocError> {
    let mut place = 0usize;
    for run in runs {
        run.append_texts(out, place)?;
        place = place.saturating_add(1);
    }
    Ok(())
}

// Puts what the scripts reach together.
fn append_cover(
    alloc: Global,
    out: &mut Vec<u8>,
    contents: &Contents<'_>,
) -> Result<(), AllocError> {
    append_element(
        out,
        b"<section><h2>Coverage</h2>\n<pre id=\"coverage\">",
        contents.coverage,
        b"</pre>\n",
    )?;
    append_picture(alloc, out, contents.unreached)?;
    append(out, b"</section>\n")
}

/// The page of a report in HTML, which wants no network: versions and sums of the files, the outcome of each script, what came of each case of
/// tests, the program instances in the graphic form of charts with a slider over the commands that colours them, values and waveform at each
/// of them, faults, hits and refusals, how all stands behind each script, and what the scripts reach together. No byte of a name or of a text
/// is markup, but for those of drawings. The one error is that memory was refused.
pub fn page_of(alloc: Global, contents: &Contents<'_>) -> Result<Vec<u8>, AllocError> {
    let mut out = Vec::new(alloc);
    append_head(&mut out, contents.chart.name.as_bytes())?;
    append_facts(&mut out, contents)?;
    append_runs(&mut out, contents.scripts, contents.runs)?;
    append_judged(&mut out, contents)?;
    append_live(&mut out, contents.charts)?;
    append_cover(alloc, &mut out, contents)?;
    append_afters(alloc, &mut out, contents.scripts, contents.runs)?;
    append_texts(&mut out, contents.runs)?;
    append_end(&mut out)?;
    Ok(out)
}
