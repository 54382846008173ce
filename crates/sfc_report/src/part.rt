//! The parts of a page.

use crate::behaviour::BEHAVIOUR;
use crate::escaped::append_element;
use crate::style::STYLE;
use base64::engine::general_purpose::STANDARD;
use sfc_page::append::append;
use std::alloc::{AllocError, Global};

/// Puts a picture in SVG that stands by itself, so that its ids are none of the page's. The one error is that memory was refused; then a front
/// of it may stand there.
pub fn append_picture(alloc: Global, out: &mut Vec<u8>, svg: &[u8]) -> Result<(), AllocError> {
    append(out, b"<img alt=\"\" src=\"data:image/svg+xml;base64,")?;
    let text = STANDARD.encode(alloc, svg)?;
    append(out, text.as_bytes())?;
    append(out, b"\">\n")
}

/// Puts how the page begins. The one error is that memory was refused; then a front of it may stand there.
pub fn append_head(out: &mut Vec<u8>, name: &[u8]) -> Result<(), AllocError> {
    append(
        out,
        b"<!DOCTYPE html>\n<html lang=\"en\">\n<head>\n<meta charset=\"utf-8\">\n\
        <meta name=\"viewport\" content=\"width=device-width, initial-scale=1\">\n\
        <meta http-equiv=\"Content-Security-Policy\" content=\"default-src 'none'; style-src 'unsafe-inline'; script-src 'unsafe-inline'; img-src data:\">\n",
    )?;
    append_element(out, b"<title>", name, b": report</title>\n")?;
    append(out, STYLE)?;
    append_element(out, b"</head>\n<body>\n<h1>", name, b"</h1>\n")
}

/// Puts what stands in front of the charts: which run is shown, at which of its commands. The one error is that memory was refused; then a
/// front of it may stand there.
pub fn append_controls(out: &mut Vec<u8>) -> Result<(), AllocError> {
    append(
        out,
        b"<section id=\"live\">\n<h2>Step by step</h2>\n<div class=\"controls\">\n\
        <label>Script <select id=\"which\"></select></label>\n\
        <button id=\"before\" title=\"the scan before\">&lt;</button>\n\
        <input id=\"place\" type=\"range\" min=\"0\" value=\"0\" aria-label=\"place in the script\">\n\
        <button id=\"behind\" title=\"the next scan\">&gt;</button>\n\
        <output id=\"said\"></output>\n</div>\n<div class=\"columns\">\n<div id=\"charts\">\n",
    )
}

/// Puts what stands behind the charts: values, faults, and the waveform. The one error is that memory was refused; then a front of it may
/// stand there.
pub fn append_panels(out: &mut Vec<u8>) -> Result<(), AllocError> {
    append(
        out,
        b"</div>\n<table id=\"values\"><thead><tr><th>variable</th><th>value</th></tr></thead><tbody></tbody></table>\n</div>\n\
        <div id=\"signals\"><canvas id=\"waveform\"></canvas></div>\n</section>\n\
        <section><h2>Faults, hits and refusals</h2>\n<ol id=\"events\"></ol>\n</section>\n",
    )
}

/// Puts where the report is signed, and what the page does. The one error is that memory was refused; then a front of it may stand there.
pub fn append_end(out: &mut Vec<u8>) -> Result<(), AllocError> {
    append(
        out,
        b"<section class=\"sign\"><h2>Record</h2>\n<p>Machine<span></span></p><p>Date<span></span></p><p>Name<span></span></p>\
        <p>Signature<span></span></p>\n</section>\n<script>\n",
    )?;
    append(out, BEHAVIOUR)?;
    append(out, b"</script>\n</body>\n</html>\n")
}
