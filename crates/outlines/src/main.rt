//! Prints the outline of the chart on standard input: a line for each thing that is declared, with its bytes and those of its name, and
//! then one for each name that is used, with the bytes of the name that it means.
#![tactic(auto)]

use anyhow::bail;
use sfc_outline::mention::Declared;
use sfc_outline::outline::{Outline, outline_of};
use sfc_text::read::read;
use sfc_tokens::span::Span;
use std::io::Read;
use std::process::ExitCode;

// Prints what is declared.
fn print_entries(rt: &HostRuntime, outline: &Outline) -> anyhow::Result<()> {
    for entry in &outline.entries {
        let (item, Span { from, to }) = (entry.item, entry.span);
        match entry.name {
            Some(name) => println!(rt; "{item:?} {from}-{to} {}-{}", name.from, name.to)?,
            None => println!(rt; "{item:?} {from}-{to}")?,
        }
    }
    Ok(())
}

// Prints which names are used.
fn print_mentions(rt: &HostRuntime, outline: &Outline) -> anyhow::Result<()> {
    for mention in &outline.mentions {
        let Span { from, to } = mention.span;
        match mention.declared {
            Some(Declared { item, name }) => {
                println!(rt; "at {from}-{to} {item:?} {}-{}", name.from, name.to)?;
            }
            None => println!(rt; "at {from}-{to} nothing")?,
        }
    }
    Ok(())
}

fn main(rt: HostRuntime) -> anyhow::Result<ExitCode> {
    let mut text = Vec::new(rt.alloc());
    rt.stdin().read_to_end(&mut text)?;
    let source = match read(rt.alloc(), &text) {
        Ok(source) => source,
        Err(error) => bail!("{} at line {}", error.kind.name(), error.line),
    };
    let outline = outline_of(rt.alloc(), &text, &source)?;
    print_entries(&rt, &outline)?;
    print_mentions(&rt, &outline)?;
    Ok(ExitCode::from(0))
}
