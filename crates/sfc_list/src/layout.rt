//! Lines and indentation.

ghost use Rattle.std.specs.Prelude.{[]};
ghost use Rattle.sfc_list.specs.Layout as layout;
ghost use Rattle.sfc_list.specs.Private.Sinking.{Puts, joined};

use crate::sink::Sink;
use std::io::Write;

/// Writes two spaces for each level.
#[tactic(auto, using(crate::proofs::Indents::deeper, crate::proofs::Indents::nothing, crate::proofs::Sunk::puts_then, crate::proofs::Sunk::puts_nothing))]
pub fn put_indent<W: Write>(level: usize, out: &mut Sink<'_, W>)
    ensures { Puts W.contents out.old out.new (layout.indent level) }
{
    if level > 0 {
        out.put(b"  ");
        put_indent(level - 1, out);
    }
}

/// Writes the parts as one line.
#[tactic(auto, using(crate::proofs::Sunk::puts_then))]
pub fn put_line<W: Write>(level: usize, parts: &[&[u8]], out: &mut Sink<'_, W>)
    ensures { Puts W.contents out.old out.new (layout.line level (joined [] parts.now)) }
{
    put_indent(level, out);
    out.put_parts(parts);
    out.put(b"\n");
}
