//! The text of actions (2.6.4.1).

ghost use Rattle.sfc_list.specs.Layout.{line};
ghost use Rattle.sfc_list.specs.Charts as text;
ghost use Rattle.sfc_list.specs.Private.Sinking.{Puts};

use crate::sink::Sink;
use crate::statement::{BodyContext, put_statements};
use sfc_plant::action::Action;
use sfc_plant::names::Names;
use std::io::Write;

// Writes how an action begins.
#[tactic(auto, using(crate::proofs::Sunk::puts_then))]
fn put_action_head<W: Write>(action: &Action, out: &mut Sink<'_, W>)
    ensures { Puts W.contents out.old out.new (text.action_head action.now) }
{
    out.put(b"ACTION ");
    out.put(action.name.spelling());
    out.put(b":");
}

// Writes how an action begins, on a line.
fn put_action_line<W: Write>(action: &Action, out: &mut Sink<'_, W>)
    ensures { Puts W.contents out.old out.new (line 1 (text.action_head action.now)) }
{
    out.put(b"  ");
    put_action_head(action, out);
    out.put(b"\n");
}

/// Writes an action.
pub fn put_action<W: Write>(names: &Names, action: &Action, out: &mut Sink<'_, W>)
    ensures { Puts W.contents out.old out.new (text.action_text names.now action.now) }
{
    let at = BodyContext {
        names,
        own: action.name.spelling(),
        level: 2,
    };
    put_action_line(action, out);
    put_statements(&at, action.body.as_slice(), out);
    out.put(b"  END_ACTION\n");
}
