//! The tokens of what a response tells. The one error of each call is that memory was refused.

ghost use Rattle.std.specs.Prelude.{◌≡◌, OnOk, codes};
ghost use Rattle.serde_json.specs.Data.{array};
ghost use Rattle.serde_json.specs.Written.{WritesItems, WritesValue};
ghost use Rattle.sfc_responses.specs.Bodies as bodies;
ghost use Rattle.sfc_responses.specs.Private.Members.{WritesMember, WritesRest};

use crate::body::Body;
use crate::position::{Position, Range};
use crate::symbol::{Group, Located, Symbol};
use json::Writer;
use std::alloc::AllocError;

// Writes a member that is a number.
fn put_count(out: &mut Writer, key: &str, number: usize) -> Result<(), AllocError>
    ensures ok { OnOk result (WritesMember key.now (bodies.count number) out.old.tokens out.new.tokens) }
    ensures before { out.new.before ≡ out.old.before }
{
    out.key(key)?;
    out.u64(number as u64)
}

// Writes a member that is a text.
fn put_text(out: &mut Writer, key: &str, text: &str) -> Result<(), AllocError>
    ensures ok { OnOk result (WritesMember key.now (bodies.text text.now) out.old.tokens out.new.tokens) }
    ensures before { out.new.before ≡ out.old.before }
{
    out.key(key)?;
    out.string(text)
}

// Writes a member that is a place.
fn put_position(out: &mut Writer, key: &str, position: Position) -> Result<(), AllocError>
    ensures ok { OnOk result (WritesMember key.now (bodies.position_of position) out.old.tokens out.new.tokens) }
    ensures before { out.new.before ≡ out.old.before }
{
    out.key(key)?;
    out.begin_object()?;
    put_count(out, "character", position.character)?;
    put_count(out, "line", position.line)?;
    out.end_object()
}

// Writes a member that is a range.
fn put_range(out: &mut Writer, key: &str, range: Range) -> Result<(), AllocError>
    ensures ok { OnOk result (WritesMember key.now (bodies.range_of range) out.old.tokens out.new.tokens) }
    ensures before { out.new.before ≡ out.old.before }
{
    out.key(key)?;
    out.begin_object()?;
    put_position(out, "end", range.to)?;
    put_position(out, "start", range.from)?;
    out.end_object()
}

// Writes the members of a symbol, and the end of its object.
fn put_rest(out: &mut Writer, symbol: &Symbol) -> Result<(), AllocError>
    ensures ok { OnOk result (WritesRest (bodies.members_of symbol.now) out.old.tokens out.new.tokens) }
    ensures before { out.new.before ≡ out.old.before }
{
    put_count(out, "kind", symbol.kind as usize)?;
    put_text(out, "name", symbol.name.as_str())?;
    put_range(out, "range", symbol.range)?;
    put_range(out, "selectionRange", symbol.selection)?;
    out.end_object()
}

// Writes a symbol.
fn put_symbol(out: &mut Writer, symbol: &Symbol) -> Result<(), AllocError>
    ensures ok { OnOk result (WritesValue (bodies.symbol_of symbol.now) out.old.tokens out.new.tokens) }
    ensures before { out.new.before ≡ out.old.before }
{
    out.begin_object()?;
    put_rest(out, symbol)
}

// Writes symbols, and the end of their list.
fn put_symbols(out: &mut Writer, symbols: &[Symbol]) -> Result<(), AllocError>
    ensures ok { OnOk result (WritesItems (bodies.symbols_of symbols.now) out.old.tokens out.new.tokens) }
    ensures before { out.new.before ≡ out.old.before }
{
    let mut rest = symbols;
    'all: while let Some((symbol, behind)) = rest.split_first() {
        put_symbol(out, symbol)?;
        rest = behind;
    }
    out.end_array()
}

// Writes the member of the symbols that stand in another one.
fn put_children(out: &mut Writer, inner: &[Symbol]) -> Result<(), AllocError>
    ensures ok { OnOk result (WritesMember (codes "children") (array (bodies.symbols_of inner.now)) out.old.tokens out.new.tokens) }
    ensures before { out.new.before ≡ out.old.before }
{
    out.key("children")?;
    out.begin_array()?;
    put_symbols(out, inner)
}

// Writes a symbol in which these stand.
fn put_nest(out: &mut Writer, head: &Symbol, inner: &[Symbol]) -> Result<(), AllocError>
    ensures ok { OnOk result (WritesValue (bodies.nest_of head.now inner.now) out.old.tokens out.new.tokens) }
    ensures before { out.new.before ≡ out.old.before }
{
    out.begin_object()?;
    put_children(out, inner)?;
    put_rest(out, head)
}

// Writes a symbol with those in it, if there are any.
fn put_group(out: &mut Writer, group: &Group) -> Result<(), AllocError>
    ensures ok { OnOk result (WritesValue (bodies.group_of group.now) out.old.tokens out.new.tokens) }
    ensures before { out.new.before ≡ out.old.before }
{
    if group.inner.is_empty() {
        put_symbol(out, &group.head)
    } else {
        put_nest(out, &group.head, &group.inner)
    }
}

// Writes symbols with those in them, and the end of their list.
fn put_groups(out: &mut Writer, groups: &[Group]) -> Result<(), AllocError>
    ensures ok { OnOk result (WritesItems (bodies.groups_of groups.now) out.old.tokens out.new.tokens) }
    ensures before { out.new.before ≡ out.old.before }
{
    let mut rest = groups;
    'all: while let Some((group, behind)) = rest.split_first() {
        put_group(out, group)?;
        rest = behind;
    }
    out.end_array()
}

// Writes a member that is a place in a document.
fn put_location(out: &mut Writer, symbol: &Located) -> Result<(), AllocError>
    ensures ok { OnOk result (WritesMember (codes "location") (bodies.location_of symbol.now) out.old.tokens out.new.tokens) }
    ensures before { out.new.before ≡ out.old.before }
{
    out.key("location")?;
    out.begin_object()?;
    put_range(out, "range", symbol.range)?;
    put_text(out, "uri", symbol.uri.as_str())?;
    out.end_object()
}

// Writes a symbol with its document.
fn put_located(out: &mut Writer, symbol: &Located) -> Result<(), AllocError>
    ensures ok { OnOk result (WritesValue (bodies.located_of symbol.now) out.old.tokens out.new.tokens) }
    ensures before { out.new.before ≡ out.old.before }
{
    out.begin_object()?;
    put_text(out, "containerName", symbol.around.as_str())?;
    put_count(out, "kind", symbol.kind as usize)?;
    put_location(out, symbol)?;
    put_text(out, "name", symbol.name.as_str())?;
    out.end_object()
}

// Writes symbols with their documents, and the end of their list.
fn put_list(out: &mut Writer, symbols: &[Located]) -> Result<(), AllocError>
    ensures ok { OnOk result (WritesItems (bodies.list_of symbols.now) out.old.tokens out.new.tokens) }
    ensures before { out.new.before ≡ out.old.before }
{
    let mut rest = symbols;
    'all: while let Some((symbol, behind)) = rest.split_first() {
        put_located(out, symbol)?;
        rest = behind;
    }
    out.end_array()
}

// Writes numbers, and the end of their list.
fn put_numbers(out: &mut Writer, numbers: &[usize]) -> Result<(), AllocError>
    ensures ok { OnOk result (WritesItems (bodies.counts_of numbers.now) out.old.tokens out.new.tokens) }
    ensures before { out.new.before ≡ out.old.before }
{
    let mut rest = numbers;
    'all: while let Some((number, behind)) = rest.split_first() {
        out.u64(*number as u64)?;
        rest = behind;
    }
    out.end_array()
}

// Writes an object whose one member is a list of numbers.
fn put_data(out: &mut Writer, numbers: &[usize]) -> Result<(), AllocError>
    ensures ok { OnOk result (WritesValue (bodies.data_of numbers.now) out.old.tokens out.new.tokens) }
    ensures before { out.new.before ≡ out.old.before }
{
    out.begin_object()?;
    out.key("data")?;
    out.begin_array()?;
    put_numbers(out, numbers)?;
    out.end_object()
}

/// Writes what is told.
pub fn put_body(out: &mut Writer, body: Body<'_>) -> Result<(), AllocError>
    ensures ok { OnOk result (WritesValue (bodies.body_of body.entry) out.old.tokens out.new.tokens) }
    ensures before { out.new.before ≡ out.old.before }
{
    match body {
        Body::Symbols(groups) => {
            out.begin_array()?;
            put_groups(out, groups)
        }
        Body::List(symbols) => {
            out.begin_array()?;
            put_list(out, symbols)
        }
        Body::Data(numbers) => put_data(out, numbers),
    }
}
