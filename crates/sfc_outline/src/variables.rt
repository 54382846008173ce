//! The variables that blocks declare.

use crate::draft::Draft;
use crate::item::Item;
use crate::spaces::Scope;
use sfc_text::tree::{Declaration, External, VariableBlock};
use sfc_tokens::placed::Placed;
use std::alloc::AllocError;

/// Puts the global variables last. The one error is that memory was refused.
pub fn outline_globals(
    declarations: &[Placed<Declaration>],
    draft: &mut Draft,
) -> Result<(), AllocError> {
    let mut global = 0usize;
    for declaration in declarations {
        for name in declaration.value().names.as_slice() {
            draft.declare(Item::Global { global }, declaration.span(), name)?;
            global = global.saturating_add(1);
        }
    }
    Ok(())
}

// Puts local variables last, before which there are so many; it answers how many there are then.
fn outline_locals(
    declarations: &[Placed<Declaration>],
    before: usize,
    program: usize,
    draft: &mut Draft,
) -> Result<usize, AllocError> {
    let mut local = before;
    for declaration in declarations {
        for name in declaration.value().names.as_slice() {
            draft.declare(Item::Local { program, local }, declaration.span(), name)?;
            local = local.saturating_add(1);
        }
    }
    Ok(local)
}

// Puts externals last, before which there are so many; it answers how many there are then.
fn outline_externals(
    externals: &[External],
    before: usize,
    scope: &Scope<'_>,
    draft: &mut Draft,
) -> Result<usize, AllocError> {
    let program = scope.program;
    let mut external = before;
    for written in externals {
        for name in written.names.as_slice() {
            let item = Item::External { program, external };
            draft.declare(item, name.span(), name)?;
            draft.mention(name, scope.shared.globals.find(name))?;
            external = external.saturating_add(1);
        }
    }
    Ok(external)
}

/// Puts the variables of a program type last. The one error is that memory was refused.
pub fn outline_blocks(
    blocks: &[VariableBlock],
    scope: &Scope<'_>,
    draft: &mut Draft,
) -> Result<(), AllocError> {
    let mut locals = 0usize;
    let mut externals = 0usize;
    for block in blocks {
        match block {
            VariableBlock::Local(declarations) => {
                locals = outline_locals(declarations.as_slice(), locals, scope.program, draft)?;
            }
            VariableBlock::External(written) => {
                externals = outline_externals(written.as_slice(), externals, scope, draft)?;
            }
        }
    }
    Ok(())
}
