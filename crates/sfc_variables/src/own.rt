//! The variables of a program type: its own, and the globals that it names (2.4.3, 2.5.3).

use crate::declaration::new_variable;
use sfc_base::items::Items;
use sfc_base::name::Name;
use sfc_base::references::GlobalId;
use sfc_base::var_type::VarType;
use sfc_check::detail::Detail;
use sfc_check::placed_error::PlacedLoadError;
use sfc_events::load_error::LoadError;
use sfc_plant::name_table::NameTable;
use sfc_plant::variable::Variable;
use sfc_plant::variable_table::VariableTable;
use sfc_text::tree::{Declaration, External, VariableBlock};
use sfc_tokens::placed::Placed;
use std::alloc::Global;
use std::marker::Model;

/// The variables of a program type: those of VAR blocks, the globals that VAR_EXTERNAL blocks name, and the names of
/// both in text order.
#[derive(Drop)]
pub struct OwnVariables {
    pub locals: VariableTable,
    pub externals: Items<GlobalId>,
    pub names: NameTable,
}

// The variables of a program type while they are read.
#[derive(Drop)]
struct OwnDraft {
    locals: Vec<Variable>,
    local_names: NameTable,
    externals: Vec<GlobalId>,
    names: NameTable,
}

impl Model for OwnDraft {
    ghost use Rattle.sfc_variables.specs.declared.own.OwnVariables.{OwnVariables};
    ghost use Rattle.sfc_variables.specs.Drafts.{drafted, IsDraft};

    ghost Value = { OwnVariables };

    ghost view = { drafted };

    ghost invariant = { IsDraft };
}

ghost use Rattle.std.specs.Prelude.{◌≡◌, ◌++◌, ◌∷◌, [], flat_map, OnOk};
ghost use Rattle.sfc_variables.specs.Checks.{Loads, in_turn};
ghost use Rattle.sfc_variables.specs.Declarations.{declared_name, declared_as, declared_by, declared_in, global_check};
ghost use Rattle.sfc_variables.specs.Own as own;
ghost use Rattle.sfc_variables.specs.Own.{AnExternal, own_name, own_check, own_by, own_in, named_by, variables_check, own_of};
ghost use Rattle.sfc_variables.specs.Drafts.{extended, with_declared};

// No variables yet.
fn no_variables(alloc: Global) -> OwnDraft
    ensures { result ≡ record { locals = []; externals = []; names = [] } }
{
    OwnDraft {
        locals: Vec::new(alloc),
        local_names: NameTable::new(alloc),
        externals: Vec::new(alloc),
        names: NameTable::new(alloc),
    }
}

// With one more name of a VAR block.
#[tactic(auto, using(crate::proofs::Within::more_table, crate::proofs::Within::more_within))]
fn with_local(
    alloc: Global,
    name: &Placed<Name>,
    declaration: &Declaration,
    draft: OwnDraft,
) -> Result<OwnDraft, PlacedLoadError>
    ensures { let more : _ = declared_as declaration.now name.now in
        Loads (λ own. own) result (global_check draft.names more) (with_declared draft (more ∷ [])) }
{
    let OwnDraft {
        mut locals,
        mut local_names,
        externals,
        mut names,
    } = draft;
    let variable = new_variable(alloc, name, declaration, &mut names)?;
    locals.push(variable)?;
    local_names.add(alloc, name.spelling())?;
    Ok(OwnDraft {
        locals,
        local_names,
        externals,
        names,
    })
}

// With one more name of a VAR_EXTERNAL block.
#[tactic(auto, using(crate::proofs::Within::within_more))]
fn with_external(
    alloc: Global,
    name: &Placed<Name>,
    var_type: VarType,
    globals: &VariableTable,
    draft: OwnDraft,
) -> Result<OwnDraft, PlacedLoadError>
    ensures { let more : _ = AnExternal name.now var_type in
        Loads (λ own. own) result (own_check globals.now draft.names more) (extended globals.now draft (more ∷ [])) }
{
    let OwnDraft {
        locals,
        local_names,
        mut externals,
        mut names,
    } = draft;
    let external = new_external(alloc, name, var_type, globals, &mut names)?;
    externals.push(external)?;
    Ok(OwnDraft {
        locals,
        local_names,
        externals,
        names,
    })
}

// The global of this name and type.
fn external_of(
    name: &Placed<Name>,
    var_type: VarType,
    globals: &VariableTable,
) -> Result<GlobalId, PlacedLoadError>
    ensures { Loads (λ id. id) result (own.kind_check globals.now (AnExternal name.now var_type)) (own.global_id globals.now name.now) }
{
    let Some(place) = globals.find(name.spelling()) else {
        return Err(PlacedLoadError::new(LoadError::Unknown, name.span()));
    };
    match globals.as_slice().get(place) {
        Some(variable) if variable.var_type == var_type => Ok(GlobalId(place)),
        Some(variable) => {
            let detail = Detail::mismatch(variable.var_type, var_type);
            Err(PlacedLoadError::told(LoadError::WrongType, name.span(), detail))
        }
        None => Err(PlacedLoadError::new(LoadError::Unknown, name.span())),
    }
}

// One name of a VAR_EXTERNAL block as its global, and among the names before it.
fn new_external(
    alloc: Global,
    name: &Placed<Name>,
    var_type: VarType,
    globals: &VariableTable,
    names: &mut NameTable,
) -> Result<GlobalId, PlacedLoadError>
    ensures loads { let more : _ = AnExternal name.now var_type in
        Loads (λ id. id) result (own_check globals.now names.old more) (own.global_id globals.now name.now) }
    ensures named { OnOk result (names.new ≡ names.old ++ name.now ∷ []) }
{
    if !names.add(alloc, name.spelling())? {
        return Err(PlacedLoadError::new(LoadError::Duplicate, name.span()));
    }
    external_of(name, var_type, globals)
}

// With all names of a declaration of a VAR block.
fn with_declaration(
    alloc: Global,
    declaration: &Declaration,
    draft: OwnDraft,
) -> Result<OwnDraft, PlacedLoadError>
    ensures { let more : _ = declared_by declaration.now in
        Loads (λ own. own) result (in_turn declared_name global_check draft.names more) (with_declared draft more) }
{
    let mut draft = draft;
    let mut rest = declaration.names.as_slice();
    'names: while let Some((name, after)) = rest.split_first() {
        draft = with_local(alloc, name, declaration, draft)?;
        rest = after;
    }
    Ok(draft)
}

// With all names of a declaration of a VAR block, wherever it stands.
fn with_placed(
    alloc: Global,
    declaration: &Placed<Declaration>,
    draft: OwnDraft,
) -> Result<OwnDraft, PlacedLoadError>
    ensures { let more : _ = declared_by declaration.now in
        Loads (λ own. own) result (in_turn declared_name global_check draft.names more) (with_declared draft more) }
{
    with_declaration(alloc, declaration.value(), draft)
}

// With all names of a VAR block.
#[tactic(auto, using(crate::proofs::Checks::more_checked, crate::proofs::Checks::more_fails, crate::proofs::Extending::more_declared))]
fn with_locals(
    alloc: Global,
    declarations: &[Placed<Declaration>],
    draft: OwnDraft,
) -> Result<OwnDraft, PlacedLoadError>
    ensures { let more : _ = declared_in declarations.now in
        Loads (λ own. own) result (in_turn declared_name global_check draft.names more) (with_declared draft more) }
{
    let mut draft = draft;
    let mut rest = declarations;
    'declarations: while let Some((declaration, after)) = rest.split_first() {
        draft = with_placed(alloc, declaration, draft)?;
        rest = after;
    }
    Ok(draft)
}

// With all names of a declaration of a VAR_EXTERNAL block.
fn with_named(
    alloc: Global,
    external: &External,
    globals: &VariableTable,
    draft: OwnDraft,
) -> Result<OwnDraft, PlacedLoadError>
    ensures { let more : _ = named_by external.now in
        Loads (λ own. own) result (in_turn own_name (own_check globals.now) draft.names more) (extended globals.now draft more) }
{
    let mut draft = draft;
    let mut rest = external.names.as_slice();
    'names: while let Some((name, after)) = rest.split_first() {
        draft = with_external(alloc, name, external.var_type, globals, draft)?;
        rest = after;
    }
    Ok(draft)
}

// With all names of a VAR_EXTERNAL block.
#[tactic(auto, using(crate::proofs::Extending::more_checked, crate::proofs::Extending::more_fails, crate::proofs::Extending::more_extended))]
fn with_externals(
    alloc: Global,
    externals: &[External],
    globals: &VariableTable,
    draft: OwnDraft,
) -> Result<OwnDraft, PlacedLoadError>
    ensures { let more : _ = flat_map named_by externals.now in
        Loads (λ own. own) result (in_turn own_name (own_check globals.now) draft.names more) (extended globals.now draft more) }
{
    let mut draft = draft;
    let mut rest = externals;
    'externals: while let Some((external, after)) = rest.split_first() {
        draft = with_named(alloc, external, globals, draft)?;
        rest = after;
    }
    Ok(draft)
}

// With all names of a block.
#[tactic(auto, using(crate::proofs::Extending::locals_checked, crate::proofs::Extending::locals_extended))]
fn with_block(
    alloc: Global,
    block: &VariableBlock,
    globals: &VariableTable,
    draft: OwnDraft,
) -> Result<OwnDraft, PlacedLoadError>
    ensures { let more : _ = own_by block.now in
        Loads (λ own. own) result (in_turn own_name (own_check globals.now) draft.names more) (extended globals.now draft more) }
{
    match block {
        VariableBlock::Local(declarations) => with_locals(alloc, declarations.as_slice(), draft),
        VariableBlock::External(externals) => {
            with_externals(alloc, externals.as_slice(), globals, draft)
        }
    }
}

// With all names of all blocks.
#[tactic(auto, using(crate::proofs::Extending::more_checked, crate::proofs::Extending::more_fails, crate::proofs::Extending::more_extended))]
fn with_blocks(
    alloc: Global,
    blocks: &[VariableBlock],
    globals: &VariableTable,
    draft: OwnDraft,
) -> Result<OwnDraft, PlacedLoadError>
    ensures { let more : _ = own_in blocks.now in
        Loads (λ own. own) result (in_turn own_name (own_check globals.now) draft.names more) (extended globals.now draft more) }
{
    let mut draft = draft;
    let mut rest = blocks;
    'all: while let Some((block, after)) = rest.split_first() {
        draft = with_block(alloc, block, globals, draft)?;
        rest = after;
    }
    Ok(draft)
}

/// The variables of a program type, whose globals are these, or the first fault in text order: `Duplicate` for a name
/// that stands twice; for an external `Unknown` or `WrongType` where no global has its name and type; else as for
/// globals.
#[tactic(auto, unfolding(crate::specs::Own::variables_check))]
pub fn load_own(
    alloc: Global,
    blocks: &[VariableBlock],
    globals: &VariableTable,
) -> Result<OwnVariables, PlacedLoadError>
    ensures { Loads (λ own. own) result (variables_check globals.now blocks.now) (own_of globals.now blocks.now) }
{
    let draft = with_blocks(alloc, blocks, globals, no_variables(alloc))?;
    let OwnDraft {
        locals,
        local_names,
        externals,
        names,
    } = draft;
    Ok(OwnVariables {
        locals: VariableTable::from_parts(locals, local_names),
        externals: Items::from_vec(externals),
        names,
    })
}
