//! What holds of loaded plants. Each law is a function with an empty body, whose contract is the law.

ghost use Rattle.std.specs.Prelude.{◌≡◌, ℕ, slice_get, Some};
ghost use Rattle.sfc_base.specs.NameLists.{place_of};
ghost use Rattle.sfc_base.specs.declared.ids.ProgId.{ProgId};
ghost use Rattle.sfc_text.specs.Trees.{ProgramTree, SourceTree};
ghost use Rattle.sfc_text.specs.declared.tree.Instance.{Instance};
ghost use Rattle.sfc_program.specs.sfc_variables.Declarations.{globals_of};
ghost use Rattle.sfc_plant.specs.InstanceSpaces as instances;
ghost use Rattle.sfc_program.specs.Loading as loading;
ghost use Rattle.sfc_load.specs.Loading.{program_names};
ghost use Rattle.sfc_load.specs.Built.{plant_of};

/// What names stand for in an instance of the plant that a text is, as `scope_of` tells it, is what they stood for where
/// the transitions of its program type were checked.
pub fn checked_scope()
    ensures { (s : SourceTree) (i : ProgId) (written : Instance) (place : ℕ) (p : ProgramTree)
        → slice_get s.configuration.instances i.0 ≡ Some written
        → place_of written.program (program_names s.programs) ≡ Some place
        → slice_get s.programs place ≡ Some p
        → instances.space_of (plant_of s) i ≡ loading.space_of (globals_of s.configuration.globals) p }
{}
