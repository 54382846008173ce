//! What holds of checking itself. Each law is a function with an empty body, whose contract is the law.

ghost use Rattle.std.specs.Prelude.{◌≡◌, IfOk};
ghost use Rattle.sfc_base.specs.declared.var_type.VarType.{VarType};
ghost use Rattle.sfc_expr.specs.Types.{Declared, HasType, IsTyped};
ghost use Rattle.sfc_text.specs.Trees.{Tree, Block};
ghost use Rattle.sfc_text.specs.declared.expression.Variable.{Variable};
ghost use Rattle.sfc_check.specs.Scopes.{Names, IgnoresCase, SameName, Declares, referent_of};
ghost use Rattle.sfc_check.specs.Checking.{checked, checked_body};

/// Two names that differ in the case of letters alone stand for the same (2.1.2).
pub fn names_in_any_case()
    ensures { (names : Names) (one other : Variable) →
        IgnoresCase names → SameName one other → referent_of names one ≡ referent_of names other }
{}

/// An expression that was checked has the type that was wanted of it.
pub fn checked_has_type()
    ensures { (names : Names) (declared : Declared) (e : Tree) (t : VarType) →
        Declares names declared → IfOk (checked names e t) (λ x. HasType declared x t) }
{}

/// Statements that were checked are typed.
pub fn checked_body_is_typed()
    ensures { (names : Names) (declared : Declared) (block : Block) →
        Declares names declared → IfOk (checked_body names block) (IsTyped declared) }
{}
