//! What holds of listings themselves. Each law is a function with an empty body, whose contract is the law.

ghost use Rattle.std.specs.Prelude.{◌≡◌, ◌≤◌, ℕ, List, [], length, Option, None, unwrap_or, Ok, IfOk, IsTrue};
ghost use Rattle.sfc_base.specs.declared.run.Alphabet.TheVariants.{Location};
ghost use Rattle.sfc_base.specs.Runs.{Ends};
ghost use Rattle.sfc_tokens.specs.Spelling.{Spells};
ghost use Rattle.sfc_tokens.specs.Texts.{longest};
ghost use Rattle.sfc_text.specs.Spelled.{literal_tokens, tree_tokens};
ghost use Rattle.sfc_text.specs.SpelledCharts.{step_tokens, transition_tokens, action_tokens};
ghost use Rattle.sfc_text.specs.SpelledSources.{program_tokens, configuration_tokens, source_tokens};
ghost use Rattle.sfc_text.specs.SpelledStatements.{body_tokens};
ghost use Rattle.sfc_text.specs.Trees.{SourceTree, Tree};
ghost use Rattle.sfc_base.specs.declared.value.Value.{Value};
ghost use Rattle.sfc_base.specs.declared.var_type.VarType.{VarType};
ghost use Rattle.sfc_load.specs.sfc_check.Checking.{checked};
ghost use Rattle.sfc_expr.specs.Trees.{Expression, Body};
ghost use Rattle.sfc_expr.specs.Types.{lies_in_range};
ghost use Rattle.sfc_plant.specs.declared.variable.Variable.{Variable};
ghost use Rattle.sfc_plant.specs.declared.action.Action.{Action};
ghost use Rattle.sfc_plant.specs.declared.chart.Step.{Step};
ghost use Rattle.sfc_plant.specs.declared.chart.Transition.{Transition};
ghost use Rattle.sfc_plant.specs.declared.program_type.ProgramType.{ProgramType};
ghost use Rattle.sfc_plant.specs.Spaces.{Space};
ghost use Rattle.sfc_load.specs.sfc_program.Names.{names_in};
ghost use Rattle.sfc_load.specs.Accepted.{IsAccepted};
ghost use Rattle.sfc_load.specs.Built.{source_check, plant_of};
ghost use Rattle.sfc_plant.specs.Plants.{PlantData};
ghost use Rattle.sfc_list.specs.Charts.{step_text, transition_text, action_text};
ghost use Rattle.sfc_list.specs.Expressions.{expression_text};
ghost use Rattle.sfc_list.specs.Listing.{program_text, configuration_text, listing};
ghost use Rattle.sfc_read_back.specs.SpelledPlants.{CanSpellStep, CanSpellTransition, CanSpellAction, CanSpellProgram, CanSpellPlant};
ghost use Rattle.sfc_read_back.specs.SpelledTexts.{AreNames, AreBodyNames};
ghost use Rattle.sfc_list.specs.Statements.{body_text};
ghost use Rattle.sfc_list.specs.Values.{literal_text};
ghost use Rattle.sfc_read_back.specs.Written.{program_tree, configuration_tree, written};
ghost use Rattle.sfc_read_back.specs.WrittenCharts.{step_tree, transition_tree, action_tree};
ghost use Rattle.sfc_read_back.specs.WrittenTerms.{literal_tree, expression_tree, body_tree};

/// The tree that a listing spells of a loaded plant loads, as the equal plant.
pub fn spelled_plant_loads()
    ensures passes { (tree : SourceTree) → source_check tree ≡ None → source_check (written (plant_of tree)) ≡ None }
    ensures equal { (tree : SourceTree) → source_check tree ≡ None → plant_of (written (plant_of tree)) ≡ plant_of tree }
{}

/// The tree that a listing spells of an expression that was checked in the body of an action, or in a condition, is
/// checked there as that expression.
pub fn spelled_expression_checks()
    ensures { (space : Space) (own : Option (List ℕ)) (e : Tree) (t : VarType)
        → IfOk (checked (names_in space own) e t)
        (λ x. checked (names_in space own) (expression_tree space (unwrap_or own []) x) t ≡ Ok x) }
{}

/// The listing of a plant that a text loads as loads as that plant, where it has no more bytes than a text may have
/// (1,048,576): it lexes to tokens that derive a tree in which no check fails, and the plant is that tree's.
pub fn read_back()
    ensures { (text : List ℕ) (plant : PlantData) → IsAccepted text plant → length (listing plant) ≤ longest
        → IsAccepted (listing plant) plant }
{}

/// The text of a value in the range of its type spells the tokens of its literal, where neither a letter, a digit, an underscore, a `#`
/// nor a dot follows.
pub fn spelled_literal()
    ensures { (v : Value) (rest : List ℕ) → IsTrue (lies_in_range v) → Ends Location rest
        → Spells (literal_text v) (literal_tokens (literal_tree v)) rest }
{}

/// The text of an expression spells the tokens of the tree that the listing spells, where neither a letter, a digit, an underscore,
/// a `#` nor a dot follows.
pub fn spelled_expression_text()
    ensures { (space : Space) (own : List ℕ) (e : Expression) (rest : List ℕ) → AreNames space own e → Ends Location rest
        → Spells (expression_text space own e) (tree_tokens (expression_tree space own e)) rest }
{}

/// The text of statements spells the tokens of the statements that the listing spells, whatever follows.
pub fn spelled_body_text()
    ensures { (space : Space) (own : List ℕ) (level : ℕ) (body : Body) (rest : List ℕ) → AreBodyNames space own body
        → Spells (body_text space own level body) (body_tokens (body_tree space own body)) rest }
{}

/// The text of a step spells the tokens of the step that the listing spells, whatever follows.
pub fn spelled_step_text()
    ensures { (space : Space) (s : Step) (rest : List ℕ) → CanSpellStep space s
        → Spells (step_text space s) (step_tokens (step_tree space s)) rest }
{}

/// The text of a transition spells the tokens of the transition that the listing spells, whatever follows.
pub fn spelled_transition_text()
    ensures { (space : Space) (t : Transition) (rest : List ℕ) → CanSpellTransition space t
        → Spells (transition_text space t) (transition_tokens (transition_tree space t)) rest }
{}

/// The text of an action spells the tokens of the action that the listing spells, whatever follows.
pub fn spelled_action_text()
    ensures { (space : Space) (a : Action) (rest : List ℕ) → CanSpellAction space a
        → Spells (action_text space a) (action_tokens (action_tree space a)) rest }
{}

/// The text of a program type spells the tokens of the one that the listing spells, whatever follows.
pub fn spelled_program_text()
    ensures { (globals : List Variable) (p : ProgramType) (rest : List ℕ) → CanSpellProgram globals p
        → Spells (program_text globals p) (program_tokens (program_tree globals p)) rest }
{}

/// The text of the configuration spells the tokens of the one that the listing spells, whatever follows.
pub fn spelled_configuration_text()
    ensures { (plant : PlantData) (rest : List ℕ) → CanSpellPlant plant
        → Spells (configuration_text plant) (configuration_tokens (configuration_tree plant)) rest }
{}

/// A listing spells the tokens of the tree that it spells of the plant.
pub fn spelled_listing()
    ensures { (plant : PlantData) → CanSpellPlant plant → Spells (listing plant) (source_tokens (written plant)) [] }
{}
