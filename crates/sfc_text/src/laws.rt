//! What holds of the grammar itself. Each law is a function with an empty body, whose contract is the law.

ghost use Rattle.std.specs.Prelude.{◌++◌, ◌≡◌, ◌≤◌, true, Contains, List, ℕ};
ghost use Rattle.sfc_events.specs.ReadErrors.{Read};
ghost use Rattle.sfc_tokens.specs.Tokens.{Kinds};
ghost use Rattle.sfc_text.specs.declared.tree.Configuration.{Configuration};
ghost use Rattle.sfc_text.specs.declared.tree.Step.{Step};
ghost use Rattle.sfc_text.specs.Declares.{OfSource};
ghost use Rattle.sfc_text.specs.Grammar.{action, body, configuration, element, expression, program, source, step, transition};
ghost use Rattle.sfc_text.specs.Limits.{Derived, Limits};
ghost use Rattle.sfc_text.specs.Parsing.Lookahead.{fine};
ghost use Rattle.sfc_text.specs.Reads.{AreOne, ExpressionReads, IsExpression, IsSource, TextReads};
ghost use Rattle.sfc_text.specs.Spelled.{nesting, tree_tokens};
ghost use Rattle.sfc_text.specs.SpelledCharts.{action_tokens, element_tokens, step_tokens, step_word, transition_tokens};
ghost use Rattle.sfc_text.specs.SpelledCharts.{KeepsAction, KeepsElement, KeepsTransition};
ghost use Rattle.sfc_text.specs.SpelledSources.{configuration_tokens, program_tokens, source_tokens};
ghost use Rattle.sfc_text.specs.SpelledSources.{IsConfiguration, KeepsProgram, KeepsSource};
ghost use Rattle.sfc_text.specs.SpelledStatements.{block_nesting, body_tokens, IsBody, most_operators};
ghost use Rattle.sfc_text.specs.Trees.{ActionTree, Block, ElementTree, ProgramTree, SourceTree, TransitionTree, Tree, operators};

/// Tokens derive one tree at most, whatever the limits.
pub fn one_tree()
    ensures { (l m : Limits) (ts : Kinds) (s t : SourceTree) → IsSource l ts s → IsSource m ts t → s ≡ t }
{}

/// A text has one outcome, but that either of two refusals may be told where its tokens derive no tree whatever the limits.
pub fn one_reading()
    ensures { (text : List ℕ) (r s : Read SourceTree) → TextReads text r → TextReads text s → AreOne r s }
{}

/// Each text has an outcome.
pub fn some_reading()
    ensures { (text : List ℕ) → (r : Read SourceTree) × TextReads text r }
{}

/// Tokens are one expression at most, whatever the limits.
pub fn one_expression()
    ensures { (l m : Limits) (ts : Kinds) (s t : Tree) → IsExpression l ts s → IsExpression m ts t → s ≡ t }
{}

/// A text has one outcome as an expression, but that either of two refusals may be told where its tokens are none
/// whatever the limits.
pub fn one_expression_reading()
    ensures { (text : List ℕ) (r s : Read Tree) → ExpressionReads text r → ExpressionReads text s → AreOne r s }
{}

/// Each text has an outcome as an expression.
pub fn some_expression_reading()
    ensures { (text : List ℕ) → (r : Read Tree) × ExpressionReads text r }
{}

/// The tokens of an expression derive it, whatever stands behind them.
pub fn spelled_expression()
    ensures { (limits : Limits) (tree : Tree) (rest : Kinds) → nesting tree ≤ limits.depth → operators tree ≤ limits.operators
        → Derived limits expression (tree_tokens tree ++ rest) tree rest }
{}

/// An expression that tokens derive within limits keeps to them: in its nesting, and in how many operators it has.
pub fn derived_expression()
    ensures { (limits : Limits) (ts : Kinds) (tree : Tree) (rest : Kinds) → Derived limits expression ts tree rest
        → nesting tree ≤ limits.depth × operators tree ≤ limits.operators }
{}

/// The tokens of statements derive them, whatever stands behind them.
pub fn spelled_body()
    ensures { (limits : Limits) (block : Block) (rest : Kinds) → IsBody block → block_nesting block ≤ limits.depth
        → most_operators block ≤ limits.operators → Derived limits body (body_tokens block ++ rest) block rest }
{}

/// Statements that tokens derive within limits keep to them, and so does each of their expressions.
pub fn derived_body()
    ensures { (limits : Limits) (ts : Kinds) (block : Block) (rest : Kinds) → Derived limits body ts block rest
        → IsBody block × block_nesting block ≤ limits.depth × most_operators block ≤ limits.operators }
{}

/// A whole text that tokens derive within limits keeps to them, and each part of it can stand in a text.
pub fn derived_source()
    ensures { (limits : Limits) (ts : Kinds) (s : SourceTree) → IsSource limits ts s → KeepsSource limits s }
{}

/// Each name, priority and location that a whole text declares is that of one of its tokens.
pub fn declared_tokens()
    ensures { (limits : Limits) (ts : Kinds) (s : SourceTree) → IsSource limits ts s → OfSource (Contains ts) s }
{}

/// The tokens of a step derive it, whatever stands behind them.
pub fn spelled_step()
    ensures { (limits : Limits) (s : Step) (rest : Kinds)
        → Derived limits (step s.is_initial (step_word s.is_initial)) (step_tokens s ++ rest) s rest }
{}

/// The tokens of an action whose body is statements within the limits derive it, whatever stands behind them.
pub fn spelled_action()
    ensures { (limits : Limits) (a : ActionTree) (rest : Kinds) → KeepsAction limits a
        → Derived limits action (action_tokens a ++ rest) a rest }
{}

/// The tokens of a transition with steps on both sides and a condition within the limits derive it, whatever stands behind them.
pub fn spelled_transition()
    ensures { (limits : Limits) (t : TransitionTree) (rest : Kinds) → KeepsTransition limits t
        → Derived limits transition (transition_tokens t ++ rest) t rest }
{}

/// The tokens of an element that keeps to the limits derive it, whatever stands behind them.
pub fn spelled_element()
    ensures { (limits : Limits) (e : ElementTree) (rest : Kinds) → KeepsElement limits e
        → Derived limits element (element_tokens e ++ rest) e rest }
{}

/// The tokens of a program type that keeps to the limits derive it, whatever stands behind them.
pub fn spelled_program()
    ensures { (limits : Limits) (p : ProgramTree) (rest : Kinds) → KeepsProgram limits p
        → Derived limits program (program_tokens p ++ rest) p rest }
{}

/// The tokens of a configuration with an instance derive it, whatever stands behind them.
pub fn spelled_configuration()
    ensures { (limits : Limits) (c : Configuration) (rest : Kinds) → IsConfiguration c
        → Derived limits configuration (configuration_tokens c ++ rest) c rest }
{}

/// The tokens of a whole text that keeps to the limits are read as it.
pub fn spelled_source()
    ensures { (limits : Limits) (s : SourceTree) → KeepsSource limits s → IsSource limits (source_tokens s) s }
{}

/// One token ahead decides how a text goes on, but for the sign of an integer.
pub fn one_token_decides()
    ensures { fine source ≡ true }
{}
