//! The reserved words (2.1.3).

ghost use Rattle.std.specs.Prelude.{◌≡◌, Option, Some, None};
ghost use Rattle.sfc_base.specs.Words.{look_up, keyword_of as reserved};
ghost use Rattle.sfc_base.specs.Private.ReservedWords as parts;

use crate::case::is_same_word;

/// A reserved word, in any case of its letters.
#[derive(Clone, Copy, Debug, PartialEq, Eq)]
pub enum Keyword {
    Action,
    And,
    At,
    Bool,
    Configuration,
    Dint,
    Else,
    Elsif,
    EndAction,
    EndConfiguration,
    EndIf,
    EndProgram,
    EndResource,
    EndStep,
    EndTransition,
    EndVar,
    False,
    From,
    If,
    InitialStep,
    Int,
    Mod,
    Not,
    On,
    Or,
    Program,
    Resource,
    Step,
    Task,
    Then,
    Time,
    To,
    Transition,
    True,
    Var,
    VarExternal,
    VarGlobal,
    With,
    Xor,
}

// The reserved word from ACTION to ELSE that the word is.
#[tactic(auto, unfolding(crate::specs::Private::ReservedWords::action_to_else))]
fn action_to_else(word: &[u8]) -> Option<Keyword>
    ensures { result ≡ look_up parts.action_to_else word.now }
{
    if is_same_word(word, b"ACTION") {
        return Some(Keyword::Action);
    }
    if is_same_word(word, b"AND") {
        return Some(Keyword::And);
    }
    if is_same_word(word, b"AT") {
        return Some(Keyword::At);
    }
    if is_same_word(word, b"BOOL") {
        return Some(Keyword::Bool);
    }
    if is_same_word(word, b"CONFIGURATION") {
        return Some(Keyword::Configuration);
    }
    if is_same_word(word, b"DINT") {
        return Some(Keyword::Dint);
    }
    if is_same_word(word, b"ELSE") {
        return Some(Keyword::Else);
    }
    None
}

// The reserved word from ELSIF to END_STEP that the word is.
#[tactic(auto, unfolding(crate::specs::Private::ReservedWords::elsif_to_end_step))]
fn elsif_to_end_step(word: &[u8]) -> Option<Keyword>
    ensures { result ≡ look_up parts.elsif_to_end_step word.now }
{
    if is_same_word(word, b"ELSIF") {
        return Some(Keyword::Elsif);
    }
    if is_same_word(word, b"END_ACTION") {
        return Some(Keyword::EndAction);
    }
    if is_same_word(word, b"END_CONFIGURATION") {
        return Some(Keyword::EndConfiguration);
    }
    if is_same_word(word, b"END_IF") {
        return Some(Keyword::EndIf);
    }
    if is_same_word(word, b"END_PROGRAM") {
        return Some(Keyword::EndProgram);
    }
    if is_same_word(word, b"END_RESOURCE") {
        return Some(Keyword::EndResource);
    }
    if is_same_word(word, b"END_STEP") {
        return Some(Keyword::EndStep);
    }
    None
}

// The reserved word from END_TRANSITION to INT that the word is.
#[tactic(auto, unfolding(crate::specs::Private::ReservedWords::end_transition_to_int))]
fn end_transition_to_int(word: &[u8]) -> Option<Keyword>
    ensures { result ≡ look_up parts.end_transition_to_int word.now }
{
    if is_same_word(word, b"END_TRANSITION") {
        return Some(Keyword::EndTransition);
    }
    if is_same_word(word, b"END_VAR") {
        return Some(Keyword::EndVar);
    }
    if is_same_word(word, b"FALSE") {
        return Some(Keyword::False);
    }
    if is_same_word(word, b"FROM") {
        return Some(Keyword::From);
    }
    if is_same_word(word, b"IF") {
        return Some(Keyword::If);
    }
    if is_same_word(word, b"INITIAL_STEP") {
        return Some(Keyword::InitialStep);
    }
    if is_same_word(word, b"INT") {
        return Some(Keyword::Int);
    }
    None
}

// The reserved word from MOD to STEP that the word is.
#[tactic(auto, unfolding(crate::specs::Private::ReservedWords::mod_to_step))]
fn mod_to_step(word: &[u8]) -> Option<Keyword>
    ensures { result ≡ look_up parts.mod_to_step word.now }
{
    if is_same_word(word, b"MOD") {
        return Some(Keyword::Mod);
    }
    if is_same_word(word, b"NOT") {
        return Some(Keyword::Not);
    }
    if is_same_word(word, b"ON") {
        return Some(Keyword::On);
    }
    if is_same_word(word, b"OR") {
        return Some(Keyword::Or);
    }
    if is_same_word(word, b"PROGRAM") {
        return Some(Keyword::Program);
    }
    if is_same_word(word, b"RESOURCE") {
        return Some(Keyword::Resource);
    }
    if is_same_word(word, b"STEP") {
        return Some(Keyword::Step);
    }
    None
}

// The reserved word from TASK to VAR that the word is.
#[tactic(auto, unfolding(crate::specs::Private::ReservedWords::task_to_var))]
fn task_to_var(word: &[u8]) -> Option<Keyword>
    ensures { result ≡ look_up parts.task_to_var word.now }
{
    if is_same_word(word, b"TASK") {
        return Some(Keyword::Task);
    }
    if is_same_word(word, b"THEN") {
        return Some(Keyword::Then);
    }
    if is_same_word(word, b"TIME") {
        return Some(Keyword::Time);
    }
    if is_same_word(word, b"TO") {
        return Some(Keyword::To);
    }
    if is_same_word(word, b"TRANSITION") {
        return Some(Keyword::Transition);
    }
    if is_same_word(word, b"TRUE") {
        return Some(Keyword::True);
    }
    if is_same_word(word, b"VAR") {
        return Some(Keyword::Var);
    }
    None
}

// The reserved word from VAR_EXTERNAL to XOR that the word is.
#[tactic(auto, unfolding(crate::specs::Private::ReservedWords::var_external_to_xor))]
fn var_external_to_xor(word: &[u8]) -> Option<Keyword>
    ensures { result ≡ look_up parts.var_external_to_xor word.now }
{
    if is_same_word(word, b"VAR_EXTERNAL") {
        return Some(Keyword::VarExternal);
    }
    if is_same_word(word, b"VAR_GLOBAL") {
        return Some(Keyword::VarGlobal);
    }
    if is_same_word(word, b"WITH") {
        return Some(Keyword::With);
    }
    if is_same_word(word, b"XOR") {
        return Some(Keyword::Xor);
    }
    None
}

// One part of the table after the other.
#[tactic(auto, unfolding(crate::specs::Private::ReservedWords::in_parts))]
fn in_parts(word: &[u8]) -> Option<Keyword>
    ensures { result ≡ parts.in_parts word.now }
{
    if let Some(keyword) = action_to_else(word) {
        return Some(keyword);
    }
    if let Some(keyword) = elsif_to_end_step(word) {
        return Some(keyword);
    }
    if let Some(keyword) = end_transition_to_int(word) {
        return Some(keyword);
    }
    if let Some(keyword) = mod_to_step(word) {
        return Some(keyword);
    }
    if let Some(keyword) = task_to_var(word) {
        return Some(keyword);
    }
    var_external_to_xor(word)
}

/// The reserved word that the word is, if it is one (2.1.3); case is not significant. It takes no memory.
#[tactic(auto, using(crate::proofs::ReservedWords::parts_table))]
pub fn keyword_of(word: &[u8]) -> Option<Keyword>
    ensures { result ≡ reserved word.now }
{
    in_parts(word)
}
