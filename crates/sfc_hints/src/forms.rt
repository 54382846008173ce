//! What mends the form of an element: what stands where in steps, transitions, actions, declarations, instances and the configuration.

use crate::blocks::{is_before_name, is_last_word};
use crate::misplaced::Misplaced;
use sfc_base::delimiter::Delimiter;
use sfc_base::keyword::Keyword;
use sfc_places::finding::Element;
use sfc_places::marks::{Mark, behind, is_at, keyword_at};
use sfc_tokens::token::TokenKind;
use std::alloc::{AllocError, Global};

// Whether the word is a type.
fn is_type(word: Keyword) -> bool {
    matches!(
        word,
        Keyword::Bool | Keyword::Int | Keyword::Dint | Keyword::Time
    )
}

impl Misplaced<'_> {
    // Whether a reserved word that a name stands behind is so many places before.
    fn is_behind_head(&self, count: usize) -> bool {
        match self.back(count) {
            Some(at) =>
                matches!(keyword_at(self.chart.tokens, at), Some(word) if is_before_name(word)),
            None => false,
        }
    }

    // Whether it is this reserved word.
    fn is_word(&self, word: Keyword) -> bool {
        self.is(Mark::Keyword(word))
    }

    // Whether it is this sign.
    fn is_sign(&self, sign: Delimiter) -> bool {
        self.is(Mark::Sign(sign))
    }

    // Whether it begins a block of variables of a program type.
    fn is_variables(&self) -> bool {
        self.is_word(Keyword::Var) || self.is_word(Keyword::VarExternal)
    }

    // Whether it is a type.
    fn is_type(&self) -> bool {
        matches!(self.keyword(), Some(word) if is_type(word))
    }

    // Whether it is a location.
    fn is_location(&self) -> bool {
        match self.chart.tokens.get(self.index) {
            Some(token) => matches!(token.kind, TokenKind::Location(_)),
            None => false,
        }
    }

    // What mends a name of an element.
    fn of_name(&self, alloc: Global) -> Result<Option<&'static str>, AllocError> {
        if self.is_behind_head(1) && self.is_number() {
            return Ok(Some("a name begins with a letter or an underscore"));
        }
        if !self.is_behind_head(2) || !self.has_before(1, Mark::Name) {
            return Ok(None);
        }
        if self.is_sign(Delimiter::Minus) {
            return Ok(Some("a name has letters, digits and single underscores, and no -"));
        }
        let next = behind(self.index, 1);
        if self.is(Mark::Name) && is_at(self.chart.tokens, next, Mark::Sign(Delimiter::Colon)) {
            return Ok(Some("a name has no blanks: an underscore serves, as in Fill_Up"));
        }
        if self.takes(alloc, ":")? {
            return Ok(Some(": stands behind the name"));
        }
        Ok(None)
    }

    // What mends a ; behind a word that ends a block.
    fn of_semicolon(&self) -> Option<&'static str> {
        let at = self.back(1)?;
        let word = keyword_at(self.chart.tokens, at)?;
        if self.is_sign(Delimiter::Semicolon) && is_last_word(word) {
            return Some("of the words END_.. only END_IF has a ; behind it");
        }
        None
    }

    // What mends an association.
    fn of_step(&self) -> Option<&'static str> {
        let is_first = self.has_before(1, Mark::Sign(Delimiter::Open));
        if self.is(Mark::Duration) && is_first {
            return Some("the qualifier stands before its time: Valve(L, T#5s)");
        }
        if self.is(Mark::Duration) && self.has_before(2, Mark::Sign(Delimiter::Open)) {
            return Some("a comma stands before the time: Valve(L, T#5s)");
        }
        if self.is(Mark::Name) && is_first {
            return Some(
                "the qualifiers are N, R, S, P, P0 and P1, and with a time L, D, SD, DS and SL",
            );
        }
        if self.is(Mark::Name) && self.has_before(1, Mark::Name) {
            return Some("an association is Lamp(N); or Valve(L, T#5s);");
        }
        if self.is_sign(Delimiter::Assign) {
            return Some("a step has no statements: it names an ACTION, which has them");
        }
        None
    }

    // What mends a transition.
    fn of_transition(&self, alloc: Global) -> Result<Option<&'static str>, AllocError> {
        if self.is_sign(Delimiter::Comma) {
            return Ok(Some("several steps stand in parentheses: FROM (A, B) TO C"));
        }
        if self.is_word(Keyword::If) {
            return Ok(Some("the condition alone stands behind :=, without IF"));
        }
        if self.is_sign(Delimiter::Colon) && self.takes(alloc, "FROM")? {
            return Ok(Some("no : stands behind the name of a transition"));
        }
        if self.is_word(Keyword::To) && self.takes(alloc, "FROM")? {
            return Ok(Some("FROM and the step that is left stand before TO: FROM A TO B"));
        }
        if self.is(Mark::Name) && self.takes(alloc, "TO")? {
            return Ok(Some("TO stands before the step that is entered: FROM A TO B"));
        }
        Ok(None)
    }

    // What mends a statement.
    fn of_action(&self, alloc: Global) -> Result<Option<&'static str>, AllocError> {
        if self.is_word(Keyword::On) {
            return Ok(Some("the values of BOOL are TRUE and FALSE"));
        }
        if self.is_location() {
            return Ok(Some(
                "a variable stands for a location: Lamp AT %QX0.0 : BOOL; in VAR_GLOBAL",
            ));
        }
        if self.is_sign(Delimiter::Close) && self.takes(alloc, ";")? {
            return Ok(Some("there is no ( for this )"));
        }
        if !self.is_sign(Delimiter::Semicolon) && self.takes(alloc, "THEN")? {
            return Ok(Some("THEN stands behind the condition of an IF"));
        }
        if self.is_sign(Delimiter::Semicolon) && self.takes(alloc, ")")? {
            return Ok(Some(") is missing, for a ( before it"));
        }
        Ok(None)
    }

    // What mends a declaration.
    fn of_declaration(&self, alloc: Global) -> Result<Option<&'static str>, AllocError> {
        if self.is(Mark::Name) && self.has_before(1, Mark::Keyword(Keyword::At)) {
            return Ok(Some("a location begins with %: %IX0.0"));
        }
        if self.is_word(Keyword::At) {
            return Ok(Some("AT stands before the colon: Start AT %IX0.0 : BOOL;"));
        }
        if self.is_type() && self.takes(alloc, ":")? {
            return Ok(Some(": stands behind the name: Count : INT;"));
        }
        if self.is(Mark::Name) && self.has_before(1, Mark::Sign(Delimiter::Colon)) {
            return Ok(Some("the types are BOOL, INT, DINT and TIME"));
        }
        Ok(None)
    }

    // What mends what stands in a program type beside its elements.
    fn of_program(&self) -> Option<&'static str> {
        if self.is_word(Keyword::VarGlobal) {
            return Some(
                "VAR_GLOBAL stands in the CONFIGURATION, or in its RESOURCE, and VAR_EXTERNAL here",
            );
        }
        if self.is_variables() {
            return Some("the variables of a PROGRAM stand before its first step");
        }
        if self.is_type() {
            return Some("the name stands before its type: Count : INT;");
        }
        None
    }

    // What mends what stands in the configuration.
    fn of_configuration(&self, alloc: Global) -> Result<Option<&'static str>, AllocError> {
        if self.is_variables() {
            return Ok(Some("VAR_GLOBAL declares variables here, and VAR in a PROGRAM"));
        }
        if self.takes(alloc, "ON")? {
            return Ok(Some(
                "ON and the name of the processor stand behind the name: RESOURCE R ON Plc",
            ));
        }
        let is_inside = self.is_word(Keyword::Task) || self.is_word(Keyword::Program);
        if is_inside && self.takes(alloc, "RESOURCE")? {
            return Ok(Some(
                "a RESOURCE has the tasks and programs: RESOURCE R ON Plc .. END_RESOURCE",
            ));
        }
        Ok(None)
    }

    // What mends the end of a text that has no configuration.
    fn of_text(&self, alloc: Global) -> Result<Option<&'static str>, AllocError> {
        let is_end = self.index > 0 && self.index >= self.chart.tokens.len();
        if is_end && self.takes(alloc, "CONFIGURATION")? {
            return Ok(Some(
                "a CONFIGURATION stands behind the program types, with a RESOURCE, its TASK and a PROGRAM WITH it",
            ));
        }
        Ok(None)
    }

    // What mends its place in the element that it stands in.
    fn in_element(&self, alloc: Global) -> Result<Option<&'static str>, AllocError> {
        match self.element() {
            Element::Step { .. } => Ok(self.of_step()),
            Element::Transition { .. } => self.of_transition(alloc),
            Element::Action { .. } => self.of_action(alloc),
            Element::Local { .. } | Element::External { .. } | Element::Global { .. } => {
                self.of_declaration(alloc)
            }
            Element::Program { .. } => Ok(self.of_program()),
            Element::Instance { .. } if self.is_word(Keyword::With) => {
                Ok(Some("WITH stands before the colon: PROGRAM Pump1 WITH Main : PumpControl;"))
            }
            Element::Resource { .. } | Element::Configuration { .. } => {
                self.of_configuration(alloc)
            }
            Element::Text => self.of_text(alloc),
            Element::Task { .. } | Element::Instance { .. } => Ok(None),
        }
    }

    /// What mends the form of an element, where it is known. The one error is that memory was refused.
    pub fn of_form(&self, alloc: Global) -> Result<Option<&'static str>, AllocError> {
        if let Some(mend) = self.of_semicolon() {
            return Ok(Some(mend));
        }
        match self.of_name(alloc)? {
            Some(mend) => Ok(Some(mend)),
            None => self.in_element(alloc),
        }
    }
}
