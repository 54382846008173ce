//! Which element a place lies in, by the tokens before it, where the text can't be read.

use sfc_base::delimiter::Delimiter;
use sfc_base::keyword::Keyword;
use sfc_places::finding::Element;
use sfc_places::marks::{Mark, behind, is_at, keyword_at};
use sfc_tokens::token::Token;

/// What begins before a place and has not ended there; names by their places.
#[derive(Clone, Copy)]
struct Open {
    configuration: Option<usize>,
    resource: Option<usize>,
    program: Option<usize>,
    inner: Option<Element>,
    // How many transitions of the program type have begun.
    transitions: usize,
    // Whether a block of variables is open.
    block: bool,
}

impl Open {
    // A program type or an instance begins, whose name has this place.
    fn with_program(self, name: usize) -> Open {
        if self.configuration.is_some() {
            return Open {
                inner: Some(Element::Instance { name }),
                ..self
            };
        }
        Open {
            program: Some(name),
            inner: None,
            transitions: 0,
            ..self
        }
    }

    // A transition begins, whose name has this place.
    fn with_transition(self, program: usize, name: Option<usize>) -> Open {
        let number = self.transitions.saturating_add(1);
        Open {
            transitions: number,
            inner: Some(Element::Transition {
                program,
                number,
                name,
            }),
            ..self
        }
    }

    // An element begins, whose name has this place.
    fn with_inner(self, inner: Element) -> Open {
        Open {
            inner: Some(inner),
            ..self
        }
    }

    // What begins with a word, behind which a name has its place.
    fn begin(self, tokens: &[Token], word: Keyword, name: usize) -> Open {
        let program = self.program.unwrap_or(0);
        match word {
            Keyword::Program => self.with_program(name),
            Keyword::Configuration => Open {
                configuration: Some(name),
                ..self
            },
            Keyword::Resource => Open {
                resource: Some(name),
                ..self
            },
            Keyword::Task => self.with_inner(Element::Task { name }),
            Keyword::Step | Keyword::InitialStep => {
                self.with_inner(Element::Step { program, name })
            }
            Keyword::Action => self.with_inner(Element::Action { program, name }),
            Keyword::Transition if is_at(tokens, name, Mark::Name) => {
                self.with_transition(program, Some(name))
            }
            Keyword::Transition => self.with_transition(program, None),
            Keyword::Var | Keyword::VarExternal | Keyword::VarGlobal => Open {
                block: true,
                ..self
            },
            _ => self,
        }
    }

    // What ends with a word.
    fn end(self, word: Keyword) -> Open {
        match word {
            Keyword::EndStep | Keyword::EndTransition | Keyword::EndAction => Open {
                inner: None,
                ..self
            },
            Keyword::EndVar => Open {
                inner: None,
                block: false,
                ..self
            },
            Keyword::EndProgram => Open {
                program: None,
                inner: None,
                ..self
            },
            Keyword::EndResource => Open {
                resource: None,
                inner: None,
                ..self
            },
            Keyword::EndConfiguration => Open {
                configuration: None,
                inner: None,
                ..self
            },
            _ => self,
        }
    }

    // What a declaration is of, whose first name has this place.
    fn declaring(self, name: usize) -> Element {
        match self.program {
            Some(program) => Element::Local { program, name },
            None => Element::Global { name },
        }
    }

    // Goes on by the token at the place.
    fn pass(self, tokens: &[Token], at: usize) -> Open {
        if let Some(word) = keyword_at(tokens, at) {
            return self.begin(tokens, word, behind(at, 1)).end(word);
        }
        let is_end = is_at(tokens, at, Mark::Sign(Delimiter::Semicolon));
        if is_end && (self.block || self.configuration.is_some()) {
            return Open {
                inner: None,
                ..self
            };
        }
        if self.block && self.inner.is_none() && is_at(tokens, at, Mark::Name) {
            return self.with_inner(self.declaring(at));
        }
        self
    }

    // The innermost of them.
    fn element(self) -> Element {
        if let Some(inner) = self.inner {
            return inner;
        }
        if let Some(name) = self.program {
            return Element::Program { name };
        }
        if let Some(name) = self.resource {
            return Element::Resource { name };
        }
        match self.configuration {
            Some(name) => Element::Configuration { name },
            None => Element::Text,
        }
    }
}

/// The element in which a place lies, by the tokens before it.
pub fn element_before(tokens: &[Token], place: usize) -> Element {
    let mut open = Open {
        configuration: None,
        resource: None,
        program: None,
        inner: None,
        transitions: 0,
        block: false,
    };
    for at in 0..place {
        open = open.pass(tokens, at);
    }
    open.element()
}
