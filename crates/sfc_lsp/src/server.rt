//! What a client of the Language Server Protocol is answered.

use crate::actions::{code_actions, code_lenses};
use crate::answer::Answer;
use crate::asked::Asked;
use crate::capabilities::capabilities_value;
use crate::changing::behind_changes;
use crate::client::Client;
use crate::companion::{Companion, companion_of};
use crate::completions::completion;
use crate::documents::{Document, Documents, Heading};
use crate::edits::{formatting, prepare_rename, rename};
use crate::foldings::{folding_ranges, semantic_tokens};
use crate::hovers::hover;
use crate::language::Language;
use crate::method::Method;
use crate::naming::{definition, highlights, references};
use crate::params::{member, text_in, uri_of, version_of};
use crate::publishing::{cleared_value, published_value};
use crate::putting::{put_answer, put_published};
use crate::shelf::Shelf;
use crate::symbols::{all_symbols, document_symbols};
use crate::testing::tests_over;
use serde_json::Value;
use sfc_names::diagnosing::diagnose_script;
use sfc_names::diagnostic::Diagnostic;
use sfc_why::chart::{Told, explain_chart};
use sfc_wire::error_code::ErrorCode;
use sfc_wire::rpc_message::Call;
use sfc_wire::rpc_server::RpcServer;
use sfc_wire::sfc_frames::outbox::Outbox;
use sfc_wire::sfc_frames::serving::Flow;
use std::alloc::{AllocError, Global};

/// How far a client has come.
#[derive(Clone, Copy, Debug, PartialEq, Eq)]
pub enum Phase {
    /// It hasn't asked for `initialize`.
    New,
    Ready,
    /// It has asked for `shutdown`.
    ShutDown,
}

/// What answers a client.
#[derive(Drop)]
pub struct LspServer<'a, S: Shelf> {
    alloc: Global,
    phase: Phase,
    client: Client,
    documents: Documents,
    shelf: &'a mut S,
}

impl<'a, S: Shelf> LspServer<'a, S> {
    /// One that no client has spoken to.
    pub fn new(alloc: Global, shelf: &'a mut S) -> LspServer<'a, S> {
        LspServer {
            alloc,
            phase: Phase::New,
            client: Client::plain(),
            documents: Documents::new(alloc),
            shelf,
        }
    }

    /// How far the client has come.
    pub fn phase(&self) -> Phase {
        self.phase
    }

    // Answers `initialize`.
    fn initialize(&mut self, params: Option<&Value>) -> Result<Answer, AllocError> {
        let value = capabilities_value(self.alloc)?;
        self.client = Client::of_params(params);
        self.phase = Phase::Ready;
        Ok(Answer::Done(value))
    }

    // Answers what is asked for of a document.
    fn answer_document(
        &mut self,
        method: Method,
        params: Option<&Value>,
    ) -> Result<Answer, AllocError> {
        let Some(uri) = uri_of(params) else {
            return Ok(Answer::wrong());
        };
        let Some((uri, document)) = self.documents.get_pair(uri) else {
            return Ok(Answer::Refused(ErrorCode::InvalidParams, "this document is not open"));
        };
        let companion = if document.language() == Language::Chart {
            None
        } else {
            companion_of(self.alloc, &self.documents, self.shelf, uri)?
        };
        answer_asked(
            method,
            &Asked {
                alloc: self.alloc,
                client: self.client,
                uri,
                document,
                params,
                companion: companion.as_ref(),
            },
        )
    }

    // Answers a request of a client that is ready.
    fn answer_ready(&mut self, word: &str, params: Option<&Value>) -> Result<Answer, AllocError> {
        match word {
            "initialize" => Ok(Answer::Refused(
                ErrorCode::InvalidRequest,
                "the server is initialized",
            )),
            "shutdown" => {
                self.phase = Phase::ShutDown;
                Ok(Answer::nothing())
            }
            "workspace/symbol" => match text_in(params, "query") {
                Some(query) => all_symbols(self.alloc, &self.documents, query),
                None => Ok(Answer::wrong()),
            },
            _ => match Method::of_word(word) {
                Some(method) => self.answer_document(method, params),
                None => Ok(Answer::Refused(ErrorCode::MethodNotFound, "there is no such method")),
            },
        }
    }

    // Answers a request.
    fn answer(&mut self, call: Call<'_>) -> Result<Answer, AllocError> {
        match self.phase {
            Phase::New if call.method == "initialize" => self.initialize(call.params),
            Phase::New => Ok(Answer::Refused(
                ErrorCode::ServerNotInitialized,
                "the server is not initialized",
            )),
            Phase::Ready => self.answer_ready(call.method, call.params),
            Phase::ShutDown => Ok(Answer::Refused(
                ErrorCode::InvalidRequest,
                "the server is shut down",
            )),
        }
    }

    // What is published of a document; None where it isn't open.
    fn published(&mut self, uri: &str) -> Result<Option<Value>, AllocError> {
        let Some((uri, document)) = self.documents.get_pair(uri) else {
            return Ok(None);
        };
        let found = match document.language() {
            Language::Chart => return Ok(Some(published_value(
                self.alloc,
                uri,
                document,
                &document.shown,
            )?)),
            Language::Script => {
                let companion = companion_of(self.alloc, &self.documents, self.shelf, uri)?;
                diagnostics_of_script(self.alloc, document, companion.as_ref())?
            }
            Language::Tests => {
                let companion = companion_of(self.alloc, &self.documents, self.shelf, uri)?;
                diagnostics_of_tests(self.alloc, (uri, document), companion.as_ref(), self.shelf)?
            }
        };
        Ok(Some(published_value(self.alloc, uri, document, &found)?))
    }

    // What is published once a document has changed: of it, and where it is a chart of the scripts and tests that are open.
    fn published_behind(&mut self, uri: &str) -> Result<Vec<Value>, AllocError> {
        let mut told = Vec::new(self.alloc);
        if let Some(value) = self.published(uri)? {
            told.push(value)?;
        }
        for script in self.scripts_behind(uri)? {
            if let Some(value) = self.published(script.as_str())? {
                told.push(value)?;
            }
        }
        Ok(told)
    }

    // The names of the scripts and tests that are open, where a document is a chart.
    fn scripts_behind(&self, uri: &str) -> Result<Vec<String>, AllocError> {
        let mut names = Vec::new(self.alloc);
        if Language::of_uri(uri) != Language::Chart {
            return Ok(names);
        }
        for (name, document) in &self.documents.map {
            if document.language() != Language::Chart {
                names.push(name.clone()?)?;
            }
        }
        Ok(names)
    }

    // Opens a document.
    fn open(&mut self, params: Option<&Value>) -> Result<Vec<Value>, AllocError> {
        let item = member(params, "textDocument");
        let (Some(uri), Some(text)) = (text_in(item, "uri"), text_in(item, "text")) else {
            return Ok(Vec::new(self.alloc));
        };
        let language = language_of(uri, text_in(item, "languageId"));
        let text = Vec::from_slice(self.alloc, text.as_bytes())?;
        let heading = Heading {
            language,
            version: version_of(params),
        };
        let document = Document::new(self.alloc, heading, text, None)?;
        self.documents.put(self.alloc, uri, document)?;
        self.published_behind(uri)
    }

    // Changes a document.
    fn change(&mut self, params: Option<&Value>) -> Result<Vec<Value>, AllocError> {
        let (Some(uri), Some(Value::Array(changes))) = (
            uri_of(params),
            member(params, "contentChanges"),
        ) else {
            return Ok(Vec::new(self.alloc));
        };
        if self.change_document(uri, version_of(params), changes)? {
            self.published_behind(uri)
        } else {
            Ok(Vec::new(self.alloc))
        }
    }

    // Changes the document of this name, if it is open, and the changes are some.
    fn change_document(
        &mut self,
        uri: &str,
        version: Option<i64>,
        changes: &[Value],
    ) -> Result<bool, AllocError> {
        let Some(document) = self.documents.get(uri) else {
            return Ok(false);
        };
        let heading = Heading {
            language: document.language(),
            version,
        };
        let Some(text) = behind_changes(self.alloc, &document.text, changes)? else {
            return Ok(false);
        };
        let before = self.documents.take_chart(uri);
        let document = Document::new(self.alloc, heading, text, before)?;
        self.documents.put(self.alloc, uri, document)?;
        Ok(true)
    }

    // Closes a document: there is nothing to tell of it any more.
    fn close(&mut self, params: Option<&Value>) -> Result<Vec<Value>, AllocError> {
        let mut told = Vec::new(self.alloc);
        let Some(uri) = uri_of(params) else {
            return Ok(told);
        };
        if self.documents.take(uri).is_some() {
            told.push(cleared_value(self.alloc, uri)?)?;
        }
        Ok(told)
    }

    // Takes what a client that is ready tells: what is published then.
    fn take(&mut self, call: Call<'_>) -> Result<Vec<Value>, AllocError> {
        match call.method {
            "textDocument/didOpen" => self.open(call.params),
            "textDocument/didChange" => self.change(call.params),
            "textDocument/didClose" => self.close(call.params),
            _ => Ok(Vec::new(self.alloc)),
        }
    }
}

// What a document is written in: by the word for it, or by its name.
fn language_of(uri: &str, word: Option<&str>) -> Language {
    match word {
        Some(word) => Language::of_word(word).unwrap_or(Language::of_uri(uri)),
        None => Language::of_uri(uri),
    }
}

// The faults and warnings of a script; none where its chart isn't there, or can't be loaded.
fn diagnostics_of_script(
    alloc: Global,
    script: &Document,
    companion: Option<&Companion<'_>>,
) -> Result<Vec<Diagnostic>, AllocError> {
    let Some(companion) = companion else {
        return Ok(Vec::new(alloc));
    };
    let text = companion.document().text.as_slice();
    match explain_chart(alloc, text)? {
        Told::NoFault(plant) => diagnose_script(alloc, text, plant, &script.text),
        Told::Fault(_) => Ok(Vec::new(alloc)),
    }
}

// The faults of a file of tests; none where its chart isn't there, or can't be loaded.
fn diagnostics_of_tests<S: Shelf>(
    alloc: Global,
    (uri, tests): (&str, &Document),
    companion: Option<&Companion<'_>>,
    shelf: &mut S,
) -> Result<Vec<Diagnostic>, AllocError> {
    let Some(companion) = companion else {
        return Ok(Vec::new(alloc));
    };
    let text = companion.document().text.as_slice();
    match explain_chart(alloc, text)? {
        Told::NoFault(plant) => tests_over(alloc, (text, plant), (uri, tests), shelf),
        Told::Fault(_) => Ok(Vec::new(alloc)),
    }
}

// Answers what is asked for of a document.
fn answer_asked(method: Method, asked: &Asked<'_>) -> Result<Answer, AllocError> {
    match method {
        Method::Hover => hover(asked),
        Method::Definition => definition(asked),
        Method::References => references(asked),
        Method::Highlight => highlights(asked),
        Method::Symbols => document_symbols(asked),
        Method::Folding => folding_ranges(asked),
        Method::Completion => completion(asked),
        Method::Actions => code_actions(asked),
        Method::Lenses => code_lenses(asked),
        Method::PrepareRename => prepare_rename(asked),
        Method::Rename => rename(asked),
        Method::Formatting => formatting(asked),
        Method::Tokens => semantic_tokens(asked),
    }
}

impl<S: Shelf> RpcServer for LspServer<'_, S> {
    fn request(
        &mut self,
        id: &Value,
        call: Call<'_>,
        outbox: &mut Outbox,
    ) -> Result<(), AllocError> {
        let answer = self.answer(call)?;
        put_answer(self.alloc, id, answer, outbox)
    }

    fn notification(&mut self, call: Call<'_>, outbox: &mut Outbox) -> Result<Flow, AllocError> {
        if call.method == "exit" {
            return Ok(Flow::Ends);
        }
        if self.phase != Phase::Ready {
            return Ok(Flow::GoesOn);
        }
        let told = self.take(call)?;
        put_published(self.alloc, told, outbox)?;
        Ok(Flow::GoesOn)
    }
}

/// A server for as long as a client is served.
#[derive(Drop)]
pub struct Serving<'s, 'a, S: Shelf> {
    pub server: &'s mut LspServer<'a, S>,
}

impl<S: Shelf> RpcServer for Serving<'_, '_, S> {
    fn request(
        &mut self,
        id: &Value,
        call: Call<'_>,
        outbox: &mut Outbox,
    ) -> Result<(), AllocError> {
        self.server.request(id, call, outbox)
    }

    fn notification(&mut self, call: Call<'_>, outbox: &mut Outbox) -> Result<Flow, AllocError> {
        self.server.notification(call, outbox)
    }
}
