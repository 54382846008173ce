//! What a document is written in.

/// What a document is written in.
#[derive(Clone, Copy, Debug, PartialEq, Eq)]
pub enum Language {
    Chart,
    Script,
    /// A file of tests.
    Tests,
}

impl Language {
    /// By the end of the name of a file; a chart where it has none of these.
    pub fn of_uri(uri: &str) -> Language {
        let name = uri.as_bytes();
        if name.ends_with(b".script") {
            Language::Script
        } else if name.ends_with(b".sfctest") {
            Language::Tests
        } else {
            Language::Chart
        }
    }

    /// By the word of a client's for it, if it is one of these.
    pub fn of_word(word: &str) -> Option<Language> {
        match word {
            "sfc-chart" => Some(Language::Chart),
            "sfc-script" => Some(Language::Script),
            "sfc-test" => Some(Language::Tests),
            _ => None,
        }
    }
}
