//! The cases of a file, with their titles.

ghost use Rattle.std.specs.Prelude.{◌≡◌, ◌∷◌, [], true, false, MatchOption};
ghost use Rattle.sfc_cases.specs.Files as files;
ghost use Rattle.sfc_test.specs.Cases as cases;
ghost use Rattle.sfc_test.specs.Running.{case_in, cases_left, titled_behind};

use sfc_cases::deed::Deed;
use sfc_cases::line::Line;
use sfc_judge::case::{Case, split_test};

/// A case and its title.
#[derive(Clone, Copy)]
pub struct Titled<'a> {
    pub title: &'a [u8],
    pub case: Case<'a>,
}

/// The cases of a file that are left.
#[derive(Clone, Copy)]
pub struct Titles<'a> {
    // The title of the one case of a file without TEST, while it is left.
    whole: Option<&'a [u8]>,
    // What stands before the first TEST.
    front: &'a [Line],
    // What stands from the next TEST on.
    rest: &'a [Line],
}

// The name of the case that begins with a line, if one does.
fn title_of(line: &Line) -> Option<&[u8]>
    ensures title { MatchOption result (cases.names_by line.now.deed ≡ []) (λ title. cases.names_by line.now.deed ≡ title.now ∷ []) }
    ensures begins { MatchOption result (files.begins_case line.now ≡ false) (λ title. files.begins_case line.now ≡ true) }
{
    match &line.deed {
        Deed::Begins(name) => Some(name.as_slice()),
        _ => None,
    }
}

impl<'a> Titles<'a> {
    /// The cases of a file of this name with these lines: what stands before the first TEST is done before each; a file without TEST is one
    /// case of the file's name.
    pub fn of_file(file: &'a [u8], lines: &'a [Line]) -> Titles<'a>
        ensures { cases_left result ≡ cases.titled file.now lines.now }
    {
        let (front, rest) = split_test(lines);
        if rest.is_empty() {
            return Titles {
                whole: Some(file),
                front,
                rest,
            };
        }
        Titles {
            whole: None,
            front,
            rest,
        }
    }

    // The first of the cases that begin with TEST, and the others; None where none is left.
    fn split_named(self) -> Option<(Titled<'a>, Titles<'a>)>
        ensures { MatchOption result (titled_behind self.entry.front.now self.entry.rest.now ≡ [])
            (λ r. titled_behind self.entry.front.now self.entry.rest.now ≡ case_in r.0 ∷ cases_left r.1) }
    {
        let mut rest = self.rest;
        'lines: while let Some((line, others)) = rest.split_first() {
            if let Some(title) = title_of(line) {
                let (own, _) = split_test(others);
                let titled = Titled {
                    title,
                    case: Case::new(self.front, own),
                };
                return Some((
                    titled,
                    Titles {
                        whole: None,
                        front: self.front,
                        rest: others,
                    },
                ));
            }
            rest = others;
        }
        None
    }

    /// The first case, and the others; None where none is left.
    pub fn split_first(self) -> Option<(Titled<'a>, Titles<'a>)>
        ensures { MatchOption result (cases_left self.entry ≡ []) (λ r. cases_left self.entry ≡ case_in r.0 ∷ cases_left r.1) }
    {
        let Some(title) = self.whole else {
            return self.split_named();
        };
        let titled = Titled {
            title,
            case: Case::new(self.front, self.rest),
        };
        Some((
            titled,
            Titles {
                whole: None,
                front: self.front,
                rest: &[],
            },
        ))
    }
}
