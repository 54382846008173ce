//! The files with cases.

use std::rt::Files;
use std::{fs, io};

// Whether the file has cases, by its name.
fn has_cases(name: &str) -> bool {
    name.ends_with(".case") || name.ends_with(".cases")
}

/// The names of the files with cases in the folder in which the program was started, in the order of their bytes.
pub fn case_files<R: Files + AllocGlobal + Clone + Drop>(rt: &R) -> io::Result<Vec<String>> {
    let mut names = Vec::new(rt.alloc());
    for entry in fs::read_dir(rt, ".")? {
        let entry = entry?;
        let name = entry.file_name();
        if has_cases(name) {
            names.push(String::from_str(rt.alloc(), name)?)?;
        }
    }
    names.sort()?;
    Ok(names)
}
