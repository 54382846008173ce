//! What numbers mean.

ghost use Rattle.std.specs.Prelude.{◌≡◌, ◌⊎◌, true, IfOk, IfErr, IfSome, Ok, List, ℕ, ℤ, Result};
ghost use Rattle.sfc_explain.specs.declared.explanation.Explanation.{Explanation as ExplanationData};
ghost use Rattle.sfc_explain.specs.Finding.{is_numbered};
ghost use Rattle.sfc_explain.specs.Pages.{page as page_text};
ghost use Rattle.sfc_c.specs.Codes as codes;
ghost use Rattle.sfc_c.specs.Explanations.{IsPage};
ghost use Rattle.sfc_c.specs.Texts.{GivesOr};

use crate::giving::give_or;
use crate::status::{NO_MEMORY, UNKNOWN};
use sfc_explain::explanation::Explanation;
use sfc_explain::finding::find;
use sfc_explain::page::put_page;
use sfc_explain::table::{of_charts, of_commands};
use std::alloc::Global;

// The explanation of a refusal, by its number.
fn of_refusal(number: u8) -> Option<&'static Explanation>
    ensures { IfSome result (λ explanation. is_numbered number explanation.now ≡ true) }
{
    find(&[of_charts(), of_commands()], Some(number), b"")
}

// An explanation as a text; -4 where memory was refused.
fn page_of(alloc: Global, explanation: &Explanation) -> Result<Vec<u8>, i32>
    ensures page { IfOk result (λ page. page.items ≡ page_text explanation.now) }
    ensures none { IfErr result (λ code. code ≡ codes.no_memory) }
{
    let mut page = Vec::new(alloc);
    match put_page(explanation, &mut page) {
        Ok(()) => Ok(page),
        Err(_) => Err(NO_MEMORY),
    }
}

// The page of a refusal's explanation; -3 where there is none, -4 where memory was refused.
fn explained(alloc: Global, number: u8) -> Result<Vec<u8>, i32>
    ensures page { IfOk result (λ page. IsPage number (Ok page.items)) }
    ensures none { IfErr result (λ code. (code ≡ codes.unknown) ⊎ (code ≡ codes.no_memory)) }
{
    match of_refusal(number) {
        Some(explanation) => page_of(alloc, explanation),
        None => Err(UNKNOWN),
    }
}

/// What a refusal means, by its number: the page that `sfcmon explain` prints. -3 where no refusal has the number, -4 where memory was
/// refused, -6 where the buffer is too short; `needed` tells the length.
#[unsafe(no_mangle)]
pub extern "C" fn sfc_explain(alloc: Global, number: u8, into: &mut [u8], needed: &mut usize) -> i32
    ensures { (told : Result (List ℕ) ℤ) × IsPage number told × GivesOr told into.old into.new needed.new result }
{
    give_or(explained(alloc, number), into, needed)
}
