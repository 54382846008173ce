//! What holds of the definitions. Each law is a function with an empty body, whose contract is the law.

ghost use Rattle.std.specs.Prelude.{◌≡◌, ◌++◌, ℕ, List, [], flat_map};
ghost use Rattle.sfc_test.specs.declared.asked.Asked.TheVariants.{Results};
ghost use Rattle.sfc_test.specs.Cases.{TitledCase, wanted};
ghost use Rattle.sfc_test.specs.Results.{CaseResult, failed_among, passed_among};
ghost use Rattle.sfc_test.specs.Tallies.{Tally, behind_results, counted, no_cases, results_text};
ghost use Rattle.sfc_test.specs.Texts.{result_text};

/// Behind the results of a file, and none before, the numbers at the end are how many cases passed and how many failed.
pub fn counts()
    ensures passed { (file : List ℕ) (results : List CaseResult) →
        (behind_results file no_cases results).passed ≡ counted (passed_among results) }
    ensures failed { (file : List ℕ) (results : List CaseResult) →
        (behind_results file no_cases results).failed ≡ counted (failed_among results) }
{}

/// The text for a reader is that of each result, one behind the other.
pub fn one_text_each()
    ensures { (file : List ℕ) (tally : Tally) (results : List CaseResult) →
        results_text Results file tally results ≡ flat_map result_text results }
{}

/// The empty word stands in each title.
pub fn all_wanted()
    ensures { (cases : List TitledCase) → wanted [] cases ≡ cases }
{}
