//! Of 64 actions the inputs of a scan, its flip-flops and its on-delays.

use crate::input_words::InputWords;
use crate::store_words::StoreWords;
use crate::timed_words::TimedWords;

/// Of 64 actions the inputs in a scan, the flip-flops after it, and the on-delays that have elapsed.
#[derive(Clone, Copy)]
pub struct ScanWords {
    pub inputs: InputWords,
    pub stores: StoreWords,
    pub elapsed: TimedWords,
}
