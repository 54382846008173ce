//! Words of other languages, and of parts of the standard that aren't in this one; and what serves in their place.

use sfc_base::case::is_same_word;

/// Words that mean something elsewhere, with blanks between them, and what serves in their place.
struct Foreign {
    words: &'static str,
    serves: &'static str,
}

static FOREIGN: [Foreign; 20] = [
    Foreign {
        words: "CASE OF END_CASE SWITCH",
        serves: "there is no CASE: IF with ELSIF serves, or a step for each state",
    },
    Foreign {
        words: "FOR WHILE REPEAT UNTIL DO END_FOR END_WHILE END_REPEAT EXIT CONTINUE",
        serves: "there are no loops: a body is executed once a scan, for as long as its action is active",
    },
    Foreign {
        words: "RETURN GOTO",
        serves: "nothing leaves a body early: IF with ELSE serves",
    },
    Foreign {
        words: "REAL LREAL FLOAT DOUBLE",
        serves: "there are no fractions: DINT in thousandths serves, or another small unit",
    },
    Foreign {
        words: "SINT LINT USINT UINT UDINT ULINT BYTE WORD DWORD LWORD INTEGER LONG SHORT",
        serves: "the numbers are INT (16 bits) and DINT (32 bits), both with a sign",
    },
    Foreign {
        words: "STRING WSTRING CHAR WCHAR",
        serves: "there are no texts: a number for each message serves, and a table outside",
    },
    Foreign {
        words: "DATE TOD DT TIME_OF_DAY DATE_AND_TIME LTIME",
        serves: "TIME is a duration, and the only one: T#1h_30m",
    },
    Foreign {
        words: "ARRAY STRUCT END_STRUCT TYPE END_TYPE",
        serves: "there are no types of one's own: a variable for each part serves",
    },
    Foreign {
        words: "TON TOF TP",
        serves: "timers are the times of steps (Filling.T >= T#5s) and the qualifiers L, D, SD, DS, SL",
    },
    Foreign {
        words: "R_TRIG F_TRIG",
        serves: "an edge is the qualifier P, P1 or P0; or a variable keeps the last value, assigned behind its use",
    },
    Foreign {
        words: "CTU CTD CTUD",
        serves: "a counter is a variable: Parts := Parts + 1; in an action of a step that is entered for each part",
    },
    Foreign {
        words: "SR RS",
        serves: "what stays on is the qualifier S, and R ends it",
    },
    Foreign {
        words: "VAR_INPUT VAR_OUTPUT VAR_IN_OUT VAR_TEMP VAR_CONFIG VAR_ACCESS",
        serves: "inputs and outputs are global (VAR_GLOBAL Start AT %IX0.0 : BOOL; END_VAR), and a program names them in VAR_EXTERNAL",
    },
    Foreign {
        words: "CONSTANT",
        serves: "there are no constants: a variable with an initial value serves, which nothing assigns",
    },
    Foreign {
        words: "RETAIN NON_RETAIN PERSISTENT",
        serves: "nothing is kept while the runtime is off",
    },
    Foreign {
        words: "BOOLEAN",
        serves: "the types are BOOL, INT, DINT and TIME",
    },
    Foreign {
        words: "ELSEIF ELIF",
        serves: "ELSIF tests a second condition",
    },
    Foreign {
        words: "AND_THEN OR_ELSE XNOR",
        serves: "AND, OR, XOR and NOT join conditions",
    },
    Foreign {
        words: "SET",
        serves: "a step sets and resets by the qualifiers S and R: Valve(S), Valve(R); a body assigns: Valve := TRUE;",
    },
    Foreign {
        words: "FUNCTION END_FUNCTION FUNCTION_BLOCK END_FUNCTION_BLOCK METHOD",
        serves: "there are no functions or function blocks: an action with a body serves, or a program of its own",
    },
];

/// Whether the word is one of those with blanks between them, whatever the case of its letters.
pub fn is_among(words: &str, word: &[u8]) -> bool {
    for other in words.split_whitespace() {
        if is_same_word(other.as_bytes(), word) {
            return true;
        }
    }
    false
}

/// What serves in place of a word that means something elsewhere; None where it is no such word.
pub fn serving(word: &[u8]) -> Option<&'static str> {
    for foreign in &FOREIGN {
        if is_among(foreign.words, word) {
            return Some(foreign.serves);
        }
    }
    None
}
