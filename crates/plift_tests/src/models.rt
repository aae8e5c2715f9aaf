// The models of the tests, each by its name. A semicolon stands for the end of a line.
use std::alloc::{AllocError, Global};
use test_cells::Unreported;

// NOTED_COIN: the coin with a comment in front, a tab before each line, and a carriage return behind
// it. LESS, DECIMALS: rows that sum to less than 1. APART_COIN: values of different parameters, which
// sum to 1 where these are equal alone. BELOW: a value below 0, in a row that sums to 1. LADDER2: a
// ladder of two blocks. SURE: two states of equal behaviour, which lead to the goal by different
// parameters. THIRD: two such states to which a parameter leads. UNUSED: the coin with a parameter that
// no row depends on. DETOUR: two ways to the goal, of which one is safe. REPORT: no model, but a report
// of the coin. LOOP, LADDER, DIE and EXPORT stand in the folder examples too.
const MODELS: &str = "\
COIN = @type: DTMC;@parameters;p;@model;state 0 init;1 : p;2 : 1-p;state 1 heads;1 : 1;state 2;2 : 1;
NOTED_COIN = \t// a coin\r;\t@type: DTMC\r;\t@parameters\r;\tp\r;\t@model\r;\tstate 0 init\r;\t1 : p\r;\t2 : 1-p\r;\
    \tstate 1 heads\r;\t1 : 1\r;\tstate 2\r;\t2 : 1\r;
TWIN = @type: MDP;@parameters;p;@model;state 0 init;action a;1 : p;2 : 1-p;action b;1 : 1-p;2 : p;state 1 heads;1 : 1;state 2;2 : 1;
SQUARE = @type: DTMC;@parameters;p;@model;state 0 init;1 : p*p;2 : 1-p;state 1 heads;1 : 1;state 2;2 : 1;
DIVISOR = @type: DTMC;@parameters;p q;@model;state 0 init;1 : (p+1)/q;2 : 1-p;state 1 heads;1 : 1;state 2;2 : 1;
POWER = @type: DTMC;@parameters;p;@model;state 0 init;1 : p^2;2 : 1-p;state 1 heads;1 : 1;state 2;2 : 1;
CTMC = @type: CTMC;@parameters;p;@model;state 0 init;1 : p;2 : 1-p;state 1 heads;1 : 1;state 2;2 : 1;
PLAIN = @type: DTMC;@model;state 0 init;1 : 1/4;2 : 3/4;state 1 heads;1 : 1;state 2;2 : 1;
TENTH = @type: DTMC;@model;state 0 init;1 : 1/10;2 : 9/10;state 1 heads;1 : 1;state 2;2 : 1;
LESS = @type: DTMC;@model;state 0 init;1 : 1/4;2 : 1/2;state 1 heads;1 : 1;state 2;2 : 1;
DECIMALS = @type: DTMC;@model;state 0 init;1 : 0.3333;2 : 0.6666;state 1 heads;1 : 1;state 2;2 : 1;
APART_COIN = @type: DTMC;@parameters;p q;@model;state 0 init;1 : p;2 : 1-q;state 1 heads;1 : 1;state 2;2 : 1;
TWO = @type: DTMC;@parameters;p q;@model;state 0 init;1 : p*q;2 : 1-p*q;state 1 heads;1 : 1;state 2;2 : 1;
FOUR = @type: DTMC;@parameters;p q r s;@model;state 0 init;1 : p*q*r*s;2 : 1-p*q*r*s;state 1 heads;1 : 1;state 2;2 : 1;
FIVE = @type: DTMC;@parameters;a b c d e;@model;state 0 init;1 : 1/8*a+1/8*b+1/8*c;2 : 1/8*d+1/8*e;\
    0 : 1/2-1/8*a-1/8*b-1/8*c;3 : 1/2-1/8*d-1/8*e;state 1 heads;1 : 1;state 2;2 : 1;state 3;3 : 1;
BELOW = @type: DTMC;@model;state 0 init;1 : -1/4;2 : 5/4;state 1 heads;1 : 1;state 2;2 : 1;
LOOP = @type: DTMC;@parameters;p;@model;state 0 init;0 : 1/2;1 : 1/2*p;2 : 1/2-1/2*p;state 1 heads;1 : 1;state 2;2 : 1;
PAID_LOOP = @type: DTMC;@parameters;p;@reward_models;steps;@model;state 0 [1] init;0 : 1/2;1 : 1/2*p;2 : 1/2-1/2*p;\
    state 1 heads;1 : 1;state 2;2 : 1;
TWICE_PAID_LOOP = @type: DTMC;@parameters;p;@reward_models;steps;@model;state 0 [1,2] init;0 : 1/2;1 : 1/2*p;\
    2 : 1/2-1/2*p;state 1 heads;1 : 1;state 2;2 : 1;
PAID_ACTION = @type: MDP;@reward_models;steps;@model;state 0 [1] init;action go [1];1 : 1;state 1 heads;1 : 1;
REWARDS = @type: DTMC;@parameters;p;@reward_models;gain end;@model;state 0 [0,0] init;1 : p;2 : 1-p;state 1 [1,5/2] heads;\
    1 : 1;state 2 [0, 1/3];1 : 1;
LADDER = @type: DTMC;@parameters;p q;@model;state 0 init;2 : p;1 : 1-p;state 1;0 : q;3 : 1-q;state 2 done;2 : 1;state 3;3 : 1;
DIE = // Exported model;// Original model type: DTMC;@type: DTMC;@parameters;p;@reward_models;;@nr_states;13;\
    @nr_choices;13;@model;state 0 init;\taction 0;\t\t1 : p;\t\t2 : 1-p;state 1;\taction 0;\t\t3 : p;\t\t4 : 1-p;\
    state 2;\taction 0;\t\t5 : p;\t\t6 : 1-p;state 3;\taction 0;\t\t1 : p;\t\t7 : 1-p;state 4;\taction 0;\t\t8 : p;\
    \t\t9 : 1-p;state 5;\taction 0;\t\t10 : p;\t\t11 : 1-p;state 6;\taction 0;\t\t2 : p;\t\t12 : 1-p;state 7 one done;\
    \taction 0;\t\t7 : 1;state 8 two done;\taction 0;\t\t8 : 1;state 9 three done;\taction 0;\t\t9 : 1;\
    state 10 four done;\taction 0;\t\t10 : 1;state 11 five done;\taction 0;\t\t11 : 1;state 12 six done;\taction 0;\
    \t\t12 : 1;
EXPORT = // Exported model;@type: MDP;@value_type: fractions;@parameters;p;@placeholders;$rest : 1-p;@reward_models;\
    steps;@nr_states;3;@nr_choices;4;@model;state 0 [1] init;\taction stay [0];\t\t0 : 1;\taction flip [0];\t\t1 : p;\
    \t\t2 : $rest;state 1 [0] heads \"all done\";\taction 0 [0];\t\t1 : 1;state 2 [0];\taction 0 [0];\t\t2 : 1;
SHORT_CUT = @type: MDP;@parameters;p;@model;state 0 init;action toss;3 : p;2 : 1-p;action go;1 : 1;state 1;3 : 1;state 2;2 : 1;\
    state 3 heads;3 : 1;
LADDER2 = @type: DTMC;@parameters;p q;@model;state 0 init;2 : p;1 : 1-p;state 1;0 : q;5 : 1-q;state 2;4 : p;3 : 1-p;\
    state 3;2 : q;5 : 1-q;state 4 done;4 : 1;state 5;5 : 1;
DETOUR = @type: DTMC;@parameters;p;@model;state 0 init safe;1 : p;2 : 1-p;state 1;3 : 1;state 2 safe;3 : p;4 : 1-p;\
    state 3 heads;3 : 1;state 4;4 : 1;
SURE = @type: DTMC;@parameters;p q r;@model;state 0 init;1 : p;2 : 1-p;state 1;3 : q;4 : 1-q;state 2;3 : r;4 : 1-r;\
    state 3 heads;3 : 1;state 4 heads;0 : 1;
THIRD = @type: DTMC;@parameters;p;@model;state 0 init;1 : 1/3*p;2 : 1/3-1/3*p;3 : 2/3;state 1;4 : 1;state 2;4 : 1;state 3;\
    3 : 1;state 4 heads;4 : 1;
UNUSED = @type: DTMC;@parameters;p q;@model;state 0 init;1 : p;2 : 1-p;state 1 heads;1 : 1;state 2;2 : 1;
APART = @type: DTMC;@model;state 0 init;0 : 1;state 1 heads;1 : 1;
REPORT = plift 1;kind dtmc;parameters 1 p;common 1;states 3;init 0;goal 1 1;row 0 0 2;to 1 1:1;to 2 0:1 1:-1;row 1 0 1;\
    to 1 0:1;row 2 0 1;to 2 0:1;bound 1/2;precision 4;depth 0;grid 10;box 1 4;accept 7 16 0;
ZERO = @type: DTMC;@model;state 0 heads;0 : 1;1 : 0;state 1 init;0 : 1;
NOTHING = -
";

// The text of a model; none where no model has this name.
fn find_model(name: &str) -> Option<&'static str> {
    for row in MODELS.lines() {
        if let Some((key, text)) = row.split_once(" = ") {
            if key == name {
                return Some(text);
            }
        }
    }
    None
}

// What a byte of a text stands for: a semicolon for the end of a line.
fn stood_for(byte: u8) -> u8 {
    match byte {
        b';' => b'\n',
        byte => byte,
    }
}

/// The bytes of a text in which a semicolon stands for the end of a line. A dash alone is no text.
pub(crate) fn lines_of(alloc: Global, text: &str) -> Result<Vec<u8>, AllocError> {
    let mut bytes = Vec::new(alloc);
    if text == "-" {
        return Ok(bytes);
    }
    for byte in text.as_bytes() {
        bytes.push(stood_for(*byte))?;
    }
    Ok(bytes)
}

// Whether these bytes are what those of a text stand for.
fn are_all(bytes: &[u8], text: &[u8]) -> bool {
    for (byte, want) in bytes.iter().zip(text) {
        if *byte != stood_for(*want) {
            return false;
        }
    }
    bytes.len() == text.len()
}

/// Whether these are the bytes of a text.
pub(crate) fn are_lines(bytes: &[u8], text: &str) -> bool {
    match text {
        "-" => bytes.is_empty(),
        text => are_all(bytes, text.as_bytes()),
    }
}

/// Whether these are so many bytes from the front of a text.
pub(crate) fn are_front(bytes: &[u8], text: &str, count: usize) -> bool {
    match text.as_bytes().get(..count) {
        Some(front) => are_all(bytes, front),
        None => false,
    }
}

/// Whether bytes end with those of a text, and are none where those are none.
pub(crate) fn end_with(bytes: &[u8], text: &str) -> bool {
    if text == "-" || text.is_empty() {
        return bytes.is_empty();
    }
    match bytes.len().checked_sub(text.len()) {
        Some(start) => are_all(&bytes[start..], text.as_bytes()),
        None => false,
    }
}

/// The bytes of the model of that name.
pub(crate) fn model_text(alloc: Global, name: &str) -> Result<Vec<u8>, Unreported> {
    match find_model(name) {
        Some(text) => Ok(lines_of(alloc, text)?),
        None => Err(Unreported::Cell),
    }
}
