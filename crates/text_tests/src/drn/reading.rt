// Tests of the reading of model texts.
use crate::cells::each_row;
use crate::drn::{changed, text_of};
use drn_read::read_model;
use lift_base::{MemSink, Word, WriteFault, write_words};
use lift_model::{Entry, Kind, Model};
use std::alloc::{AllocError, Global};
use std::string::String;
use test_cells::{Teller, Unreported, cut, cut_two, number};

// A text, the goal's label, and the model. In order: a coin; the same with a comment, tabs and
// carriage returns; another goal; a loop, over 2; two choices; a first choice without an action
// line, a second one without transitions, and leading zeros; a label twice on one line, and entries
// of value 0; no parameters; quarters; 12 as the least common multiple of 4 and 6; five parameters;
// a decision process in the manner of an export; a die by coins; sections in another order, and one
// that is empty; and values that are written twice, that are written in several ways, and that differ
// in a sign, a parameter or the denominator alone.
const MODELS: &str = "\
    @type: DTMC;@parameters;p;@model;state 0 init;1 : p;2 : 1-p;state 1 heads;1 : 1;state 2;2 : 1; \
    | heads | dtmc 1 p init 0 goal 1 row 0.0 to 1 1:1 to 2 0:1 1:-1 row 1.0 to 1 0:1 row 2.0 to 2 \
    0:1\n\
    // in front\r;\t@type: DTMC\r;\t@parameters\r;\tp\r;\t@model\r;\tstate 0 init\r;\t1 : p\r;\t2 \
    : 1-p\r;\tstate 1 heads\r;\t1 : 1\r;\tstate 2\r;\t2 : 1\r; | heads | dtmc 1 p init 0 goal 1 \
    row 0.0 to 1 1:1 to 2 0:1 1:-1 row 1.0 to 1 0:1 row 2.0 to 2 0:1\n\
    @type: DTMC;@parameters;p;@model;state 0 init;1 : p;2 : 1-p;state 1 heads;1 : 1;state 2;2 : 1; \
    | init | dtmc 1 p init 0 goal 0 row 0.0 to 1 1:1 to 2 0:1 1:-1 row 1.0 to 1 0:1 row 2.0 to 2 \
    0:1\n\
    @type: DTMC;@parameters;p;@model;state 0 init;0 : 1/2;1 : 1/2*p;2 : 1/2-1/2*p;state 1 heads;1 \
    : 1;state 2;2 : 1; | heads | dtmc 2 p init 0 goal 1 row 0.0 to 0 0:1 to 1 1:1 to 2 0:1 1:-1 \
    row 1.0 to 1 0:2 row 2.0 to 2 0:2\n\
    @type: MDP;@parameters;p;@model;state 0 init;action a;1 : p;2 : 1-p;action b;1 : 1-p;2 : p;\
    state 1 heads;1 : 1;state 2;2 : 1; | heads | mdp 1 p init 0 goal 1 row 0.0 to 1 1:1 to 2 0:1 \
    1:-1 row 0.1 to 1 0:1 1:-1 to 2 1:1 row 1.0 to 1 0:1 row 2.0 to 2 0:1\n\
    @type:MDP;@model;state 000 init \"a b\";01 : 1;action \"x y\" [1];state 01 \"a b\";1:1 | a b | \
    mdp 1 init 0 goal 0 1 row 0.0 to 1 0:1 row 0.1 row 1.0 to 1 0:1\n\
    @type: DTMC;@model;state 0 init x init x;0 : 1;1 : 0;state 1;1 : 1 - 0; | x | dtmc 1 init 0 \
    goal 0 row 0.0 to 0 0:1 to 1 row 1.0 to 1 0:1\n\
    @type: DTMC;@model;state 0 init;0 : 1;state 1 heads;1 : 1; | heads | dtmc 1 init 0 goal 1 row \
    0.0 to 0 0:1 row 1.0 to 1 0:1\n\
    @type: DTMC;@model;state 0 init;1 : 1/4;2 : 3/4;state 1 heads;1 : 1;state 2;2 : 1; | heads | \
    dtmc 4 init 0 goal 1 row 0.0 to 1 0:1 to 2 0:3 row 1.0 to 1 0:4 row 2.0 to 2 0:4\n\
    @type: DTMC;@model;state 0 init;0 : 1/4;1 : 5/6;state 1 heads;1 : 0.5; | heads | dtmc 12 init \
    0 goal 1 row 0.0 to 0 0:3 to 1 0:10 row 1.0 to 1 0:6\n\
    @type: DTMC;@parameters;a b c d e;@model;state 0 init;1 : 1/8*a+1/8*b+1/8*c;2 : 1/8*d+1/8*e;0 \
    : 1/2-1/8*a-1/8*b-1/8*c;3 : 1/2-1/8*d-1/8*e;state 1 heads;1 : 1;state 2;2 : 1;state 3;3 : 1; | \
    heads | dtmc 8 a b c d e init 0 goal 1 row 0.0 to 1 1:1 2:1 4:1 to 2 8:1 16:1 to 0 0:4 1:-1 \
    2:-1 4:-1 to 3 0:4 8:-1 16:-1 row 1.0 to 1 0:8 row 2.0 to 2 0:8 row 3.0 to 3 0:8\n\
    // Exported model;@type: MDP;@value_type: fractions;@parameters;p;@placeholders;$rest : 1-p;\
    @reward_models;steps;@nr_states;3;@nr_choices;4;@model;state 0 [1] init;\taction stay [0];\
    \t\t0 : 1;\taction flip [0];\t\t1 : p;\t\t2 : $rest;state 1 [0] heads \"all done\";\taction 0 \
    [0];\t\t1 : 1;state 2 [0];\taction 0 [0];\t\t2 : 1; | heads | mdp 1 p init 0 goal 1 row 0.0 to \
    0 0:1 row 0.1 to 1 1:1 to 2 0:1 1:-1 row 1.0 to 1 0:1 row 2.0 to 2 0:1\n\
    // Exported model;// Original model type: DTMC;@type: DTMC;@parameters;p;@reward_models;;\
    @nr_states;13;@nr_choices;13;@model;state 0 init;\taction 0;\t\t1 : p;\t\t2 : 1-p;state 1;\
    \taction 0;\t\t3 : p;\t\t4 : 1-p;state 2;\taction 0;\t\t5 : p;\t\t6 : 1-p;state 3;\taction 0;\
    \t\t1 : p;\t\t7 : 1-p;state 4;\taction 0;\t\t8 : p;\t\t9 : 1-p;state 5;\taction 0;\t\t10 : p;\
    \t\t11 : 1-p;state 6;\taction 0;\t\t2 : p;\t\t12 : 1-p;state 7 one done;\taction 0;\t\t7 : 1;\
    state 8 two done;\taction 0;\t\t8 : 1;state 9 three done;\taction 0;\t\t9 : 1;state 10 four \
    done;\taction 0;\t\t10 : 1;state 11 five done;\taction 0;\t\t11 : 1;state 12 six done;\taction \
    0;\t\t12 : 1; | one | dtmc 1 p init 0 goal 7 row 0.0 to 1 1:1 to 2 0:1 1:-1 row 1.0 to 3 1:1 \
    to 4 0:1 1:-1 row 2.0 to 5 1:1 to 6 0:1 1:-1 row 3.0 to 1 1:1 to 7 0:1 1:-1 row 4.0 to 8 1:1 \
    to 9 0:1 1:-1 row 5.0 to 10 1:1 to 11 0:1 1:-1 row 6.0 to 2 1:1 to 12 0:1 1:-1 row 7.0 to 7 \
    0:1 row 8.0 to 8 0:1 row 9.0 to 9 0:1 row 10.0 to 10 0:1 row 11.0 to 11 0:1 row 12.0 to 12 \
    0:1\n\
    @nr_choices;;1;@placeholders;$h:1/2;@parameters;@type:   DTMC;@value_type:;;@model;;state 0 \
    init;0 : $h; | init | dtmc 2 init 0 goal 0 row 0.0 to 0 0:1\n\
    @type: MDP;@parameters;p q;@placeholders;$h : 1/2*p;@model;state 0 init;action a;1 : 1/2*p;2 : \
    1-p;action b;1 : p/2;2 : 1+p;action c;1 : $h;2 : 1-p;action d;1 : 1/2*q;2 : 1-q;action e;1 : \
    p;2 : 2*p/4;0 : 1/2*p;state 1 heads;action a;1 : 1;state 2;action a;2 : -1/2*p; | heads | mdp 2 \
    p q init 0 goal 1 row 0.0 to 1 1:1 to 2 0:2 1:-2 row 0.1 to 1 1:1 to 2 0:2 1:2 row 0.2 to 1 1:1 \
    to 2 0:2 1:-2 row 0.3 to 1 2:1 to 2 0:2 2:-2 row 0.4 to 1 1:2 to 2 1:1 to 0 1:1 row 1.0 to 1 \
    0:2 row 2.0 to 2 1:-1";

// The coin, some of whose lines change.
const COIN: &[u8] = b"@type: DTMC\n@parameters\np\n@model\nstate 0 init\n1 : p\n2 : 1-p\n\
    state 1 heads\n1 : 1\nstate 2\n2 : 1\n";

// From which line on how many lines of the coin give way to a text, and the line and the cause of
// the refusal.
const CHANGES: &str = "\
    5 | 1 | state 1 init; | 5 StateOrder\n\
    5 | 1 | state 0 \"init; | 5 OpenQuote\n\
    5 | 1 | state 0 !2 init; | 5 ExitRate\n\
    5 | 1 | state 0 {1} init; | 5 Observation\n\
    5 | 1 | state 0 init [1]; | 5 Syntax\n\
    5 | 1 | state 0 [1 init; | 5 Syntax\n\
    5 | 1 | state; | 5 Syntax\n\
    5 | 1 | state 0x \"; | 5 Syntax\n\
    5 | 1 | state 00000000000000000000000001 !; | 5 StateOrder\n\
    5 | 1 | state 0; | 11 InitCount\n\
    6 | 1 | 1 : p*p; | 6 SharedParameter\n\
    3 | 4 | p q;@model;state 0 init;1 : (p+1)/q; | 6 ParametricDivisor\n\
    6 | 1 | 1 : p^2; | 6 Power\n\
    1 | 1 | @type: CTMC; | 1 UnsupportedType\n\
    1 | 1 | @type:; | 1 UnsupportedType\n\
    1 | 1 | @type: DTMC DTMC; | 1 UnsupportedType\n\
    7 | 1 | 1 : 1-p; | 7 RepeatedTarget\n\
    7 | 1 | 01 : 1-p*p; | 7 RepeatedTarget\n\
    7 | 1 | 3 : 1-p; | 7 TargetRange\n\
    7 | 1 | 18446744073709551618 : 1-p; | 7 TargetRange\n\
    7 | 1 | 000000000000000000002 : 1-p; | 7 Syntax\n\
    7 | 1 | 2 1-p; | 7 Syntax\n\
    7 | 1 | 2 :; | 7 Syntax\n\
    8 | 1 | state 1 init heads; | 11 InitCount\n\
    9 | 1 |  | 8 NoChoice\n\
    11 | 1 |  | 10 NoChoice\n\
    3 | 1 | p p; | 3 RepeatedName\n\
    3 | 1 | p 2; | 3 Syntax\n\
    3 | 1 | p \"q\" r; | 3 Syntax\n\
    3 | 1 | p \"q; | 3 OpenQuote\n\
    3 | 1 | p b c d e f g h i j k l m n o a q; | 3 LimitParameters\n\
    3 | 1 | p a1234567890123456789012345678901234567890123456789012345678901234; | 3 LimitName\n\
    6 | 1 | 1 : q; | 6 UnknownName\n\
    6 | 1 | 1 : 2p; | 6 Syntax\n\
    6 | 1 | 1 : p/(1-1); | 6 DivisionByZero\n\
    6 | 1 | 1 : 4611686018427387904; | 6 Wide\n\
    6 | 1 | 1 : $r; | 6 UnknownPlace\n\
    6 | 1 | 1 : $r+1; | 6 Syntax\n\
    6 | 1 | 1 : (((((((((((((((((((((((((((((((((((((((((((((((((((((((((((((((((p)))))))))))))))))\
    )))))))))))))))))))))))))))))))))))))))))))))))); | 6 Deep\n\
    6 | 4 | 1 : 1/4000000007*p;2 : 1-p;state 1 heads;1 : 1/4000000009; | 11 CommonDenominator\n\
    4 | 1 |  | 4 Syntax\n\
    4 | 8 |  | 3 MissingSection\n\
    1 | 1 |  | 3 MissingSection\n\
    1 | 11 |  | 0 MissingSection\n\
    5 | 7 |  | 4 NoState\n\
    2 | 0 | @type: DTMC; | 2 RepeatedSection\n\
    2 | 0 | @type: MDP; | 2 RepeatedSection\n\
    4 | 1 | @modle; | 4 UnknownSection\n\
    9 | 1 | @type: DTMC; | 9 UnknownSection\n\
    6 | 2 | action a;1 : p;action b;2 : 1-p; | 8 ExtraChoice\n\
    6 | 0 | action a [1] [2]; | 6 Syntax\n\
    6 | 0 | action a [1] \"x; | 6 OpenQuote\n\
    5 | 0 | action a; | 5 Syntax\n\
    4 | 0 | @nr_states;4; | 13 CountMismatch\n\
    4 | 0 | @nr_choices;4; | 13 CountMismatch\n\
    4 | 0 | @nr_states;@placeholders; | 5 Syntax\n\
    4 | 0 | @placeholders;$a : p;$b : $a; | 6 Syntax\n\
    4 | 0 | @placeholders;$a : p;$a : p; | 6 RepeatedName\n\
    8 | 1 | state 1 heads?; | 8 NotText";

// A text, the goal's label, and the line and the cause of the refusal: a label that no state
// carries, and a value of five parameters.
const WHOLE: &str = "\
    @type: DTMC;@parameters;p;@model;state 0 init;1 : p;2 : 1-p;state 1 heads;1 : 1;state 2;2 : 1; \
    | tails | 11 UnknownLabel\n\
    @type: DTMC;@parameters;a b c d e;@model;state 0 init;1 : 1/8*a+1/8*b+1/8*c+1/8*d+1/8*e; | \
    heads | 6 LimitValueParameters";

// Writes the terms of an entry behind its target.
fn write_entry(out: &mut MemSink, entry: &Entry) -> Result<(), WriteFault> {
    write_words(
        out,
        &[Word::Text(b" to "), Word::Count(u64::from(entry.target))],
    )?;
    for i in 0..entry.poly.len() {
        let (set, number) = entry.poly.term(i);
        let set = Word::Count(u64::from(set));
        write_words(
            out,
            &[
                Word::Text(b" "),
                set,
                Word::Text(b":"),
                Word::Number(number),
            ],
        )?;
    }
    Ok(())
}

// Writes a model's kind, its common denominator and the names of its parameters.
fn write_head(out: &mut MemSink, model: &Model) -> Result<(), WriteFault> {
    let kind: &[u8] = match model.kind() {
        Kind::Dtmc => b"dtmc ",
        Kind::Mdp => b"mdp ",
    };
    write_words(
        out,
        &[Word::Text(kind), Word::Number(i128::from(model.common()))],
    )?;
    for i in 0..model.names().len() {
        write_words(out, &[Word::Text(b" "), Word::Text(model.names().get(i))])?;
    }
    Ok(())
}

// Writes a model's initial state and its goal states.
fn write_states(out: &mut MemSink, model: &Model) -> Result<(), WriteFault> {
    write_words(
        out,
        &[
            Word::Text(b" init "),
            Word::Count(u64::from(model.init())),
            Word::Text(b" goal"),
        ],
    )?;
    for s in 0..model.states() {
        if model.is_goal(s) {
            write_words(out, &[Word::Text(b" "), Word::Count(u64::from(s))])?;
        }
    }
    Ok(())
}

// Writes a model's rows.
fn write_rows(out: &mut MemSink, model: &Model) -> Result<(), WriteFault> {
    for s in 0..model.states() {
        for a in 0..model.choices(s) {
            let state = Word::Count(u64::from(s));
            let choice = Word::Count(u64::from(a));
            write_words(
                out,
                &[Word::Text(b" row "), state, Word::Text(b"."), choice],
            )?;
            for entry in model.row(s, a).entries() {
                write_entry(out, entry)?;
            }
        }
    }
    Ok(())
}

fn write_model(out: &mut MemSink, model: &Model) -> Result<(), WriteFault> {
    write_head(out, model)?;
    write_states(out, model)?;
    write_rows(out, model)
}

// The words that tell a model.
fn reported(alloc: Global, model: &Model) -> Result<String, Unreported> {
    let mut out = MemSink::new(alloc, 10000, 10000, Vec::new(alloc))?;
    match write_model(&mut out, model) {
        Ok(()) => Ok(String::from_utf8_lossy(alloc, out.taken())?),
        Err(_) => Err(Unreported::Cell),
    }
}

// The model that a text stands for.
fn model_reported(alloc: Global, text: &[u8], label: &str) -> Result<String, Unreported> {
    if text.len() >= 100000 {
        return Err(Unreported::Cell);
    }
    match read_model(alloc, text, label.as_bytes()) {
        Ok(model) => {
            let reported = reported(alloc, &model);
            drop(model);
            reported
        }
        Err(_) => Err(Unreported::Cell),
    }
}

struct Models;

impl Teller for Models {
    type Reported = String;

    type Error = Unreported;

    fn tell(&self, alloc: Global, asked: &str) -> Result<String, Unreported> {
        let (text, label) = cut(asked);
        let text = text_of(alloc, text)?;
        model_reported(alloc, &text, label)
    }
}

#[test]
fn reads_models(rt: HostRuntime) {
    each_row(&rt, rt.alloc(), MODELS, &Models);
}

// The line at which a text is refused, and the cause.
fn refusal(alloc: Global, text: &[u8], label: &str) -> Option<(u32, &'static str)> {
    if text.len() >= 1 << 31 {
        return None;
    }
    let error = read_model(alloc, text, label.as_bytes()).err()?;
    Some((error.line, error.cause.name()))
}

// The same as it is shown.
fn refusal_reported(alloc: Global, text: &[u8], label: &str) -> Result<String, Unreported> {
    match refusal(alloc, text, label) {
        Some((line, cause)) => Ok(format!(in alloc; "{line} {cause}")?),
        None => Err(Unreported::Cell),
    }
}

struct Changes;

impl Teller for Changes {
    type Reported = String;

    type Error = Unreported;

    fn tell(&self, alloc: Global, asked: &str) -> Result<String, Unreported> {
        let (from, count, new) = cut_two(asked);
        let new = text_of(alloc, new)?;
        let text = changed(
            alloc,
            COIN,
            number(from) as usize,
            number(count) as usize,
            &new,
        )?;
        refusal_reported(alloc, &text, "heads")
    }
}

#[test]
fn refuses_the_first_fault(rt: HostRuntime) {
    each_row(&rt, rt.alloc(), CHANGES, &Changes);
}

struct WholeTexts;

impl Teller for WholeTexts {
    type Reported = String;

    type Error = Unreported;

    fn tell(&self, alloc: Global, asked: &str) -> Result<String, Unreported> {
        let (text, label) = cut(asked);
        let text = text_of(alloc, text)?;
        refusal_reported(alloc, &text, label)
    }
}

#[test]
fn refuses_by_the_whole_text(rt: HostRuntime) {
    each_row(&rt, rt.alloc(), WHOLE, &WholeTexts);
}

// How many line feeds a text has, 2^26, and its refusal: they are as many lines, and lack a section.
const FEEDS: &str = "67108864 | 67108864 MissingSection";

struct Feeds;

impl Teller for Feeds {
    type Reported = String;

    type Error = Unreported;

    fn tell(&self, alloc: Global, asked: &str) -> Result<String, Unreported> {
        let feeds = vec![in alloc; b'\n'; number(asked) as usize]?;
        refusal_reported(alloc, &feeds, "heads")
    }
}

#[test]
fn reads_many_lines(rt: HostRuntime) {
    each_row(&rt, rt.alloc(), FEEDS, &Feeds);
}
