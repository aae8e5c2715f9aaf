//! Tests of lists of names.

use crate::cells::each_row;
use lift_names::Names;
use std::alloc::{AllocError, Global};
use std::string::String;
use test_cells::{Teller, count, cut};

/// Names that are added in turn, and whether the last one is new.
const ADDED: &str = "\
p | true
p q1 | true
p q1 p | false
p q1 p  | true";

/// Adds names that stand between blanks, and tells whether the last one is new.
fn add(names: &mut Names, words: &str) -> Result<bool, AllocError> {
    let mut is_new = false;
    for word in words.split(' ') {
        if names.len() < 16 {
            is_new = names.push(word.as_bytes())?;
        }
    }
    Ok(is_new)
}

/// The list of names that stand between blanks; an empty one of the empty text.
pub(crate) fn names_of(alloc: Global, words: &str) -> Result<Names, AllocError> {
    let mut names = Names::new(alloc);
    if !words.is_empty() {
        add(&mut names, words)?;
    }
    Ok(names)
}

struct Added;

impl Teller for Added {
    type Reported = bool;

    type Error = AllocError;

    fn tell(&self, alloc: Global, asked: &str) -> Result<bool, AllocError> {
        let mut names = Names::new(alloc);
        let is_new = add(&mut names, asked);
        drop(names);
        is_new
    }
}

#[test]
fn adds_names(rt: HostRuntime) {
    each_row(&rt, rt.alloc(), ADDED, &Added);
}

/// The names of the tables below, of which the last has no letters.
const NAMES: &str = "p q1 p ";

/// A name that is looked for, and its place.
const FOUND: &str = "\
p | Some(0)
q1 | Some(1)
q | None
 | Some(2)";

struct Found;

impl Teller for Found {
    type Reported = String;

    type Error = AllocError;

    fn tell(&self, alloc: Global, asked: &str) -> Result<String, AllocError> {
        let names = names_of(alloc, NAMES)?;
        let place = names.find(asked.as_bytes());
        drop(names);
        format!(in alloc; "{place:?}")
    }
}

/// A place, a name, and whether it is one of three names and stands there.
const KEPT: &str = "\
0 | p | true
1 | q1 | true
2 |  | true
1 | p | false";

/// Whether these are three names, of which that one stands at the place.
fn has_name(names: &Names, place: u32, name: &[u8]) -> bool {
    names.len() == 3 && place < 3 && names.get(place) == name
}

struct Kept;

impl Teller for Kept {
    type Reported = bool;

    type Error = AllocError;

    fn tell(&self, alloc: Global, asked: &str) -> Result<bool, AllocError> {
        let (place, name) = cut(asked);
        let names = names_of(alloc, NAMES)?;
        let has_name = has_name(&names, count(place), name.as_bytes());
        drop(names);
        Ok(has_name)
    }
}

#[test]
fn keeps_names_in_order(rt: HostRuntime) {
    each_row(&rt, rt.alloc(), FOUND, &Found);
    each_row(&rt, rt.alloc(), KEPT, &Kept);
}
