ghost use Rattle.std.specs.Prelude.{◌≡◌};
ghost use Rattle.lift_model.specs.Model.{support, choices_support};

use crate::entry::Entry;

/// A choice of a state: its entries, in order.
#[derive(Drop)]
pub struct Row {
    entries: Vec<Entry>,
    support: u16,
    // nothing is promised of it
    hash: u64,
}

impl std::marker::Model for Row {
    ghost use Rattle.std.specs.Prelude.{◌≡◌, List};
    ghost use Rattle.lift_model.specs.Model.{support as support_of};
    ghost use Rattle.lift_model.specs.declared.entry.Entry.{Entry};

    ghost Value = { List Entry };

    ghost view = { λ r. r.entries.items };

    ghost invariant = { λ r. r.support ≡ support_of r.entries.items };
}

/// The set of the parameters that occur in the entries.
fn support_of(entries: &[Entry]) -> u16
    ensures { result ≡ support entries.now }
{
    let mut set = 0;
    for entry in entries {
        set |= entry.poly.support();
    }
    set
}

/// A hash, and one number more.
fn mixed(hash: u64, number: u64) -> u64 {
    (hash.rotate_left(5) ^ number).wrapping_mul(0x9e37_79b9_7f4a_7c15)
}

/// A hash of the polynomials, by which equal rows are looked for.
fn hash_of(entries: &[Entry]) -> u64 {
    let mut hash = 0;
    for entry in entries {
        let poly = &entry.poly;
        for index in 0..poly.len() {
            let (set, coefficient) = poly.term(index);
            hash = mixed(hash, u64::from(set));
            hash = mixed(hash, (coefficient.unsigned_abs() % (1 << 64)) as u64);
        }
        hash = mixed(hash, 1);
    }
    hash ^ (hash >> 32)
}

impl Row {
    /// The row with these entries. Takes no memory, and is linear in the number of their terms.
    pub fn new(entries: Vec<Entry>) -> Self
        ensures { result ≡ entries.items }
    {
        let support = support_of(&entries);
        let hash = hash_of(&entries);
        Row {
            entries,
            support,
            hash,
        }
    }

    /// The entries.
    pub fn entries(&self) -> &[Entry]
        ensures { result.now ≡ self.now }
    {
        &self.entries
    }

    /// The set of the parameters that occur in the entries.
    pub fn support(&self) -> u16
        ensures { result ≡ support self.now }
    {
        self.support
    }

    /// A hash of the polynomials, made with the row. Rows with the same polynomials have the same, of which
    /// nothing is promised.
    pub(crate) fn hash(&self) -> u64 {
        self.hash
    }
}

/// The set of the parameters that occur in these rows.
pub(crate) fn choices_support(choices: &[Row]) -> u16
    ensures { result ≡ choices_support choices.now }
{
    let mut set = 0;
    for row in choices {
        set |= row.support();
    }
    set
}
