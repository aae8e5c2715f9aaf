// The terms that were written last, which are often those that come next, with their texts.
ghost use Rattle.std.specs.Prelude.{◌≡◌, ◌<◌, [], IfSome, IsTrue};
ghost use Rattle.cert_text.specs.Terms.{terms_text, terms_of_few};
ghost use Rattle.cert_text.specs.declared.recent_terms.TheConstants.{PLACES};

use crate::short_text::ShortText;
use crate::terms::write_terms;
use lift_poly::MultiAffine;
use std::array::from_fn;
use std::marker::Model;

/// How many texts are kept.
const PLACES: usize = 16;

/// At most two terms, each a set and its coefficient.
#[derive(Clone, Copy, PartialEq, Eq)]
enum FewTerms {
    No,
    One((u16, i128)),
    Two((u16, i128), (u16, i128)),
}

impl FewTerms {
    /// The terms of a polynomial. `None`: there are more than two.
    fn of(poly: &MultiAffine) -> Option<Self>
        ensures { IfSome result (λ terms. terms_of_few terms ≡ poly.now) }
    {
        match poly.len() {
            0 => Some(FewTerms::No),
            1 => Some(FewTerms::One(poly.term(0))),
            2 => Some(FewTerms::Two(poly.term(0), poly.term(1))),
            _ => None,
        }
    }

    /// Where their text is kept, by how many they are and the last one.
    fn place(self) -> usize
        ensures { result < PLACES }
    {
        let (count, (set, coefficient)) = match self {
            FewTerms::No => return 0,
            FewTerms::One(term) => (1, term),
            FewTerms::Two(_, term) => (2, term),
        };
        let low = (coefficient.unsigned_abs() % PLACES as u128) as usize;
        (2 * usize::from(set) + count + 5 * low) % PLACES
    }
}

/// At most two terms, with their text.
#[derive(Drop)]
struct KeptTerms {
    terms: FewTerms,
    text: ShortText,
}

impl Model for KeptTerms {
    ghost use Rattle.std.specs.Prelude.{◌≡◌, List};
    ghost use Rattle.lift_poly.specs.Polynomial.{Term};
    ghost use Rattle.cert_text.specs.Terms.{terms_text, terms_of_few};

    ghost Value = { List Term };

    ghost view = { λ k. terms_of_few k.terms };

    ghost invariant = { λ k. k.text.taken ≡ terms_text (terms_of_few k.terms) };
}

impl KeptTerms {
    /// No terms, whose text is empty.
    fn none() -> Self
        ensures { result ≡ [] }
    {
        KeptTerms {
            terms: FewTerms::No,
            text: ShortText::new(),
        }
    }

    /// The terms of a polynomial, whose text is written. `None`: that is too long.
    fn written(terms: FewTerms, poly: &MultiAffine) -> Option<Self>
        requires { terms_of_few terms ≡ poly.now }
        ensures { IfSome result (λ kept. kept ≡ poly.now) }
    {
        let mut text = ShortText::new();
        write_terms(&mut text, poly).ok()?;
        Some(KeptTerms { terms, text })
    }

    /// Whether they are these.
    fn are(&self, terms: FewTerms) -> bool
        ensures { IsTrue result → self.now ≡ terms_of_few terms }
    {
        self.terms == terms
    }

    /// Their text.
    fn text(&self) -> &[u8]
        ensures { result.now ≡ terms_text self.now }
    {
        self.text.as_slice()
    }
}

/// Terms with their texts, each of which is kept until others take its place.
#[derive(Drop)]
pub(crate) struct RecentTerms {
    kept: [KeptTerms; PLACES],
}

impl RecentTerms {
    /// Nothing was written yet. It takes no memory.
    pub fn new() -> Self {
        RecentTerms {
            kept: from_fn(|_| KeptTerms::none()),
        }
    }

    /// The text of a polynomial's terms, each behind a blank. It is written only where it isn't kept. `None`: there are
    /// more than two terms, or their text is too long.
    pub fn text_of(&mut self, poly: &MultiAffine) -> Option<&[u8]>
        ensures { IfSome result (λ text. text.now ≡ terms_text poly.now) }
    {
        let terms = FewTerms::of(poly)?;
        let kept = &mut self.kept[terms.place()];
        if !kept.are(terms) {
            *kept = KeptTerms::written(terms, poly)?;
        }
        Some(kept.text())
    }
}
