use corner_lift::Lifted;

/// How vectors are lowered: on which rows, and until the initial state's number isn't above the limit.
#[derive(Clone, Copy)]
pub(crate) struct Descent<'a> {
    pub(crate) rows: &'a Lifted<'a>,
    pub(crate) limit: i64,
}
