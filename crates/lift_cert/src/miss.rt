/// The first test that a certificate fails. Its numbers are above -2^126 and below 2^126.
///
/// `state` and `choice` name a row, and `corner` a corner of it. Accepting certificates give
/// `Goal`, `Row` and `Limit`; `Unranked` and `Rate` come with rejecting ones.
#[derive(Clone, Copy, Debug)]
pub enum Miss {
    /// The value of a goal state isn't 2 to the precision.
    Goal {
        state: u32,
        value: i64,
    },
    /// The value of a state without rank isn't 0. Of rejecting certificates alone.
    Unranked {
        state: u32,
        value: i64,
    },
    /// At that corner the row's weighted sum is on the wrong side of the state's value times what
    /// the weights sum to. `left` is the sum, and `right` the product.
    Row {
        state: u32,
        choice: u32,
        corner: u32,
        left: i128,
        right: i128,
    },
    /// At that corner too little of the row's weight leads to lower ranks: times 2 to the `e`, it
    /// is below the whole. Of rejecting certificates alone.
    Rate {
        state: u32,
        choice: u32,
        corner: u32,
        weight: i128,
        e: u32,
        whole: i128,
    },
    /// The value of the initial state is on the wrong side of the bound. `left` is the value times
    /// the bound's denominator, and `right` the bound's numerator times 2 to the precision.
    Limit {
        left: i128,
        right: i128,
    },
}
