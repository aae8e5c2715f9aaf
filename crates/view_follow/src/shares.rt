// The shares of the leaves of a report that has come in part.
ghost use Rattle.std.specs.Prelude.{◌≡◌, ◌+◌, ◌≤◌, ◌^◌};

use crate::line::NodeLine;

/// The volume of the region, in the units of shares.
pub(crate) const WHOLE: u32 = 1 << 20;

/// The shares of the leaves that have come, of each kind, in units of 1/2^20 of the region's volume.
#[derive(Clone, Copy)]
pub struct Shares {
    pub accept: u32,
    pub reject: u32,
    pub unknown: u32,
    ghost within: { accept + reject + unknown ≤ 2 ^ 20 },
}

impl Shares {
    ghost use Rattle.view_follow.specs.Progress.{counted, greatest_power, percent};
    ghost use Rattle.view_follow.specs.Progress.{share_sum, shares_data, whole, with_leaf};

    /// A share in percent, rounded down.
    pub fn percent(share: u32) -> u64
        ensures { result ≡ percent share }
    {
        u64::from(share) * 100 / u64::from(WHOLE)
    }

    /// The greatest power of 2 that divides all that has come.
    pub fn greatest_power(self) -> u32
        ensures { result ≡ greatest_power (share_sum (shares_data self)) }
    {
        let sum = self.sum();
        sum & (2 * WHOLE - sum)
    }

    /// All that has come.
    pub fn sum(self) -> u32
        ensures sum { result ≡ share_sum (shares_data self) }
        ensures within { result ≤ whole }
    {
        self.accept + self.reject + self.unknown
    }

    // How much of a share is counted: nothing goes beyond the whole.
    fn counted(self, share: u32) -> u32
        ensures counted { result ≡ counted (shares_data self) share }
        ensures within { result + share_sum (shares_data self) ≤ whole }
    {
        share.min(WHOLE - self.sum())
    }

    /// With a leaf of that share more.
    pub fn with(self, leaf: NodeLine, share: u32) -> Shares
        ensures { shares_data result ≡ with_leaf (shares_data self) leaf share }
    {
        let Shares {
            accept,
            reject,
            unknown,
        } = self;
        let more = self.counted(share);
        match leaf {
            NodeLine::Split => self,
            NodeLine::Accept => Shares {
                accept: accept + more,
                reject,
                unknown,
            },
            NodeLine::Reject => Shares {
                accept,
                reject: reject + more,
                unknown,
            },
            NodeLine::Unknown => Shares {
                accept,
                reject,
                unknown: unknown + more,
            },
        }
    }
}
