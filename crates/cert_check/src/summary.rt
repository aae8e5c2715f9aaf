// The numbers of a report's leaves.
ghost use Rattle.std.specs.Prelude.{◌≡◌, ◌+◌, ◌<◌, ◌^◌};
ghost use Rattle.cert_check.specs.Answer.{no_leaves, one_accept, one_reject, one_unknown};

/// How many leaves of each kind a report has, and its version.
#[derive(Clone, Copy, Debug, PartialEq, Eq)]
pub struct Summary {
    /// The accepting leaves.
    pub accept: u32,
    /// The rejecting leaves.
    pub reject: u32,
    /// The unknown leaves.
    pub unknown: u32,
    /// The version of the report's text.
    pub version: u32,
}

impl Summary {
    /// No leaf of a report of that version.
    pub(crate) fn none(version: u32) -> Summary
        ensures { result ≡ no_leaves version }
    {
        Summary {
            accept: 0,
            reject: 0,
            unknown: 0,
            version,
        }
    }

    /// An accepting leaf more.
    pub(crate) fn one_accept(self) -> Summary
        requires { self.accept + 1 < 2 ^ 32 }
        ensures { result ≡ one_accept self }
    {
        Summary {
            accept: self.accept + 1,
            ..self
        }
    }

    /// A rejecting leaf more.
    pub(crate) fn one_reject(self) -> Summary
        requires { self.reject + 1 < 2 ^ 32 }
        ensures { result ≡ one_reject self }
    {
        Summary {
            reject: self.reject + 1,
            ..self
        }
    }

    /// An unknown leaf more.
    pub(crate) fn one_unknown(self) -> Summary
        requires { self.unknown + 1 < 2 ^ 32 }
        ensures { result ≡ one_unknown self }
    {
        Summary {
            unknown: self.unknown + 1,
            ..self
        }
    }
}
