// The lines of a report's text as they come, as far as they tell where its tree stands.
ghost use Rattle.std.specs.Prelude.{◌≡◌};
ghost use Rattle.view_follow.specs.Nodes.{line_behind, node_ended, node_in, node_of, with_byte};

/// A node of a report's tree, by the first line that it has in the text.
#[derive(Clone, Copy)]
pub enum NodeLine {
    Split,
    Accept,
    Reject,
    Unknown,
}

/// How far a line has come.
#[derive(Clone, Copy)]
pub enum Line {
    Empty,
    /// Its first byte has come.
    One(u8),
    /// Its first two bytes have come. No other line of a report begins as a node's does.
    Begun(Option<NodeLine>),
}

// The node whose line begins with these two bytes.
fn node_of(first: u8, second: u8) -> Option<NodeLine>
    ensures { result ≡ node_of first second }
{
    match (first, second) {
        (b's', b'p') => Some(NodeLine::Split),
        (b'a', b'c') => Some(NodeLine::Accept),
        (b'r', b'e') => Some(NodeLine::Reject),
        (b'u', b'n') => Some(NodeLine::Unknown),
        _ => None,
    }
}

impl Line {
    // The node whose line it is.
    fn node(self) -> Option<NodeLine>
        ensures { result ≡ node_in self }
    {
        match self {
            Line::Empty | Line::One(_) => None,
            Line::Begun(node) => node,
        }
    }

    // The line with a byte more that doesn't end it.
    fn with(self, byte: u8) -> Line
        ensures { result ≡ with_byte self byte }
    {
        match self {
            Line::Empty => Line::One(byte),
            Line::One(first) => Line::Begun(node_of(first, byte)),
            Line::Begun(node) => Line::Begun(node),
        }
    }

    /// The line behind one byte more, and the node whose line that byte ends.
    pub fn behind(self, byte: u8) -> (Line, Option<NodeLine>)
        ensures line { result.0 ≡ line_behind self byte }
        ensures node { result.1 ≡ node_ended self byte }
    {
        if byte == b'\n' {
            (Line::Empty, self.node())
        } else {
            (self.with(byte), None)
        }
    }
}
