ghost use Rattle.plift_words.specs.Laws.{OthersAreAtFault, PlainLinesAreNot};

/// Holds the law that a line is at fault as a whole exactly where it isn't plain. It does nothing.
pub fn plain_lines_ask()
    ensures others { OthersAreAtFault }
    ensures plain { PlainLinesAreNot }
{}
