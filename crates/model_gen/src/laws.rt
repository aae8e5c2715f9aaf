ghost use Rattle.model_gen.specs.Laws.{TextIsShort, TextIsLadder, TextNamesRegion};
ghost use Rattle.model_gen.specs.Laws.{LadderHasStates, LadderHasParameters, LadderIsAdmitted};
ghost use Rattle.model_gen.specs.Laws.{LadderIsCase};

use drn_read::{lines_say_more, texts_are_valid};

/// Holds the laws of ladders: the length of the text, the model that it stands for, and that this is
/// a case over the region that the program asks for. It does nothing.
pub fn ladders_are_cases()
    ensures short { TextIsShort }
    ensures reads { TextIsLadder }
    ensures states { LadderHasStates }
    ensures parameters { LadderHasParameters }
    ensures admitted { LadderIsAdmitted }
    ensures case { LadderIsCase }
    ensures region { TextNamesRegion }
{
    lines_say_more();
    texts_are_valid();
}
