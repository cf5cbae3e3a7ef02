//! Laws over the words of links.
ghost use Rattle.trace_model.specs.Links.{ThreeIsNoMark, WordHasItsBits, WordDecidesLink};

/// The word of a link that fits one determines the link: no other link that fits has it. It has 64 bits, and its lowest
/// two are never both set. So a compare and exchange of words is one of links.
pub fn words_decide_links()
    ensures one { WordDecidesLink }
    ensures bits { WordHasItsBits }
    ensures marks { ThreeIsNoMark }
{}
