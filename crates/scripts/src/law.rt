//! Laws of scripts.
ghost use Rattle.scripts.specs.Writing.{WritesOne};
ghost use Rattle.scripts.specs.Reading.{MeansOne, HasOneBad, IsGoodOrBad};

/// The law of lines: a line writes at most one event. Nothing is computed here; the law is the contract.
pub fn line_writes_one_event(line: &[u8])
    ensures { WritesOne line.now }
{}

/// The law of texts: a text means at most one script, or it has one first bad line, and not both. Nothing is computed here;
/// the law is the contract.
pub fn text_means_one_script(text: &[u8])
    ensures script { MeansOne text.now }
    ensures bad { HasOneBad text.now }
    ensures apart { IsGoodOrBad text.now }
{}
