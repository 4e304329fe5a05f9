ghost use Rattle.history_reader.specs.Laws.{MeansOneHistory, MeaningIsShaped, MeansOrIsRefused, HasOneFault, HasSomeAnswer};

/// What documents mean, which `read_history` answers by: a text means at most one history, of the shapes that the type
/// keeps, and then is refused for want of memory alone; a text that means none is refused, for one fault at one place.
/// It does nothing.
pub fn reading_has_one_answer()
    ensures one_history { MeansOneHistory }
    ensures shaped { MeaningIsShaped }
    ensures either { MeansOrIsRefused }
    ensures some_answer { HasSomeAnswer }
    ensures one_fault { HasOneFault }
{}
