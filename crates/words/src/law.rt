//! What follows from the definitions, as the contract of a function that does nothing.
ghost use Rattle.words.specs.Laws.{HasOneCommand};
ghost use Rattle.words.specs.Settings.{texts_of};

/// Words are of one command at most.
pub fn words_have_one_command(words: &[&str])
    ensures { HasOneCommand (texts_of words.now) }
{
    let _words = words;
}
