//! What follows from the definitions, as the contract of a function that does nothing.
ghost use Rattle.emu_server.specs.Laws.{HasOneAnswer};
ghost use Rattle.words.specs.Settings.{texts_of};

use words::words_have_one_command;

/// Words and the bytes of a history have at most one answer: one status, and one text that is written with it.
pub fn words_have_one_answer(words: &[&str], bytes: &[u8])
    ensures { HasOneAnswer (texts_of words.now) bytes.now }
{
    words_have_one_command(words);
    let _bytes = bytes;
}
