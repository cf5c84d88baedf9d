// What the words ask for.
ghost use Rattle.std.specs.Prelude.{◌≡◌, Some, IfOk, IfErr};
ghost use Rattle.tp_words.specs.Command.{wanted_by};
ghost use Rattle.tp_words.specs.Subject.{HasSize};
ghost use Rattle.tp_words.specs.Words.{wanted_of};
ghost use Rattle.tp_call.specs.Parts.{IsWordsRefusal};

use crate::status::Status;
use std::alloc::Global;
use tp_value::Text;
use tp_words::{Command, WordsRefusal, read_words};

/// The command that the words ask for.
pub fn command_for(alloc: Global, words: &[Text]) -> Result<Command, Status>
    ensures accepted { IfOk result (λ c. wanted_of words.now ≡ Some (wanted_by c)) }
    ensures refused { IfErr result (IsWordsRefusal words.now) }
    ensures size { IfOk result (λ c. HasSize c.mode) }
{
    match read_words(alloc, words) {
        Ok(command) => Ok(command),
        Err(WordsRefusal::Refused) => Err(Status::WordsRefused),
        Err(WordsRefusal::NoMemory) => Err(Status::NoMemory),
    }
}
