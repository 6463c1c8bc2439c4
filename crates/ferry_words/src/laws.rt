//! Laws on what words mean.

ghost use Rattle.std.specs.Prelude.{◌≡◌, ◌↔◌, ℕ, List, Ok, Err};
ghost use Rattle.ferry_words.specs.Laws.{IsCommand, IsFirstWrong};
ghost use Rattle.ferry_words.specs.Words.{command_of};
ghost use Rattle.ferry_words.specs.declared.command.Command.{Command};

/// Laws with nothing to run: words are one command, or have one first wrong word.
///
/// `command_of` is a function, so the answers of `read_words` exclude each other, and one of them
/// always holds. The clauses say what each of them is apart from the order of tests.
pub fn words_laws()
    // Words mean a command exactly where they are spelled so.
    ensures command { (words : List (List ℕ)) (command : Command)
        → (command_of words ≡ Ok command) ↔ IsCommand words command }

    // A number is told exactly where the words before can go on to a command and with the word they can't; or where the words
    // themselves can, and are none, and the number is one more than there are.
    ensures wrong { (words : List (List ℕ)) (number : ℕ)
        → (command_of words ≡ Err number) ↔ IsFirstWrong words number }
{}
