//! The words of the program.
ghost use Rattle.std.specs.Prelude.{◌≡◌, ◌↔◌, ℕ, List, [], ◌∷◌, IsTrue, codes};
ghost use Rattle.line_text.specs.Said.{IsTheOne};
ghost use Rattle.twin_run.specs.Words.{texts_of, IsFolder, SayTask, WordsSay, WordsName};

use line_text::parse_number;

/// The most rounds that are generated.
const MOST_ROUNDS: u64 = 10000;

/// What the program runs.
#[derive(Clone, Copy, Debug, PartialEq, Eq)]
pub(crate) enum Task {
    /// The commands that its input says.
    Commands,
    /// So many rounds of generated commands, from this number on.
    Generate { number: u64, count: u64 },
}

/// Whether a word may name a folder.
fn is_folder(word: &str) -> bool
    ensures { IsTrue result ↔ IsFolder word.now }
{
    match word.as_bytes() {
        [] => false,
        [first, ..] => *first != b'-',
    }
}

/// The task that three words say.
fn parse_generate(option: &str, number: &str, count: &str) -> Option<Task>
    ensures { IsTheOne result (SayTask (option.now ∷ number.now ∷ count.now ∷ [])) }
{
    if option != "--gen" {
        return None;
    }
    let number = parse_number(number.as_bytes())?;
    let count = parse_number(count.as_bytes())?;
    if count > MOST_ROUNDS {
        return None;
    }
    Some(Task::Generate { number, count })
}

/// The task that words say where they name no folder.
fn parse_task(words: &[String]) -> Option<Task>
    ensures { IsTheOne result (SayTask (texts_of words.now)) }
{
    match words {
        [] => Some(Task::Commands),
        [option, number, count] => {
            parse_generate(option.as_str(), number.as_str(), count.as_str())
        }
        _ => None,
    }
}

/// The task that words say; none exactly where they have none of the four forms.
pub(crate) fn parse_words(words: &[String]) -> Option<Task>
    ensures { IsTheOne result (WordsSay (texts_of words.now)) }
{
    match words {
        [first, rest @ ..] if is_folder(first.as_str()) => parse_task(rest),
        _ => parse_task(words),
    }
}

/// The folder that words name, else `twins-data`; so it is for words of any form. It takes no memory.
pub fn folder_of(words: &[String]) -> &str
    ensures named { (folder : List ℕ) → WordsName (texts_of words.now) folder → result.now ≡ folder }
    ensures other { ((folder : List ℕ) → WordsName (texts_of words.now) folder → ⊥) →
        result.now ≡ codes "twins-data" }
{
    match words {
        [first, rest @ ..] if is_folder(first.as_str()) && parse_task(rest).is_some() => {
            first.as_str()
        }
        _ => "twins-data",
    }
}
