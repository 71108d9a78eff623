// What the arguments ask for.
ghost use Rattle.std.specs.Prelude.{Some, [], ◌∷◌, map, string_bytes};
ghost use Rattle.sheet_feed.specs.Asking.{Asks};

use runner::Output;

#[derive(Clone, Copy, PartialEq, Eq, Debug)]
pub enum Task<'a> {
    Usage,
    /// the script on standard input
    Input(Output),
    /// the script of this file
    File(Output, &'a str),
}

// What a single word asks for.
fn task_of_one(word: &str) -> Task<'_>
    ensures asks { Asks (Some result) (word.now ∷ []) }
{
    if word == "help" {
        Task::Usage
    } else if word == "trace" {
        Task::Input(Output::Trace)
    } else {
        Task::File(Output::Plain, word)
    }
}

// What two words ask for.
fn task_of_two<'a>(word: &str, name: &'a str) -> Option<Task<'a>>
    ensures asks { Asks result (word.now ∷ name.now ∷ []) }
{
    (word == "trace").then_some(Task::File(Output::Trace, name))
}

/// The task, if the arguments name one. A file that is called `trace` or `help` is named by a path, as `./trace`.
pub fn task_of(words: &[String]) -> Option<Task<'_>>
    ensures asks { Asks result (map string_bytes words.now) }
{
    match words {
        [] => Some(Task::Input(Output::Plain)),
        [word] => Some(task_of_one(word.as_str())),
        [word, name] => task_of_two(word.as_str(), name.as_str()),
        _ => None,
    }
}
