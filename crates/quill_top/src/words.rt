//! The words of the command line.
ghost use Rattle.std.specs.Prelude.{◌≡◌, [], ◌∷◌, None, Some, MatchOption, string_bytes};
ghost use Rattle.quill_top.specs.Words as model;
ghost use Rattle.quill_top.specs.Words.{texts_of, can_name};
ghost use Rattle.quill_top.specs.Tasks.{task_of};

/// What words ask for.
#[derive(Clone, Copy, Debug)]
pub(crate) enum Task<'a> {
    /// The text of a script over a document.
    Run(Names<'a>),
    /// The canonical bytes of the file of this name.
    Save(&'a str),
}

/// The files of a run.
#[derive(Clone, Copy, Debug)]
pub(crate) struct Names<'a> {
    /// The document's.
    pub(crate) file: &'a str,
    /// The script's.
    pub(crate) script: &'a str,
}

/// What these words ask for.
pub(crate) fn accepted(words: &[String]) -> Option<Task<'_>>
    ensures { MatchOption result (model.accepted (texts_of words.now) ≡ None) (λ task. model.accepted (texts_of words.now) ≡ Some (task_of task)) }
{
    match words {
        [mode, file] => save_task(mode, file),
        [mode, file, script] => run_task(mode, file, script),
        _ => None,
    }
}

// What the words `run FILE SCRIPT` ask for.
fn run_task<'a>(mode: &'a String, file: &'a String, script: &'a String) -> Option<Task<'a>>
    ensures { MatchOption result
        (model.accepted (string_bytes mode.now ∷ string_bytes file.now ∷ string_bytes script.now ∷ []) ≡ None)
        (λ task. model.accepted (string_bytes mode.now ∷ string_bytes file.now ∷ string_bytes script.now ∷ []) ≡ Some (task_of task)) }
{
    if mode.as_str() != "run" {
        return None;
    }
    if !can_name(file.as_str()) {
        return None;
    }
    if !can_name(script.as_str()) {
        return None;
    }
    Some(Task::Run(Names {
        file: file.as_str(),
        script: script.as_str(),
    }))
}

// What the words `save FILE` ask for.
fn save_task<'a>(mode: &'a String, file: &'a String) -> Option<Task<'a>>
    ensures { MatchOption result
        (model.accepted (string_bytes mode.now ∷ string_bytes file.now ∷ []) ≡ None)
        (λ task. model.accepted (string_bytes mode.now ∷ string_bytes file.now ∷ []) ≡ Some (task_of task)) }
{
    if mode.as_str() != "save" {
        return None;
    }
    if !can_name(file.as_str()) {
        return None;
    }
    Some(Task::Save(file.as_str()))
}

// Whether a word can name a file.
fn can_name(word: &str) -> bool
    ensures { result ≡ can_name word.now }
{
    match word.as_bytes() {
        [] => false,
        [first, ..] => *first != b'-',
    }
}
