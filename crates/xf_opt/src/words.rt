//! What the words of a call ask for.
ghost use Rattle.std.specs.Prelude.{◌≡◌};
ghost use Rattle.std.specs.Option.{option_map};
ghost use Rattle.xf_opt.specs.Words.{texts, is_path, are_run, payload_command, payload_words, run_words, command_of};
ghost use Rattle.xf_opt.specs.Words.{script_of, payload_of};
ghost use Rattle.xf_opt.specs.Refusals.{asked_by, path_or_none};

/// A command, with the paths that it names.
#[derive(Clone, Copy, Debug)]
pub enum Command<'w> {
    /// Carries out a schedule on a payload, and writes the new module.
    Run { script: &'w str, payload: &'w str },
    /// Judges a payload by the rules of valid modules.
    Verify { payload: &'w str },
    /// Writes a payload in the printed form.
    Print { payload: &'w str },
}

impl<'w> Command<'w> {
    /// The path of the script; nothing where the command takes none.
    pub fn script(self) -> &'w str
        ensures { result.now ≡ path_or_none (script_of (asked_by self.entry)) }
    {
        match self {
            Command::Run { script, .. } => script,
            Command::Verify { .. } | Command::Print { .. } => "",
        }
    }

    /// The path of the payload.
    pub fn payload(self) -> &'w str
        ensures { result.now ≡ payload_of (asked_by self.entry) }
    {
        match self {
            Command::Run { payload, .. }
            | Command::Verify { payload }
            | Command::Print { payload } => payload,
        }
    }
}

/// Whether a word may stand for a path.
fn is_path(word: &str) -> bool
    ensures { result ≡ is_path word.now }
{
    !word.starts_with('-')
}

/// Whether these are the command `run` and its two options.
fn are_run(command: &str, script_option: &str, payload_option: &str) -> bool
    ensures { result ≡ are_run command.now script_option.now payload_option.now }
{
    command == "run" && script_option == "--script" && payload_option == "--payload"
}

/// The command that takes a payload alone.
fn payload_command<'w>(command: &str, payload: &'w str) -> Option<Command<'w>>
    ensures { option_map asked_by result ≡ payload_command command.now payload.now }
{
    if command == "verify" {
        Some(Command::Verify { payload })
    } else if command == "print" {
        Some(Command::Print { payload })
    } else {
        None
    }
}

/// The words of a command that takes a payload alone.
fn payload_words<'w>(command: &str, option: &str, payload: &'w str) -> Option<Command<'w>>
    ensures { option_map asked_by result ≡ payload_words command.now option.now payload.now }
{
    if option == "--payload" && is_path(payload) {
        payload_command(command, payload)
    } else {
        None
    }
}

/// The words of the command `run`.
fn run_words<'w>(
    command: &str,
    script_option: &str,
    script: &'w str,
    payload_option: &str,
    payload: &'w str,
) -> Option<Command<'w>>
    ensures { option_map asked_by result
        ≡ run_words command.now script_option.now script.now payload_option.now payload.now }
{
    if !are_run(command, script_option, payload_option) {
        return None;
    }
    if is_path(script) && is_path(payload) {
        Some(Command::Run { script, payload })
    } else {
        None
    }
}

/// Reads the words behind the program's name.
pub fn parse<'w>(words: &'w [String]) -> Option<Command<'w>>
    ensures { option_map asked_by result ≡ command_of (texts words.now) }
{
    match words {
        [command, option, payload] => {
            payload_words(command.as_str(), option.as_str(), payload.as_str())
        }
        [command, script_option, script, payload_option, payload] => run_words(
            command.as_str(),
            script_option.as_str(),
            script.as_str(),
            payload_option.as_str(),
            payload.as_str(),
        ),
        _ => None,
    }
}
