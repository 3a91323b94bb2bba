// What the words of a command line ask for.
ghost use Rattle.std.specs.Prelude.{◌≡◌, map, string_bytes};
ghost use Rattle.std.specs.Option.{option_map};
ghost use Rattle.volume_files.specs.Wishes.{asked, file_asked, lone_asked, name_asked, wish};

pub const HELP: &str = "\
volume check FILE       say whether FILE is a volume
volume list FILE        its bundles, newest first: name, length, offset
volume get FILE NAME    the newest entity of NAME, to standard output
volume add FILE NAME    one bundle more, its entity from standard input
volume help             this text";

// A value and no closure: what is asked for is read, and proved, apart from what is done.
#[derive(Clone, Copy, PartialEq, Eq, Debug)]
pub enum Command<'a> {
    Check(&'a str),
    List(&'a str),
    Get(&'a str, &'a str),
    Add(&'a str, &'a str),
    Help,
}

impl<'a> Command<'a> {
    // The file and the name that it is about; "" where it has none, which a message then leaves out.
    pub(crate) fn subject(self) -> (&'a str, &'a str) {
        match self {
            Command::Check(file) | Command::List(file) => (file, ""),
            Command::Get(file, name) | Command::Add(file, name) => (file, name),
            Command::Help => ("", ""),
        }
    }
}

// The command that the words behind the program's name give.
pub fn read_command(words: &[String]) -> Option<Command<'_>>
    ensures { option_map wish result ≡ asked (map string_bytes words.now) }
{
    match words {
        [verb] => lone(verb.as_str()),
        [verb, file] => on_file(verb.as_str(), file.as_str()),
        [verb, file, name] => on_name(verb.as_str(), file.as_str(), name.as_str()),
        _ => None,
    }
}

// One function for each number of words, as the definition has it.
fn lone<'a>(verb: &str) -> Option<Command<'a>>
    ensures { option_map wish result ≡ lone_asked verb.now }
{
    match verb {
        "help" => Some(Command::Help),
        _ => None,
    }
}

fn on_file<'a>(verb: &str, file: &'a str) -> Option<Command<'a>>
    ensures { option_map wish result ≡ file_asked verb.now file.now }
{
    match verb {
        "check" => Some(Command::Check(file)),
        "list" => Some(Command::List(file)),
        _ => None,
    }
}

fn on_name<'a>(verb: &str, file: &'a str, name: &'a str) -> Option<Command<'a>>
    ensures { option_map wish result ≡ name_asked verb.now file.now name.now }
{
    match verb {
        "get" => Some(Command::Get(file, name)),
        "add" => Some(Command::Add(file, name)),
        _ => None,
    }
}
