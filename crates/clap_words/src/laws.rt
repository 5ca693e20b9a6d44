// What holds of clap and our commands, whatever the words.
ghost use Rattle.clap_words.specs.Law.{ReadsCommands};

/// clap, told of a command's options, takes each line of words that our own test accepts, and the values that it finds in
/// them are those of the command.
pub fn reads_commands()
    ensures { ReadsCommands }
{}
