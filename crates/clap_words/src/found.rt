// One option of those that clap found.
ghost use Rattle.std.specs.Prelude.{◌≡◌, true, false};
ghost use Rattle.std.specs.Option.{option_copied};
ghost use Rattle.command_model.specs.Options.{is_one_of, is_set, value_in};
ghost use Rattle.clap_words.specs.Told.{dashed};
ghost use Rattle.clap_words.specs.Found.{flag_names, settings_in, value_names};

use clap::ArgMatches;

/// The value of an option, if it was given.
pub(crate) fn value<'a>(found: &ArgMatches<'a>, name: &str) -> Option<&'a str>
    requires { is_one_of value_names name.now ≡ true }
    ensures { option_copied result ≡ value_in (dashed name.now) (settings_in found.now) }
{
    found.get_str(name)
}

/// Whether a flag was given.
pub(crate) fn is_given(found: &ArgMatches<'_>, name: &str) -> bool
    requires flag { is_one_of flag_names name.now ≡ true }
    requires other { is_one_of value_names name.now ≡ false }
    ensures { result ≡ is_set (dashed name.now) (settings_in found.now) }
{
    match found.get_str(name) {
        Some(text) => text == "true",
        None => false,
    }
}
