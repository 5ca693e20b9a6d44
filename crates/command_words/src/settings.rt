// The options of a command line, as they were given.
ghost use Rattle.std.specs.Prelude.{◌≡◌};
ghost use Rattle.std.specs.List.{list_all};
ghost use Rattle.std.specs.Option.{option_copied};
ghost use Rattle.command_model.specs.Options.{is_set, value_in};
ghost use Rattle.command_words.specs.Settings.{setting_of, settings_in};
ghost use Rattle.command_words.specs.Shapes.{words_meant};

/// An option with its value, or a flag.
#[derive(Clone, Copy)]
pub(crate) struct Setting<'a> {
    pub(crate) name: &'a str,
    pub(crate) value: Option<&'a str>,
}

/// Options in the order in which they were given.
#[derive(Clone, Copy)]
pub(crate) enum Settings<'s, 'a> {
    Empty,
    After(&'s Settings<'s, 'a>, Setting<'a>),
}

impl<'a> Settings<'_, 'a> {
    /// Whether an option was given.
    pub(crate) fn is_set(&self, name: &str) -> bool
        ensures { result ≡ is_set name.now (settings_in self.now) }
    {
        match self {
            Settings::Empty => false,
            Settings::After(before, setting) => before.is_set(name) || setting.name == name,
        }
    }

    /// Whether all of these options were given.
    pub(crate) fn has_all(&self, names: &[&str]) -> bool
        ensures { result ≡ list_all (λ n. is_set n (settings_in self.now)) (words_meant names.now) }
    {
        match names {
            [] => true,
            [first, rest @ ..] => self.is_set(first) && self.has_all(rest),
        }
    }

    /// The value of an option, if it was given with one.
    pub(crate) fn value(&self, name: &str) -> Option<&'a str>
        ensures { option_copied result ≡ value_in name.now (settings_in self.now) }
    {
        match self {
            Settings::Empty => None,
            Settings::After(before, setting) => {
                if before.is_set(name) {
                    before.value(name)
                } else if setting.name == name {
                    setting.value
                } else {
                    None
                }
            }
        }
    }
}
