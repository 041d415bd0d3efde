//! Where the values of options are found.
ghost use Rattle.std.specs.Prelude.{◌≡◌, ℕ, List, Option};
ghost use Rattle.std.specs.Option.{option_map};
ghost use Rattle.clap.specs.Words.{first_value, found_of};
ghost use Rattle.command_words.specs.declared.flag.Flag.{Flag};
ghost use Rattle.command_words.specs.Table.{flag_text};
ghost use Rattle.command_words.specs.Words.{value_with};
ghost use Rattle.command_words.specs.Views.{all_given};

use crate::flag::Flag;
use crate::settings::{Setting, value_with};
use clap::ArgMatches;

/// Something that has the values of options.
pub(crate) trait Values<'a> {
    ghost values: { Self → Flag → Option (List ℕ) };

    /// The value of an option, if it is there.
    fn value(&self, flag: Flag) -> Option<&'a str>
        ensures { option_map (λ value. value.now) result ≡ values self.now flag };
}

impl<'a> Values<'a> for Vec<Setting<'a>> {
    ghost values = { λ settings flag. value_with flag (all_given settings.items) };

    fn value(&self, flag: Flag) -> Option<&'a str> {
        value_with(self, flag)
    }
}

impl<'a> Values<'a> for ArgMatches<'a> {
    ghost values = { λ matches flag. first_value (found_of matches) (flag_text flag) };

    fn value(&self, flag: Flag) -> Option<&'a str> {
        self.get_str(flag.row().name)
    }
}
