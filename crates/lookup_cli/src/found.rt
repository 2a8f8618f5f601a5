//! What clap finds of an argument, by its id.

ghost use Rattle.std.specs.Prelude.{◌≡◌, option_map};
ghost use Rattle.clap.specs.Words.{first_of, one_of};
ghost use Rattle.lookup_cli.specs.Arguments.{IsNumber, found, is_given};

use clap::ArgMatches;

/// Returns the value of an option, if it is given.
pub(crate) fn text_in<'a>(matches: &ArgMatches<'a>, name: &str) -> Option<&'a str>
    ensures { option_map (λ text. text.now) result ≡ first_of name.now (found matches.now) }
{
    matches.get_str(name)
}

/// Returns the number of an option, if it is given. Clap has found that it is one.
pub(crate) fn number_in(matches: &ArgMatches<'_>, name: &str) -> Option<usize>
    ensures { IsNumber (one_of name.now (found matches.now)) result }
{
    matches.get_one::<usize>(name)
}

/// Returns `true` if an option without a value is given.
pub(crate) fn is_given(matches: &ArgMatches<'_>, name: &str) -> bool
    ensures { result ≡ is_given name.now (found matches.now) }
{
    match text_in(matches, name) {
        Some(text) => text == "true",
        None => false,
    }
}
