//! What clap found of the options and flags of a command.
ghost use Rattle.std.specs.Prelude.{◌≡◌};
ghost use Rattle.std.specs.Option.{option_map};
ghost use Rattle.clap.specs.Words.{first_of, found_of, rows_of};
ghost use Rattle.program_words.specs.Found.{flag_in};

use clap::ArgMatches;

// The word that was given for the option of this name, if one was.
pub(crate) fn word_of<'a>(found: &ArgMatches<'a>, name: &str) -> Option<&'a str>
    ensures value { option_map (λ word. word.now) result ≡ first_of name.now (rows_of (found_of found.now)) }
{
    found.get_str(name)
}

// Whether the flag of this name was given. It is read as `get_flag` reads it, which promises nothing of a value that is
// neither `true` nor `false`.
pub(crate) fn flag_of(found: &ArgMatches<'_>, name: &str) -> bool
    ensures value { result ≡ flag_in name.now (rows_of (found_of found.now)) }
{
    found.get_one::<bool>(name).unwrap_or(false)
}
