//! The values of the command `farm` among the matches of the arguments.
ghost use Rattle.std.specs.Prelude.{◌≡◌, ℕ, IfNone, IfSome, option_map};
ghost use Rattle.clap.specs.Words.{first_of, found_of, rows_of, subcommand_rows_of};
ghost use Rattle.command_line.specs.Command.{HasNumber, HasValues, IsFarm, IsNoFarm, LacksValues};

use clap::ArgMatches;

/// The folders and the settings that the command `farm` was given.
#[derive(Clone, Copy)]
pub(crate) struct FarmValues<'a> {
    pub(crate) input: &'a str,
    pub(crate) output: &'a str,
    pub(crate) workers: u16,
    pub(crate) queue: u16,
}

impl<'a> FarmValues<'a> {
    /// The values, where the command is `farm`.
    pub(crate) fn of(matches: &ArgMatches<'a>) -> Option<FarmValues<'a>>
        ensures some { IfSome result (λ v. IsFarm (subcommand_rows_of matches.now) v.input.now v.output.now v.workers v.queue) }
        ensures none { IfNone result (IsNoFarm (subcommand_rows_of matches.now)) }
    {
        match matches.subcommand() {
            Some((name, farm)) if name == "farm" => FarmValues::of_farm(farm),
            _ => None,
        }
    }

    /// The values that the matches of `farm` have.
    fn of_farm(farm: &ArgMatches<'a>) -> Option<FarmValues<'a>>
        ensures some { IfSome result (λ v. HasValues (rows_of (found_of farm.now)) v.input.now v.output.now v.workers v.queue) }
        ensures none { IfNone result (LacksValues (rows_of (found_of farm.now))) }
    {
        Some(FarmValues {
            input: folder_of(farm, "in")?,
            output: folder_of(farm, "out")?,
            workers: number_of(farm, "workers")?,
            queue: number_of(farm, "queue")?,
        })
    }
}

/// The path that was given for this argument.
fn folder_of<'a>(farm: &ArgMatches<'a>, id: &str) -> Option<&'a str>
    ensures { option_map (λ s. s.now) result ≡ first_of id.now (rows_of (found_of farm.now)) }
{
    farm.get_str(id)
}

/// The number that was given for this option, or that it has without it.
fn number_of(farm: &ArgMatches<'_>, id: &str) -> Option<u16>
    ensures some { IfSome result (HasNumber id.now (rows_of (found_of farm.now))) }
    ensures none { IfNone result ((n : ℕ) → HasNumber id.now (rows_of (found_of farm.now)) n → ⊥) }
{
    farm.get_one::<u16>(id)
}
