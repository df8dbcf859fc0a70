//! The options and the positionals of `run`.

ghost use Rattle.std.specs.Prelude.{ℕ, IfNone, IfSome};
ghost use Rattle.spe_words.specs.Found.{FindsTargets, found_values, positionals_of};
ghost use Rattle.spe_words.specs.Grammar.{AreSettings, IsSetting};

use crate::number::number;
use clap::ArgMatches;

/// The options of `run`.
pub static RUN_OPTIONS: [&str; 3] = ["workers", "retries", "slots"];

/// What the options of `run` set.
#[derive(Clone, Copy)]
pub struct Settings {
    /// How many threads run the clients.
    pub workers: u32,
    /// How often a lock that is taken is asked for again.
    pub retries: u32,
    /// The number of lock words.
    pub slots: u32,
}

// The number that an option gives, or its default. More than one value is refused.
fn setting(found: &ArgMatches<'_>, name: &str, default: u32, least: u32, most: u32) -> Option<u32>
    ensures some { IfSome result (IsSetting default least most (found_values found.now name.now)) }
    ensures none { IfNone result ((n : ℕ) → ¬ IsSetting default least most (found_values found.now name.now) n) }
{
    match found.get_raw(name) {
        None | Some([]) => Some(default),
        Some([text]) => number(text, least, most),
        Some(_) => None,
    }
}

// The settings that are found.
pub fn read_settings(found: &ArgMatches<'_>) -> Option<Settings>
    ensures some { IfSome result (λ s. AreSettings (found_values found.now) s.workers s.retries s.slots) }
    ensures none { IfNone result ((workers retries slots : ℕ) → ¬ AreSettings (found_values found.now) workers retries slots) }
{
    let workers = setting(found, "workers", 4, 1, 16)?;
    let retries = setting(found, "retries", 1000, 0, 1_000_000)?;
    let slots = setting(found, "slots", 262_144, 16, 262_144)?;
    if !slots.is_power_of_two() {
        return None;
    }
    Some(Settings {
        workers,
        retries,
        slots,
    })
}

// The database and the 1 to 64 scripts that are found.
pub fn read_targets<'m, 'a: 'm>(found: &'m ArgMatches<'a>) -> Option<(&'a str, &'m [&'a str])>
    ensures { FindsTargets (positionals_of found.entry.now) result }
{
    match found.get_raw("words") {
        Some([db, scripts @ ..]) if !scripts.is_empty() && scripts.len() <= 64 => {
            Some((db, scripts))
        }
        _ => None,
    }
}
