// What the options say.
ghost use Rattle.std.specs.Prelude.{◌≡◌, ◌≤◌, ℕ, List, codes, option_map, MatchOption};
ghost use Rattle.clap.specs.Matches.{found_of, first_value};
ghost use Rattle.repl_core.specs.declared.machine.Config.{Config};
ghost use Rattle.nrepl_server.specs.Options.{IsSeed, IsNumber, IsNumberOr, Says, Asks};
ghost use Rattle.nrepl_server.specs.declared.options.Service.{Service};

use clap::ArgMatches;
use hex::FromHex;
use repl_core::{Config, RETRIES, STEPS, SharedText};

// The most attempts that a transaction may be given.
const MOST_RETRIES: u32 = 1_000_000;

const MOST_CONNECTIONS: u32 = 1_000_000;

const MOST_CREWS: u32 = 64;

// How many connections are served at a time unless told otherwise.
const CREWS: u32 = 4;

/// What a server of connections is asked for: a port of this machine, where 0 is any free one; how
/// many connections in all; and how many at a time.
#[derive(Clone, Copy)]
pub(crate) struct Service {
    pub(crate) port: u16,
    pub(crate) connections: u32,
    pub(crate) crews: u32,
}

/// What a server begins with that has these options; none where one of them is not right.
pub(crate) fn config_of(options: &ArgMatches<'_>) -> Option<Config>
    ensures { let seed = first_value (found_of options.now) (codes "seed") in
        let retries = first_value (found_of options.now) (codes "retries") in
        MatchOption result ((config : Config) → Says seed retries config → ⊥) (Says seed retries) }
{
    Some(Config {
        seed: seed_of(options.get_str("seed"))?,
        retries: number_or(options.get_str("retries"), MOST_RETRIES, RETRIES)?,
        steps: STEPS,
        shared: SharedText::Empty,
    })
}

/// What a server of connections with these options is asked for; none where one of them is not
/// right.
pub(crate) fn service_of(options: &ArgMatches<'_>) -> Option<Service>
    ensures { let port = first_value (found_of options.now) (codes "port") in
        let connections = first_value (found_of options.now) (codes "connections") in
        let crews = first_value (found_of options.now) (codes "crews") in
        MatchOption result ((service : Service) → Asks port connections crews service → ⊥)
        (Asks port connections crews) }
{
    Some(Service {
        port: port_of(options.get_str("port"))?,
        connections: number_in(options.get_str("connections"), MOST_CONNECTIONS)?,
        crews: number_or(options.get_str("crews"), MOST_CREWS, CREWS)?,
    })
}

// A seed is 64 hexadecimal digits, in either case; it is all zeros where none is given.
fn seed_of(text: Option<&str>) -> Option<[u8; 32]>
    ensures { let t = option_map (λ it. it.now) text.entry in
        MatchOption result ((seed : List ℕ) → IsSeed t seed → ⊥) (IsSeed t) }
{
    let Some(text) = text else {
        return Some([0; 32]);
    };
    <[u8; 32] as FromHex>::from_hex(text).ok()
}

// A number from 1 to this most.
fn number_in(text: Option<&str>, most: u32) -> Option<u32>
    ensures { let t = option_map (λ it. it.now) text.entry in
        MatchOption result ((n : ℕ) → IsNumber 1 most t n → ⊥) (IsNumber 1 most t) }
{
    match text?.parse::<u32>() {
        Ok(number) if (1..=most).contains(&number) => Some(number),
        _ => None,
    }
}

// The same, or what stands where none is given.
fn number_or(text: Option<&str>, most: u32, otherwise: u32) -> Option<u32>
    ensures { let t = option_map (λ it. it.now) text.entry in
        MatchOption result ((n : ℕ) → IsNumberOr most otherwise t n → ⊥)
        (IsNumberOr most otherwise t) }
{
    match text {
        None => Some(otherwise),
        Some(text) => number_in(Some(text), most),
    }
}

// A port is a number from 0 to 65,535.
fn port_of(text: Option<&str>) -> Option<u16>
    ensures { let t = option_map (λ it. it.now) text.entry in
        MatchOption result ((n : ℕ) → IsNumber 0 65535 t n → ⊥) (IsNumber 0 65535 t) }
{
    text?.parse::<u16>().ok()
}
