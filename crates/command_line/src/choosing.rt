// The command with its options, from what clap gives back.
ghost use Rattle.std.specs.Prelude.{◌≡◌, IfOk, IfSome, IsSome, IsSomeAnd, codes, true};
ghost use Rattle.clap.specs.Words.{first_value, found_of};
ghost use Rattle.command_line.specs.Clap.{AreTold, IsChosen, says_true};
ghost use Rattle.command_line.specs.Table.{rules_of};
ghost use Rattle.command_line.specs.Words.{is_numeral, number_of, text_of, workers_of};
ghost use Rattle.command_line.specs.declared.table.Command.TheVariants.{GenerateCSMesh, GenerateRLLMesh, GenerateICOMesh, GenerateOverlapMesh, GenerateOfflineMap, ApplyOfflineMap, SelfRun, CheckCoverage, CheckMesh};

use crate::choices::{Chosen, Text};
use crate::grammar::number_in;
use crate::table::Command;
use clap::ArgMatches;
use std::alloc::{AllocError, Global};

fn text(alloc: Global, matches: &ArgMatches, name: &str) -> Result<Text, AllocError>
    requires { IsSome (first_value (found_of matches.now) name.now) }
    ensures { IfOk result (λ t. t ≡ text_of (first_value (found_of matches.now)) name.now) }
{
    let value = matches.get_str(name).unwrap();
    let text = String::from_str(alloc, value)?;
    Ok(Text { text })
}

// Two texts at once, so that a command of four has few ways out on which texts are let go.
fn texts(
    alloc: Global,
    matches: &ArgMatches,
    first: &str,
    second: &str,
) -> Result<(Text, Text), AllocError>
    requires first { IsSome (first_value (found_of matches.now) first.now) }
    requires second { IsSome (first_value (found_of matches.now) second.now) }
    ensures first { IfOk result (λ p. p.0
        ≡ text_of (first_value (found_of matches.now)) first.now) }
    ensures second { IfOk result (λ p. p.1
        ≡ text_of (first_value (found_of matches.now)) second.now) }
{
    let first = text(alloc, matches, first)?;
    let second = text(alloc, matches, second)?;
    Ok((first, second))
}

fn number(matches: &ArgMatches, name: &str) -> u32
    requires { IsSomeAnd (first_value (found_of matches.now) name.now) (λ t. is_numeral t ≡ true) }
    ensures { result ≡ number_of (first_value (found_of matches.now)) name.now }
{
    let value = matches.get_str(name).unwrap();
    number_in(value).unwrap()
}

fn workers(matches: &ArgMatches) -> u32
    requires { IfSome (first_value (found_of matches.now) (codes "workers"))
        (λ t. is_numeral t ≡ true) }
    ensures { result ≡ workers_of (first_value (found_of matches.now)) }
{
    match matches.get_str("workers") {
        Some(value) => number_in(value).unwrap(),
        None => 1,
    }
}

fn stands(matches: &ArgMatches, name: &str) -> bool
    ensures { result ≡ says_true (first_value (found_of matches.now)) name.now }
{
    match matches.get_str(name) {
        Some(value) => value == "true",
        None => false,
    }
}

// Each command has a function of its own, so that none has many ways out on which texts are let go.
fn sphere(alloc: Global, matches: &ArgMatches) -> Result<Chosen, AllocError>
    requires { AreTold (rules_of GenerateCSMesh) (first_value (found_of matches.now)) }
    ensures { IfOk result (IsChosen GenerateCSMesh (first_value (found_of matches.now))) }
{
    Ok(Chosen::Cs {
        res: number(matches, "res"),
        file: text(alloc, matches, "file")?,
    })
}

fn lattice(alloc: Global, matches: &ArgMatches) -> Result<Chosen, AllocError>
    requires { AreTold (rules_of GenerateRLLMesh) (first_value (found_of matches.now)) }
    ensures { IfOk result (IsChosen GenerateRLLMesh (first_value (found_of matches.now))) }
{
    Ok(Chosen::Rll {
        lon: number(matches, "lon"),
        lat: number(matches, "lat"),
        file: text(alloc, matches, "file")?,
    })
}

fn icosahedron(alloc: Global, matches: &ArgMatches) -> Result<Chosen, AllocError>
    requires { AreTold (rules_of GenerateICOMesh) (first_value (found_of matches.now)) }
    ensures { IfOk result (IsChosen GenerateICOMesh (first_value (found_of matches.now))) }
{
    Ok(Chosen::Ico {
        res: number(matches, "res"),
        dual: stands(matches, "dual"),
        file: text(alloc, matches, "file")?,
    })
}

fn overlap(alloc: Global, matches: &ArgMatches) -> Result<Chosen, AllocError>
    requires { AreTold (rules_of GenerateOverlapMesh) (first_value (found_of matches.now)) }
    ensures { IfOk result (IsChosen GenerateOverlapMesh (first_value (found_of matches.now))) }
{
    let (a, b) = texts(alloc, matches, "a", "b")?;
    Ok(Chosen::Overlap {
        a,
        b,
        out: text(alloc, matches, "out")?,
        workers: workers(matches),
    })
}

fn offline_map(alloc: Global, matches: &ArgMatches) -> Result<Chosen, AllocError>
    requires { AreTold (rules_of GenerateOfflineMap) (first_value (found_of matches.now)) }
    ensures { IfOk result (IsChosen GenerateOfflineMap (first_value (found_of matches.now))) }
{
    let (in_mesh, out_mesh) = texts(alloc, matches, "in_mesh", "out_mesh")?;
    let (ov_mesh, out_map) = texts(alloc, matches, "ov_mesh", "out_map")?;
    Ok(Chosen::OfflineMap {
        in_mesh,
        out_mesh,
        ov_mesh,
        out_map,
    })
}

fn application(alloc: Global, matches: &ArgMatches) -> Result<Chosen, AllocError>
    requires { AreTold (rules_of ApplyOfflineMap) (first_value (found_of matches.now)) }
    ensures { IfOk result (IsChosen ApplyOfflineMap (first_value (found_of matches.now))) }
{
    let (map, var) = texts(alloc, matches, "map", "var")?;
    let (in_data, out_data) = texts(alloc, matches, "in_data", "out_data")?;
    Ok(Chosen::Apply {
        map,
        var,
        in_data,
        out_data,
        masked: stands(matches, "masked"),
    })
}

fn self_run(matches: &ArgMatches) -> Chosen
    requires { AreTold (rules_of SelfRun) (first_value (found_of matches.now)) }
    ensures { IsChosen SelfRun (first_value (found_of matches.now)) result }
{
    Chosen::SelfRun {
        n: number(matches, "n"),
        workers: workers(matches),
    }
}

fn coverage(alloc: Global, matches: &ArgMatches) -> Result<Chosen, AllocError>
    requires { AreTold (rules_of CheckCoverage) (first_value (found_of matches.now)) }
    ensures { IfOk result (IsChosen CheckCoverage (first_value (found_of matches.now))) }
{
    let (a, b) = texts(alloc, matches, "a", "b")?;
    Ok(Chosen::Coverage { a, b })
}

fn check(alloc: Global, matches: &ArgMatches) -> Result<Chosen, AllocError>
    requires { AreTold (rules_of CheckMesh) (first_value (found_of matches.now)) }
    ensures { IfOk result (IsChosen CheckMesh (first_value (found_of matches.now))) }
{
    Ok(Chosen::Check {
        file: text(alloc, matches, "file")?,
        workers: workers(matches),
    })
}

/// The command with its options.
pub fn chosen(alloc: Global, command: Command, matches: &ArgMatches) -> Result<Chosen, AllocError>
    requires { AreTold (rules_of command) (first_value (found_of matches.now)) }
    ensures { IfOk result (IsChosen command (first_value (found_of matches.now))) }
{
    match command {
        Command::GenerateCSMesh => sphere(alloc, matches),
        Command::GenerateRLLMesh => lattice(alloc, matches),
        Command::GenerateICOMesh => icosahedron(alloc, matches),
        Command::GenerateOverlapMesh => overlap(alloc, matches),
        Command::GenerateOfflineMap => offline_map(alloc, matches),
        Command::ApplyOfflineMap => application(alloc, matches),
        Command::SelfRun => Ok(self_run(matches)),
        Command::CheckCoverage => coverage(alloc, matches),
        Command::CheckMesh => check(alloc, matches),
    }
}
