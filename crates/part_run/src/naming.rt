//! From the words to the places where a command reads and writes.

ghost use Rattle.std.specs.Prelude.{◌≡◌, IfOk, map, string_bytes};
ghost use Rattle.part_run.specs.Wanted.{wanted};
ghost use Rattle.part_run.specs.Places.{names_of, place_of, part_name, out_of, partition_names};
ghost use Rattle.part_run.specs.Spelled.{partitioning_of};

use crate::places::Names;
use crate::words::{Command, Partitioning, parse};
use hg_base::NoMemory;
use hg_io::{Name, Place};
use std::alloc::Global;

/// The place of a name, where `-` stands for the stream `stream`.
fn place_of(alloc: Global, name: &str, stream: Place) -> Result<Place, NoMemory>
    ensures { IfOk result (λ place. place ≡ place_of name.now stream) }
{
    if name == "-" {
        Ok(stream)
    } else {
        Ok(Place::File(Name::of(alloc, name)?))
    }
}

/// The name of the partition's file where none is given.
fn part_name(alloc: Global, graph: &str, k: u32) -> Result<String, NoMemory>
    ensures { IfOk result (λ name. string_bytes name ≡ part_name graph.now k) }
{
    Ok(format!(in alloc; "{graph}.part.{k}")?)
}

/// Where the partition goes: the name that was given, else one made of the graph's name and k.
fn out_of(alloc: Global, partition: &Partitioning<'_>) -> Result<Place, NoMemory>
    ensures { IfOk result (λ place. place ≡ out_of (partitioning_of partition.now)) }
{
    match partition.out {
        Some(name) => place_of(alloc, name, Place::Output),
        None if partition.graph == "-" => Ok(Place::Output),
        None => {
            let name = part_name(alloc, partition.graph, partition.balance.k)?;
            Ok(Place::File(Name::of(alloc, name.as_str())?))
        }
    }
}

/// Where the command that the words spell reads and writes.
pub fn names(alloc: Global, words: &[String]) -> Result<Names, NoMemory>
    ensures { IfOk result (λ names. names ≡ names_of (wanted (map string_bytes words.now))) }
{
    Ok(match parse(words) {
        None => Names {
            graph: Place::Nothing,
            extra: Place::Nothing,
            out: Place::Nothing,
            report: Place::Nothing,
        },
        Some(Command::Partition(partition)) => partition_names(alloc, &partition)?,
        Some(Command::Evaluate(evaluation)) => Names {
            graph: place_of(alloc, evaluation.graph, Place::Input)?,
            extra: Place::File(Name::of(alloc, evaluation.part)?),
            out: Place::Nothing,
            report: Place::Output,
        },
        Some(Command::Generate(_)) => Names {
            graph: Place::Nothing,
            extra: Place::Nothing,
            out: Place::Output,
            report: Place::Nothing,
        },
        Some(Command::SelfRun(_)) => Names {
            graph: Place::Nothing,
            extra: Place::Nothing,
            out: Place::Nothing,
            report: Place::Output,
        },
    })
}

fn partition_names(alloc: Global, partition: &Partitioning<'_>) -> Result<Names, NoMemory>
    ensures { IfOk result (λ names. names ≡ partition_names (partitioning_of partition.now)) }
{
    let out = out_of(alloc, partition)?;
    let report = match out {
        Place::Output => Place::Errors,
        _ => Place::Output,
    };
    let extra = match partition.fix {
        Some(name) => Place::File(Name::of(alloc, name)?),
        None => Place::Nothing,
    };
    Ok(Names {
        graph: place_of(alloc, partition.graph, Place::Input)?,
        extra,
        out,
        report,
    })
}
