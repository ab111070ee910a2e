//! The words of the command line, and the command that they spell.

ghost use Rattle.std.specs.Prelude.{◌≡◌, ◌≤◌, ◌^◌, option_map, option_copied, map};
ghost use Rattle.std.specs.Prelude.{string_bytes, None, Some, IfSome, ◌<◌};
ghost use Rattle.part_run.specs.Wanted.{number_within, fraction_of, imbalance, file_name, plain_name, objective_of};
ghost use Rattle.part_run.specs.Wanted.{named_mode, raced_mode};
ghost use Rattle.part_run.specs.Wanted.{if_unset, with_word, with_words, no_settings, chosen_objective};
ghost use Rattle.part_run.specs.Wanted.{partition_words, evaluate_words, generate_words, selfrun_words, wanted};
ghost use Rattle.part_run.specs.Spelled.{settings_of, partitioning_of, evaluation_of, command_of};
ghost use Rattle.part_run.specs.Spelled.{HasFewCycles, IsWithinBounds};

use crate::balance::{Balance, Trial, Workers};
use hg_defs::Objective;
use hg_text::number;

/// The number that `word` spells, where it is from `low` to `high`.
fn number_within(low: u64, high: u64, word: &str) -> Option<u64>
    ensures value { result ≡ number_within low high word.now }
    ensures bounds { IfSome result (λ n. (low ≤ n) × (n ≤ high)) }
{
    let value = number(word.as_bytes()).ok()?;
    (low <= value && value <= high).then_some(value)
}

/// The name of a file: any word but the empty one.
fn file_name(word: &str) -> Option<&str>
    ensures { option_copied result ≡ file_name word.now }
{
    if word.is_empty() { None } else { Some(word) }
}

/// The same, where `-`, which stands for a standard stream, is left out.
fn plain_name(word: &str) -> Option<&str>
    ensures { option_copied result ≡ plain_name word.now }
{
    if word.is_empty() || word == "-" {
        None
    } else {
        Some(word)
    }
}

fn objective_of(word: &str) -> Option<Objective>
    ensures { result ≡ objective_of word.now }
{
    if word == "km1" {
        Some(Objective::Connectivity)
    } else if word == "cut" {
        Some(Objective::CutNet)
    } else if word == "soed" {
        Some(Objective::ExternalDegree)
    } else {
        None
    }
}

/// The same for small numbers.
fn small_within(low: u32, high: u32, word: &str) -> Option<u32>
    ensures value { result ≡ number_within low high word.now }
    ensures bounds { IfSome result (λ n. (low ≤ n) × (n ≤ high)) }
{
    let value = number_within(u64::from(low), u64::from(high), word)?;
    Some(value as u32)
}

/// The thousandths that one, two or three digits behind a point stand for.
fn fraction_of(digits: &str) -> Option<u32>
    ensures value { result ≡ fraction_of digits.now }
    ensures bound { IfSome result (λ n. n < 100000) }
{
    let scale = match digits.len() {
        1 => 100,
        2 => 10,
        3 => 1,
        _ => return None,
    };
    let value = small_within(0, 999, digits)?;
    Some(value * scale)
}

/// The imbalance that `word` spells, in thousandths: 100,000 at most.
fn imbalance(word: &str) -> Option<u32>
    ensures value { result ≡ imbalance word.now }
    ensures bound { IfSome result (λ n. n ≤ 100000) }
{
    let Some((whole, digits)) = word.split_once('.') else {
        let whole = small_within(0, 100, word)?;
        return Some(whole * 1000);
    };
    let whole = small_within(0, 100, whole)?;
    let value = whole * 1000 + fraction_of(digits)?;
    (value <= 100_000).then_some(value)
}

/// How a partition is made.
#[derive(Clone, Copy, Debug, PartialEq, Eq)]
pub(crate) enum Mode {
    /// By refiners that race, and so many cycles after the first descent.
    Raced { cycles: u32 },
    /// By synchronous rounds, whose result names no number of workers.
    Deterministic,
}

/// The mode that has a name.
fn named_mode(word: &str) -> Option<Mode>
    ensures { result ≡ named_mode word.now }
{
    if word == "det" {
        Some(Mode::Deterministic)
    } else {
        None
    }
}

/// The mode in which so many cycles follow the first descent.
fn raced_mode(word: &str) -> Option<Mode>
    ensures { result ≡ raced_mode word.now }
{
    let cycles = small_within(0, 8, word)?;
    Some(Mode::Raced { cycles })
}

/// What the words behind the imbalance set. Two keys set the mode.
#[derive(Clone, Copy)]
struct Settings<'a> {
    seed: Option<u64>,
    workers: Option<u32>,
    out: Option<&'a str>,
    cost: Option<Objective>,
    fix: Option<&'a str>,
    mode: Option<Mode>,
}

/// The new value of a setting that has no value yet.
fn if_unset<T: Copy>(old: Option<T>, new: Option<T>) -> Option<T>
    ensures { result ≡ if_unset old new }
{
    match old {
        None => new,
        Some(_) => None,
    }
}

/// The settings with that of one more word, `key=value`, where what the key sets isn't set yet.
fn with_word<'a>(mut settings: Settings<'a>, word: &'a str) -> Option<Settings<'a>>
    ensures { option_map settings_of result ≡ with_word (settings_of settings.entry) word.now }
{
    let (key, value) = word.split_once('=')?;
    if key == "seed" {
        settings.seed = Some(if_unset(settings.seed, number_within(0, u64::MAX, value))?);
    } else if key == "workers" {
        settings.workers = Some(if_unset(settings.workers, small_within(1, 64, value))?);
    } else if key == "out" {
        settings.out = Some(if_unset(settings.out, file_name(value))?);
    } else if key == "cost" {
        settings.cost = Some(if_unset(settings.cost, objective_of(value))?);
    } else if key == "fix" {
        settings.fix = Some(if_unset(settings.fix, plain_name(value))?);
    } else if key == "mode" {
        settings.mode = Some(if_unset(settings.mode, named_mode(value))?);
    } else if key == "cycles" {
        settings.mode = Some(if_unset(settings.mode, raced_mode(value))?);
    } else {
        return None;
    }
    Some(settings)
}

/// The settings of all words.
fn with_words(words: &[String]) -> Option<Settings<'_>>
    ensures { option_map settings_of result ≡ with_words no_settings (map string_bytes words.now) }
{
    let mut settings = Settings {
        seed: None,
        workers: None,
        out: None,
        cost: None,
        fix: None,
        mode: None,
    };
    for word in words {
        settings = with_word(settings, word.as_str())?;
    }
    Some(settings)
}

/// The one setting of `evaluate`.
fn chosen_objective(words: &[String]) -> Option<Objective>
    ensures { result ≡ chosen_objective (map string_bytes words.now) }
{
    match words {
        [] => Some(Objective::Connectivity),
        [word] => {
            let (key, value) = word.as_str().split_once('=')?;
            if key == "cost" {
                objective_of(value)
            } else {
                None
            }
        }
        _ => None,
    }
}

/// What `partition` asks for, with defaults filled in.
#[derive(Clone, Copy)]
pub(crate) struct Partitioning<'a> {
    pub graph: &'a str,
    pub balance: Balance,
    pub seed: u64,
    pub workers: Workers,
    pub out: Option<&'a str>,
    pub objective: Objective,
    pub fix: Option<&'a str>,
    pub mode: Mode,
}

/// What `evaluate` asks for, with defaults filled in.
#[derive(Clone, Copy)]
pub(crate) struct Evaluation<'a> {
    pub graph: &'a str,
    pub part: &'a str,
    pub balance: Balance,
    pub objective: Objective,
}

/// The command that the words spell.
#[derive(Clone, Copy)]
pub(crate) enum Command<'a> {
    Partition(Partitioning<'a>),
    Evaluate(Evaluation<'a>),
    Generate(u32),
    SelfRun(Trial),
}

fn partition_words(words: &[String]) -> Option<Partitioning<'_>>
    ensures bounds { IfSome result (λ p. HasFewCycles p.mode) }
    ensures value { option_map partitioning_of result ≡ partition_words (map string_bytes words.now) }
{
    let [graph, k, eps, rest @ ..] = words else {
        return None;
    };
    let graph = file_name(graph.as_str())?;
    let k = small_within(2, 256, k.as_str())?;
    let eps = imbalance(eps.as_str())?;
    let settings = with_words(rest)?;
    Some(Partitioning {
        graph,
        balance: Balance { k, eps },
        seed: settings.seed.unwrap_or(1),
        workers: Workers {
            count: settings.workers.unwrap_or(4),
        },
        out: settings.out,
        objective: settings.cost.unwrap_or(Objective::Connectivity),
        fix: settings.fix,
        mode: settings.mode.unwrap_or(Mode::Raced { cycles: 0 }),
    })
}

fn evaluate_words(words: &[String]) -> Option<Evaluation<'_>>
    ensures value { option_map evaluation_of result ≡ evaluate_words (map string_bytes words.now) }
{
    let [graph, part, k, eps, rest @ ..] = words else {
        return None;
    };
    let graph = file_name(graph.as_str())?;
    let part = plain_name(part.as_str())?;
    let k = small_within(2, 256, k.as_str())?;
    let eps = imbalance(eps.as_str())?;
    Some(Evaluation {
        graph,
        part,
        balance: Balance { k, eps },
        objective: chosen_objective(rest)?,
    })
}

fn generate_words(words: &[String]) -> Option<u32>
    ensures value { result ≡ generate_words (map string_bytes words.now) }
    ensures bounds { IfSome result (λ n. (1 ≤ n) × (n ≤ 2 ^ 22)) }
{
    let [n] = words else {
        return None;
    };
    small_within(1, 1 << 22, n.as_str())
}

fn selfrun_words(words: &[String]) -> Option<Trial>
    ensures value { option_map (λ t. (t.vertices, t.k)) result ≡ selfrun_words (map string_bytes words.now) }
{
    let [vertices, k] = words else {
        return None;
    };
    let vertices = small_within(1, 1 << 22, vertices.as_str())?;
    let k = small_within(2, 256, k.as_str())?;
    Some(Trial { vertices, k })
}

/// The command that the words spell, or none.
pub(crate) fn parse(words: &[String]) -> Option<Command<'_>>
    ensures bounds { IfSome result IsWithinBounds }
    ensures value { option_map command_of result ≡ wanted (map string_bytes words.now) }
{
    let [command, rest @ ..] = words else {
        return None;
    };
    let command = command.as_str();
    if command == "partition" {
        Some(Command::Partition(partition_words(rest)?))
    } else if command == "evaluate" {
        Some(Command::Evaluate(evaluate_words(rest)?))
    } else if command == "generate" {
        Some(Command::Generate(generate_words(rest)?))
    } else if command == "selfrun" {
        Some(Command::SelfRun(selfrun_words(rest)?))
    } else {
        None
    }
}
