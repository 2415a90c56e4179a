//! The meaning of the command's arguments: a verb, such as `judge-max`, then files and options.

ghost use Rattle.std.specs.Prelude.{◌≡◌, ◌≢◌, ◌↔◌, ◌∷◌, ◌++◌, [], ℕ, Contains, List, IfSome, IfNone, IsTrue, map};
ghost use Rattle.std.specs.String.{string_bytes};
ghost use Rattle.dimacs_records.specs.declared.kinds.TextKind.{TextKind};
ghost use Rattle.dimacs_jobs.specs.{declared.jobs.Job.{Job}, declared.jobs.Request.{Request}};
ghost use Rattle.dimacs_jobs.specs.declared.jobs.Verb.{Verb};
ghost use Rattle.dimacs_jobs.specs.Jobs.{AreOptions, Asks, AsksForHelp, GiveLimit, IsLimit, Requests, command_words, kind_argument, verb_words, without_limit};

use crate::jobs::{Job, JudgeKind, Request, SolveJob, SpreadKind, Verb};
use dimacs_lines::number;
use dimacs_records::TextKind;

/// The limit if none is given.
const LIMIT: u64 = 1_000_000;

/// The greatest limit.
const GREATEST_LIMIT: i64 = 1_000_000_000;

/// What these arguments, without the program's name, ask for.
pub fn request(arguments: &[String]) -> Option<Request<'_>>
    ensures requested { IfSome result (Requests (map string_bytes arguments.now)) }
    ensures not_requested { IfNone result ((wanted : Request) → ¬ Requests (map string_bytes arguments.now) wanted) }
{
    if let Some(command) = helped(arguments) {
        return Some(Request::HelpOn(command));
    }
    let (first, rest) = arguments.split_first()?;
    match first.as_str() {
        "explain" => Some(Request::Explain(job(rest)?)),
        "--help" | "-h" | "help" => alone(Request::Help, rest),
        "--version" | "-V" => alone(Request::Version, rest),
        _ => Some(Request::Run(job(arguments)?)),
    }
}

/// The command on which these arguments ask for help.
fn helped(arguments: &[String]) -> Option<&str>
    ensures asked { IfSome result (λ command. AsksForHelp (map string_bytes arguments.now) command.now) }
    ensures not_asked { IfNone result ((command : List ℕ) → ¬ AsksForHelp (map string_bytes arguments.now) command) }
{
    let [first, second] = arguments else {
        return None;
    };
    match (first.as_str(), second.as_str()) {
        (word, "--help" | "-h") => command(word),
        ("help", word) => command(word),
        _ => None,
    }
}

/// A word, if it names a command.
fn command(word: &str) -> Option<&str>
    ensures named { IfSome result (λ command. (command.now ≡ word.now) × Contains command_words word.now) }
    ensures not_named { IfNone result (¬ Contains command_words word.now) }
{
    if is_command(word) { Some(word) } else { None }
}

/// What an argument asks for, if none come after it.
fn alone<'a>(wanted: Request<'a>, rest: &[String]) -> Option<Request<'a>>
    ensures wanted { IfSome result (λ request. (request ≡ wanted.entry) × (rest.now ≡ [])) }
    ensures not_alone { IfNone result (rest.now ≢ []) }
{
    match rest {
        [] => Some(wanted),
        _ => None,
    }
}

/// Whether a word names a command.
fn is_command(word: &str) -> bool
    ensures { IsTrue result ↔ Contains command_words word.now }
{
    matches!(
        word,
        "convert"
            | "show"
            | "judge-max"
            | "judge-min"
            | "judge-infeasible"
            | "judge-paths"
            | "certify-max"
            | "certify-min"
            | "certify-infeasible"
            | "certify-paths"
            | "solve-max"
            | "solve-min"
            | "solve-paths"
            | "spread-max"
            | "spread-min"
            | "explain"
            | "help"
    )
}

/// The run that these arguments, without the program's name, ask for. A file may have any name, even one that begins
/// with `-`.
pub fn job(arguments: &[String]) -> Option<Job<'_>>
    ensures asked { IfSome result (Asks (map string_bytes arguments.now)) }
    ensures not_asked { IfNone result ((wanted : Job) → ¬ Asks (map string_bytes arguments.now) wanted) }
{
    let (verb, rest) = verb(arguments)?;
    let texts = verb.texts();
    let (files, options) = rest.split_at_checked(rest.len().min(texts.kinds.len()))?;
    if files.len() < texts.least() {
        return None;
    }
    let verb = with_options(verb, options)?;
    Some(Job { verb, files })
}

/// The verb that arguments begin with, and those after it. Its limit is the one if none is given.
fn verb(arguments: &[String]) -> Option<(Verb, &[String])>
    ensures named { IfSome result (λ found. map string_bytes arguments.now ≡ verb_words found.0 ++ map string_bytes found.1.now) }
    ensures not_named { IfNone result ((verb : Verb) (rest : List (List ℕ)) → map string_bytes arguments.now ≢ verb_words verb ++ rest) }
{
    let (word, rest) = arguments.split_first()?;
    match (word.as_str(), rest) {
        ("convert", [kind, rest @ ..]) => Some((Verb::Convert(text_kind(kind.as_str())?), rest)),
        ("show", [kind, rest @ ..]) => Some((Verb::Show(text_kind(kind.as_str())?), rest)),
        (word, rest) => Some((named(word)?, rest)),
    }
}

/// The verb that a word alone names.
fn named(word: &str) -> Option<Verb>
    ensures named { IfSome result (λ verb. verb_words verb ≡ word.now ∷ []) }
    ensures not_named { IfNone result ((verb : Verb) → verb_words verb ≢ word.now ∷ []) }
{
    match word {
        "judge-max" => Some(Verb::Judge(JudgeKind::Max)),
        "judge-min" => Some(Verb::Judge(JudgeKind::Min)),
        "judge-infeasible" => Some(Verb::Judge(JudgeKind::Infeasible)),
        "judge-paths" => Some(Verb::Judge(JudgeKind::Paths)),
        "certify-max" => Some(Verb::Certify(JudgeKind::Max)),
        "certify-min" => Some(Verb::Certify(JudgeKind::Min)),
        "certify-infeasible" => Some(Verb::Certify(JudgeKind::Infeasible)),
        "certify-paths" => Some(Verb::Certify(JudgeKind::Paths)),
        "solve-max" => Some(Verb::Solve(SolveJob::Max(LIMIT))),
        "solve-min" => Some(Verb::Solve(SolveJob::Min(LIMIT))),
        "solve-paths" => Some(Verb::Solve(SolveJob::Paths)),
        "spread-max" => Some(Verb::Spread(SpreadKind::Max)),
        "spread-min" => Some(Verb::Spread(SpreadKind::Min)),
        _ => None,
    }
}

/// A verb with the limit that these arguments after its files give.
fn with_options(verb: Verb, options: &[String]) -> Option<Verb>
    ensures given { IfSome result (λ wanted. (without_limit wanted ≡ without_limit verb) × AreOptions wanted (map string_bytes options.now)) }
    ensures not_given { IfNone result ((wanted : Verb) → without_limit wanted ≡ without_limit verb → ¬ AreOptions wanted (map string_bytes options.now)) }
{
    match verb {
        Verb::Solve(SolveJob::Max(_)) => Some(Verb::Solve(SolveJob::Max(limit(options)?))),
        Verb::Solve(SolveJob::Min(_)) => Some(Verb::Solve(SolveJob::Min(limit(options)?))),
        verb if options.is_empty() => Some(verb),
        _ => None,
    }
}

/// The limit that these arguments give.
fn limit(options: &[String]) -> Option<u64>
    ensures limit { IfSome result (GiveLimit (map string_bytes options.now)) }
    ensures no_limit { IfNone result ((limit : ℕ) → ¬ GiveLimit (map string_bytes options.now) limit) }
{
    match options {
        [] => Some(LIMIT),
        [option, number] if option.as_str() == "--limit" => limit_in(number.as_bytes()),
        _ => None,
    }
}

/// The limit that an argument spells.
fn limit_in(argument: &[u8]) -> Option<u64>
    ensures spelled { IfSome result (IsLimit argument.now) }
    ensures not_spelled { IfNone result ((limit : ℕ) → ¬ IsLimit argument.now limit) }
{
    match number(argument) {
        Ok(limit) if (0..=GREATEST_LIMIT).contains(&limit) => Some(limit as u64),
        _ => None,
    }
}

/// The kind of text that an argument names.
fn text_kind(argument: &str) -> Option<TextKind>
    ensures named { IfSome result (λ kind. argument.now ≡ kind_argument kind) }
    ensures not_named { IfNone result ((kind : TextKind) → ¬ (argument.now ≡ kind_argument kind)) }
{
    match argument {
        "max" => Some(TextKind::Max),
        "min" => Some(TextKind::Min),
        "gr" => Some(TextKind::Graph),
        "query" => Some(TextKind::Queries),
        "solution" => Some(TextKind::Solution),
        "cut" => Some(TextKind::Cut),
        "pot" => Some(TextKind::Potentials),
        "dist" => Some(TextKind::Labels),
        "distances" => Some(TextKind::Distances),
        _ => None,
    }
}
