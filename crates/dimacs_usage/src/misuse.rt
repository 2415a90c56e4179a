//! What is wrong with arguments. `dimacs_jobs::request` decides whether they ask for anything.

use crate::usage;
use crate::usage::{COMMANDS, Command, KINDS};
use dimacs_jobs::{NO_RUN, complaint};
use dimacs_quote::Shown;
use std::alloc::{AllocError, Global};
use strsim::osa_distance;

/// What is wrong with arguments.
#[derive(Drop)]
struct Misuse {
    /// One line, without its end; empty if there are no arguments.
    line: String,
    /// The command that they name, if it is one.
    command: Option<Command>,
}

impl Misuse {
    fn of_no_command(line: String) -> Misuse {
        Misuse {
            line,
            command: None,
        }
    }

    /// The complaint of its status, the line, and the usage of the command that the arguments name, or where to find it; of
    /// all without a line.
    fn text(self, alloc: Global) -> Result<String, AllocError> {
        let first = complaint(NO_RUN).unwrap_or_default();
        let usage = match self.command {
            _ if self.line.is_empty() => usage::of_all(alloc)?,
            Some(command) => usage::of_one(alloc, command)?,
            None => usage::of_none(alloc)?,
        };
        let end = if self.line.is_empty() { "" } else { "\n" };
        format!(in alloc; "{first}\n{}{end}{usage}", self.line)
    }
}

/// The complaint of arguments that ask for nothing, given without the program's name.
pub fn complaint_of(alloc: Global, arguments: &[String]) -> Result<String, AllocError> {
    misuse_of(alloc, arguments)?.text(alloc)
}

/// The complaint of arguments that ask for a run which a slip stops, with a line on it.
pub fn complaint_of_slip(
    alloc: Global,
    arguments: &[String],
    line: String,
) -> Result<String, AllocError> {
    let misuse = Misuse {
        line,
        command: Command::among(arguments),
    };
    misuse.text(alloc)
}

/// The complaint of arguments that aren't text.
pub fn complaint_of_bytes(alloc: Global) -> Result<String, AllocError> {
    Misuse::of_no_command(String::from_str(alloc, "an argument isn't UTF-8")?).text(alloc)
}

/// What is wrong with these arguments.
fn misuse_of(alloc: Global, arguments: &[String]) -> Result<Misuse, AllocError> {
    let Some((first, rest)) = arguments.split_first() else {
        return Ok(Misuse::of_no_command(String::new(alloc)));
    };
    match (first.as_str(), rest) {
        ("explain", []) => Ok(Misuse {
            line: String::from_str(alloc, "explain takes a command and its files")?,
            command: Command::named("explain"),
        }),
        ("explain", [name, files @ ..]) => explained_misuse(alloc, name.as_str(), files),
        (option @ ("--help" | "-h"), _) => {
            let line = format!(in alloc; "{option} comes alone, or after a command")?;
            Ok(Misuse::of_no_command(line))
        }
        (option @ ("--version" | "-V"), _) => {
            Ok(Misuse::of_no_command(format!(in alloc; "{option} comes alone")?))
        }
        ("help", [name]) => unknown_command(alloc, name.as_str(), &[], &[]),
        (name, files) => command_misuse(alloc, name, files, &["--version"]),
    }
}

/// What is wrong with the arguments after `explain`.
fn explained_misuse(alloc: Global, name: &str, files: &[String]) -> Result<Misuse, AllocError> {
    if matches!(name, "explain" | "help") {
        return Ok(Misuse {
            line: format!(in alloc; "explain takes a command that runs, and {name} doesn't")?,
            command: Command::named("explain"),
        });
    }
    command_misuse(alloc, name, files, &[])
}

/// What is wrong with the arguments of the command of this name. These options may be meant in place of a command.
fn command_misuse(
    alloc: Global,
    name: &str,
    arguments: &[String],
    options: &[&'static str],
) -> Result<Misuse, AllocError> {
    let Some(command) = Command::named(name) else {
        return unknown_command(alloc, name, arguments, options);
    };
    let line = match arguments {
        [kind, _] if command.has_kind() => unknown_kind(alloc, kind.as_str())?,
        _ if command.has_limit() => limit_misuse(alloc, command, arguments)?,
        _ => wrong_count(alloc, command, arguments.len())?,
    };
    Ok(Misuse {
        line,
        command: Some(command),
    })
}

/// How an option begins that has its limit in the same word.
const JOINED: &str = "--limit=";

/// What is wrong with the arguments of a command that may have a limit.
fn limit_misuse(
    alloc: Global,
    command: Command,
    arguments: &[String],
) -> Result<String, AllocError> {
    match arguments {
        [.., last] if last.starts_with(JOINED) => {
            let limit = last.strip_prefix(JOINED).unwrap_or_default();
            format!(in alloc; "write --limit {}", Shown(limit))
        }
        [files @ .., option, _] if option.as_str() == "--limit" => {
            if command.counts().0 == files.len() {
                String::from_str(alloc, "N is from 0 to 1000000000")
            } else {
                wrong_count(alloc, command, files.len())
            }
        }
        _
            if arguments
                .iter()
                .any(|it| it.as_str() == "--limit" || it.starts_with(JOINED)) => {
            String::from_str(alloc, "--limit N comes last")
        }
        _ => wrong_count(alloc, command, arguments.len()),
    }
}

/// How many files a command takes, which ones, and how many were given.
fn wrong_count(alloc: Global, command: Command, given: usize) -> Result<String, AllocError> {
    let (least, most) = command.counts();
    let mut line = format!(in alloc; "{} takes {least}", command.name())?;
    if most > least {
        write!(line, " or {most}")?;
    }
    let what = if command.has_only_files() {
        "files"
    } else {
        "arguments"
    };
    let were = if given == 1 { "was" } else { "were" };
    write!(line, " {what}: {}; {given} {were} given", command.files())?;
    Ok(line)
}

/// That a word before these arguments names no command, and the command or the option that is meant, if one is near.
fn unknown_command(
    alloc: Global,
    name: &str,
    arguments: &[String],
    options: &[&'static str],
) -> Result<Misuse, AllocError> {
    let mut words = Vec::new(alloc);
    words.extend_from_slice(&COMMANDS.map(Command::name))?;
    words.extend_from_slice(options)?;
    let meant = match in_two_words(alloc, name, arguments)? {
        None => meant(alloc, name, &words)?,
        command => command,
    };
    Ok(Misuse::of_no_command(unknown(alloc, "command", name, meant)?))
}

/// The command whose name is in two words, a dash between them.
fn in_two_words(
    alloc: Global,
    first: &str,
    arguments: &[String],
) -> Result<Option<&'static str>, AllocError> {
    let Some(second) = arguments.first() else {
        return Ok(None);
    };
    let name = format!(in alloc; "{first}-{second}")?;
    Ok(Command::named(name.as_str()).map(Command::name))
}

/// That a word names no kind of text, and the kind that is meant, if one is near. The first line of a graph has `sp`.
fn unknown_kind(alloc: Global, given: &str) -> Result<String, AllocError> {
    let meant = match given {
        "sp" => Some("gr"),
        _ => meant(alloc, given, &KINDS)?,
    };
    unknown(alloc, "kind", given, meant)
}

/// That a word is none of these, and the one that is meant.
fn unknown(
    alloc: Global,
    what: &str,
    given: &str,
    meant: Option<&str>,
) -> Result<String, AllocError> {
    let mut line = format!(in alloc; "no {what} {}", Shown(given))?;
    if let Some(word) = meant {
        write!(line, ": {word}?")?;
    }
    Ok(line)
}

/// The word that is meant, apart from case and the dashes before it: the nearest, or else the first that begins so, or
/// with which it begins.
fn meant(
    alloc: Global,
    given: &str,
    words: &[&'static str],
) -> Result<Option<&'static str>, AllocError> {
    let given = given.to_ascii_lowercase(alloc)?;
    let given = without_dashes(given.as_str());
    match nearest(alloc, given, words)? {
        None if !given.is_empty() => Ok(begun(given, words)),
        found => Ok(found),
    }
}

/// The word that the fewest edits lead to: at most one for each three of its characters.
fn nearest(
    alloc: Global,
    given: &str,
    words: &[&'static str],
) -> Result<Option<&'static str>, AllocError> {
    let mut best = None;
    let mut fewest = usize::MAX;
    for &word in words {
        let edits = osa_distance(alloc, given, without_dashes(word))?;
        if edits <= word.len() / 3 && edits < fewest {
            fewest = edits;
            best = Some(word);
        }
    }
    Ok(best)
}

/// The first word that begins so, or with which it begins.
fn begun(given: &str, words: &[&'static str]) -> Option<&'static str> {
    words.iter().copied().find(|word| {
        let word = without_dashes(word);
        word.starts_with(given) || given.starts_with(word)
    })
}

/// A word without the dashes before it.
fn without_dashes(word: &str) -> &str {
    word.trim_start_matches('-')
}
