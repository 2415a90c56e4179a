//! The usage texts, of one table of commands. clap only renders them: `dimacs_jobs::request` reads the arguments.

use dimacs_jobs::version;
use std::alloc::{AllocError, Global};

/// A command: its name with its arguments, of which those in brackets may be left out, and what it does. Both fit into
/// 80 columns, with four spaces.
#[derive(Clone, Copy)]
pub struct Command(&'static str, &'static str);

impl Command {
    /// The command with this name.
    pub fn named(name: &str) -> Option<Command> {
        COMMANDS
            .iter()
            .copied()
            .find(|command| command.name() == name)
    }

    /// The command that arguments name, which may follow `explain`.
    pub fn among(arguments: &[String]) -> Option<Command> {
        let first = arguments.first()?;
        let name = match first.as_str() {
            "explain" => arguments.get(1)?,
            _ => first,
        };
        Command::named(name.as_str())
    }

    /// The word that names it.
    pub fn name(self) -> &'static str {
        self.0.split(' ').next().unwrap_or(self.0)
    }

    /// Its arguments, in the words of the usage text, without the limit.
    pub fn files(self) -> &'static str {
        let files = self.0.split_once(' ').map_or("", |(_, files)| files);
        files.strip_suffix(LIMIT).unwrap_or(files)
    }

    /// The word for the file at this place, from 0.
    pub fn file(self, place: usize) -> &'static str {
        let word = self.files().split_whitespace().nth(place).unwrap_or("FILE");
        word.trim_matches(['[', ']'])
    }

    /// Whether a limit may come last.
    pub fn has_limit(self) -> bool {
        self.0.ends_with(LIMIT)
    }

    /// The least and the greatest number of its files.
    pub fn counts(self) -> (usize, usize) {
        let most = self.files().split_whitespace().count();
        let left_out = self
            .files()
            .split_whitespace()
            .filter(|word| word.starts_with('['))
            .count();
        (most.saturating_sub(left_out), most)
    }

    /// Whether it takes a kind before its file.
    pub fn has_kind(self) -> bool {
        self.files().starts_with("KIND")
    }

    /// Whether each of its arguments, but for the limit, names a file.
    pub fn has_only_files(self) -> bool {
        !self.has_kind() && !self.files().contains("COMMAND")
    }
}

/// How the words of a command that has a limit end.
const LIMIT: &str = " [--limit N]";

/// The commands, in the order of the usage text.
pub static COMMANDS: [Command; 17] = [
    Command("convert KIND FILE", "Prints the canonical form"),
    Command("show KIND FILE", "Prints a line about FILE"),
    Command("judge-max INSTANCE SOLUTION CUT", "Is the flow maximum?"),
    Command(
        "judge-min INSTANCE SOLUTION POTENTIALS",
        "Does the flow cost least?",
    ),
    Command("judge-infeasible INSTANCE CUT", "Is no flow feasible?"),
    Command("judge-paths GRAPH QUERY LABELS", "Are these distances?"),
    Command(
        "certify-max INSTANCE SOLUTION [CERTIFICATE]",
        "Is the flow maximum?",
    ),
    Command(
        "certify-min INSTANCE SOLUTION [CERTIFICATE]",
        "Does the flow cost least?",
    ),
    Command(
        "certify-infeasible INSTANCE [CERTIFICATE]",
        "Is no flow feasible?",
    ),
    Command(
        "certify-paths GRAPH DISTANCES [LABELS]",
        "Are these distances?",
    ),
    Command(
        "solve-max INSTANCE SOLUTION CUT [--limit N]",
        "Writes a maximum flow",
    ),
    Command(
        "solve-min INSTANCE SOLUTION CERTIFICATE [--limit N]",
        "Writes a cheapest flow",
    ),
    Command("solve-paths GRAPH QUERY LABELS", "Writes distances"),
    Command(
        "spread-max INSTANCE SOLUTION OUT",
        "Deals out parallel flow",
    ),
    Command(
        "spread-min INSTANCE SOLUTION OUT",
        "Deals out at least cost",
    ),
    Command("explain COMMAND FILE...", "Explains an answer"),
    Command("help [COMMAND]", "Prints the usage"),
];

/// What else there is to know about the commands whose names begin like this.
struct Note {
    of: &'static [&'static str],
    text: &'static str,
}

/// The notes, in the order of the usage text.
static NOTES: [Note; 6] = [
    Note {
        of: &["judge"],
        text: "\
A judge run is given a certificate, which shows that a claim is true. It writes
no file.",
    },
    Note {
        of: &["certify"],
        text: "\
A certify run needs no certificate. It WRITES one to CERTIFICATE or LABELS, if
it is named, or a better or a feasible solution, once the other files are read:
what is there is replaced. To judge by a certificate, give it to a judge run.",
    },
    Note {
        of: &["solve"],
        text: "\
A solve run empties the files that it writes BEFORE it reads INSTANCE, or GRAPH
and QUERY: if the files are in another order, it destroys one.",
    },
    Note {
        of: &["solve-m"],
        text: "\
N limits the flows or steps that are tried: a number from 0 to 1000000000,
1000000 by default. It comes last.",
    },
    Note {
        of: &["spread"],
        text: "\
A spread run writes OUT once the other files are read.",
    },
    Note {
        of: &["convert", "show"],
        text: "\
KIND:
  max    an instance of maximum flow       solution   a claimed flow
  min    an instance of minimum cost flow  distances  claimed distances
  gr     a graph for shortest paths        cut        a set of nodes
  query  queries for shortest paths        pot        potentials of nodes
                                           dist       distance labels",
    },
];

impl Note {
    /// Whether it concerns a command.
    fn concerns(&self, command: Command) -> bool {
        self.of
            .iter()
            .any(|front| command.name().starts_with(*front))
    }
}

/// The words for the kinds of text.
pub static KINDS: [&str; 9] = [
    "max",
    "min",
    "gr",
    "query",
    "solution",
    "cut",
    "pot",
    "dist",
    "distances",
];

const ABOUT: &str =
    "Reads, converts, judges and makes the DIMACS texts of flows and shortest paths";

/// The words of any command.
const USAGE: &str = "dimacs COMMAND FILE...";

/// The end of the usage text of all commands.
static ENDING: &str = "\
Exit status:
  0  done; a judge said yes                3  a file failed, or isn't there
  1  refused: the line begins with x       4  out of memory
  2  the arguments are wrong               5  a solve run gave up: g limit

Example:
  dimacs judge-max pipes.max pipes.solution pipes.cut
  prints v max 12, or the first fault with its place, as x arc 3 NotSaturated";

/// The usage text of all commands, after the version.
pub fn of_all(alloc: Global) -> Result<String, AllocError> {
    let mut notes = notes(alloc, None)?;
    notes.push_str("\n\n")?;
    notes.push_str(ENDING)?;
    let mut page = page(alloc, USAGE).about(ABOUT).after_help(notes.as_str());
    for &Command(words, about) in &COMMANDS {
        page = page.subcommand(clap::Command::new(alloc, words).about(about))?;
    }
    let text = page.render_help()?;
    format!(in alloc; "dimacs {}\n{text}", version())
}

/// The usage text of arguments that name no command.
pub fn of_none(alloc: Global) -> Result<String, AllocError> {
    page(alloc, USAGE)
        .after_help("`dimacs help` lists the commands")
        .render_help()
}

/// The usage text of one command.
pub fn of_one(alloc: Global, command: Command) -> Result<String, AllocError> {
    let Command(words, about) = command;
    let usage = format!(in alloc; "dimacs {words}")?;
    let notes = notes(alloc, Some(command))?;
    let mut page = page(alloc, usage.as_str()).about(about);
    if !notes.is_empty() {
        page = page.after_help(notes.as_str());
    }
    page.render_help()
}

/// A page of help on this usage.
fn page(alloc: Global, usage: &str) -> clap::Command<'_> {
    clap::Command::new(alloc, "dimacs")
        .disable_help_subcommand(true)
        .disable_help_flag(true)
        .override_usage(usage)
}

/// The notes on a command, or on all, with an empty line between them.
fn notes(alloc: Global, command: Option<Command>) -> Result<String, AllocError> {
    let mut text = String::new(alloc);
    for note in &NOTES {
        if command.is_none_or(|command| note.concerns(command)) {
            if !text.is_empty() {
                text.push_str("\n\n")?;
            }
            text.push_str(note.text)?;
        }
    }
    Ok(text)
}
