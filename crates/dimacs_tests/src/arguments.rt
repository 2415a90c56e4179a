//! The meaning of arguments of which no run shows it: `tests/rows/commands` has runs of each command, and
//! `tests/usage.py` asks for help and gives arguments that ask for nothing.

use crate::checks::same;
use dimacs_jobs::request;
use std::alloc::Global;
use std::process::Abort;
use std::test::Fail;

/// Command lines, each with what it asks for.
static REQUESTS: &str = "\
convert gr - | Some(Run(Job { verb: Convert(Graph), files: [\"-\"] }))
convert gr --help | Some(Run(Job { verb: Convert(Graph), files: [\"--help\"] }))
convert gr convert | Some(Run(Job { verb: Convert(Graph), files: [\"convert\"] }))
judge-infeasible --version -V | Some(Run(Job { verb: Judge(Infeasible), files: [\"--version\", \"-V\"] }))
certify-min certify-max --help - | Some(Run(Job { verb: Certify(Min), files: [\"certify-max\", \"--help\", \"-\"] }))
solve-max instance solution cut --limit -0 | Some(Run(Job { verb: Solve(Max(0)), files: [\"instance\", \"solution\", \"cut\"] }))
solve-max instance solution cut --limit +007 | Some(Run(Job { verb: Solve(Max(7)), files: [\"instance\", \"solution\", \"cut\"] }))
solve-min instance solution pot --limit 1000000000 | Some(Run(Job { verb: Solve(Min(1000000000)), files: [\"instance\", \"solution\", \"pot\"] }))
solve-max instance --limit 5 | Some(Run(Job { verb: Solve(Max(1000000)), files: [\"instance\", \"--limit\", \"5\"] }))
solve-min --limit 5 pot | Some(Run(Job { verb: Solve(Min(1000000)), files: [\"--limit\", \"5\", \"pot\"] }))
solve-max - --limit --limit --limit 5 | Some(Run(Job { verb: Solve(Max(5)), files: [\"-\", \"--limit\", \"--limit\"] }))
solve-paths --limit --help - | Some(Run(Job { verb: Solve(Paths), files: [\"--limit\", \"--help\", \"-\"] }))
spread-min spread-min help explain | Some(Run(Job { verb: Spread(Min), files: [\"spread-min\", \"help\", \"explain\"] }))
judge-max --help | Some(HelpOn(\"judge-max\"))
certify-infeasible -h | Some(HelpOn(\"certify-infeasible\"))
certify-infeasible ./--help | Some(Run(Job { verb: Certify(Infeasible), files: [\"./--help\"] }))
explain convert gr --help | Some(Explain(Job { verb: Convert(Graph), files: [\"--help\"] }))
 | None
- | None
--Help | None
-help | None
-v | None
version | None
gr convert road.gr | None
convert gr road.gr road.gr | None
judge instance solution cut | None
judge-infeasible instance solution cut | None
certify-paths graph distances labels labels | None
solve-max instance solution cut cut | None
solve-max instance solution cut --limit 5 5 | None
solve-max instance solution cut limit 5 | None
solve-max instance solution cut --limit 5. | None
solve-max instance solution cut --limit  | None
solve-max instance solution cut --limit 99999999999999999999 | None
--help --help | None
--version judge-max | None
help --help | Some(HelpOn(\"help\"))
explain help judge-max | None
explain explain convert gr file | None";

/// The arguments of a line, with one blank between them.
fn arguments(alloc: Global, line: &str) -> Result<Vec<String>, Fail> {
    let mut list = Vec::new(alloc);
    for word in line.split(' ') {
        list.push(String::from_str(alloc, word)?)?;
    }
    Ok(list)
}

fn asks_for(rt: &impl Abort, alloc: Global, row: &str) -> Result<(), Fail> {
    let (line, wanted) = row.split_once(" | ").expect(rt, row);
    let actual = format!(in alloc; "{:?}", request(&arguments(alloc, line)?))?;
    same(rt, line, actual.as_str(), wanted);
    Ok(())
}

#[test]
fn arguments_ask_for_help_or_runs(rt: HostRuntime) -> Result<(), Fail> {
    for row in REQUESTS.lines() {
        asks_for(&rt, rt.alloc(), row)?;
    }
    same(&rt, "no arguments", request(&Vec::new(rt.alloc())), None);
    Ok(())
}
