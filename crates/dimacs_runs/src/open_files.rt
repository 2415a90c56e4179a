//! Open files with their names.

ghost use Rattle.std.specs.Prelude.{◌≡◌, ◌∷◌, [], IfErr, IfOk};
ghost use Rattle.dimacs_runs.specs.Files.{Created, NotCreated, NotOpened, Opened, Sees, closed_read, closed_written, failures};
ghost use Rattle.dimacs_runs.specs.inside.Commands.{FailsWith, IsFirstOf};

use crate::failure::{CommandError, Failure, FileCall, on_file};
use crate::files::Files;

/// An open file with its name, for messages.
#[derive(Drop)]
pub(crate) struct OpenFile<'a, D> {
    pub(crate) name: &'a str,
    pub(crate) device: D,
}

pub(crate) fn open<'a, F: Files>(
    files: &mut F,
    name: &'a str,
) -> Result<OpenFile<'a, F::Input>, CommandError<'a>>
    ensures named { IfOk result (λ file. file.name.now ≡ name.now) }
    ensures holds { F.holds files.new ≡ F.holds files.old }
    ensures coming { IfOk result (λ file. F.Input.coming file.device ≡ F.holds files.old name.now) }
    ensures faultless { IfOk result (λ file. F.Input.faults file.device ≡ 0) }
    ensures opened { IfOk result (λ file. Sees (Opened name.now ∷ []) (F.seen files.old) (F.seen files.new)) }
    ensures failed { IfErr result (FailsWith (NotOpened name.now) (F.seen files.old) (F.seen files.new)) }
{
    match files.open(name) {
        Ok(device) => Ok(OpenFile { name, device }),
        Err(error) => Err(on_file(error, FileCall::Open, name)),
    }
}

pub(crate) fn create<'a, F: Files>(
    files: &mut F,
    name: &'a str,
) -> Result<OpenFile<'a, F::Output>, CommandError<'a>>
    ensures named { IfOk result (λ file. file.name.now ≡ name.now) }
    ensures empty { IfOk result (λ file. F.Output.seen file.device ≡ record { accepted = F.empty; faults = 0 }) }
    ensures created { IfOk result (λ file. Sees (Created name.now ∷ []) (F.seen files.old) (F.seen files.new)) }
    ensures failed { IfErr result (FailsWith (NotCreated name.now) (F.seen files.old) (F.seen files.new)) }
{
    match files.create(name) {
        Ok(device) => Ok(OpenFile { name, device }),
        Err(error) => Err(on_file(error, FileCall::Create, name)),
    }
}

/// Closes a file that was read. Returns the failure if a read failed.
pub(crate) fn close_read<'a, F: Files>(
    files: &mut F,
    file: OpenFile<'a, F::Input>,
) -> Option<Failure<'a>>
    ensures failure { IsFirstOf result (failures (closed_read file.entry.name.now (F.Input.faults file.entry.device))) }
    ensures seen { Sees (closed_read file.entry.name.now (F.Input.faults file.entry.device) ∷ []) (F.seen files.old) (F.seen files.new) }
{
    if files.close_input(file.name, file.device) {
        Some(Failure::File(FileCall::Read, file.name))
    } else {
        None
    }
}

/// Closes a file that was written. Returns the failure if a write failed.
pub(crate) fn close_written<'a, F: Files>(
    files: &mut F,
    file: OpenFile<'a, F::Output>,
) -> Option<Failure<'a>>
    ensures failure { IsFirstOf result (failures (closed_written file.entry.name.now (F.Output.seen file.entry.device))) }
    ensures seen { Sees (closed_written file.entry.name.now (F.Output.seen file.entry.device) ∷ []) (F.seen files.old) (F.seen files.new) }
{
    if files.close_output(file.name, file.device) {
        Some(Failure::File(FileCall::Write, file.name))
    } else {
        None
    }
}
