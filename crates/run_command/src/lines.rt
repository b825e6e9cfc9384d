// The lines that a run writes at its end.
ghost use Rattle.std.specs.Prelude.{◌≡◌, ◌++◌, IfOk, OnOk, string_bytes};
ghost use Rattle.run_command.specs.Texts.{status_text, doors_text, run_text};

use crate::status::RunStatus;
use octet_core::Memory;
use station_seats::DoorReport;
use std::alloc::Global;

// The line that a status has, and no octets where it has none.
pub(crate) fn status_line(alloc: Global, status: RunStatus) -> Result<String, Memory>
    ensures { IfOk result (λ text. string_bytes text ≡ status_text status) }
{
    let line = match status {
        RunStatus::Done | RunStatus::WriteFault | RunStatus::Full | RunStatus::Memory => {
            String::new(alloc)
        }
        RunStatus::BadSite { number, cause } => format!(in alloc; "bad site {number} {cause}\n")?,
        RunStatus::Refused { place } => format!(in alloc; "archive refused {place}\n")?,
        RunStatus::Changed { expected, found } => {
            format!(in alloc; "archive changed {expected} {found}\n")?
        }
        RunStatus::ReadFault => format!(in alloc; "read fault\n")?,
        RunStatus::DiskFault => format!(in alloc; "disk fault\n")?,
        RunStatus::TurnsSpent => format!(in alloc; "turns spent\n")?,
        RunStatus::InputTooLong => format!(in alloc; "input too long\n")?,
    };
    Ok(line)
}

// Adds the lines of the doors' workers to a text.
fn add_doors(alloc: Global, doors: &[DoorReport], text: &mut String) -> Result<(), Memory>
    ensures { OnOk result (string_bytes text.new
        ≡ string_bytes text.old ++ doors_text 1 doors.now) }
{
    let mut number = 1u64;
    for door in doors {
        let links = door.links;
        let line = format!(in alloc; "door {number} links {links}\n")?;
        text.push_str(line.as_str())?;
        number += 1;
    }
    Ok(())
}

// What the workers did, and behind it the line of the status.
pub(crate) fn text_of_run(
    alloc: Global,
    published: u64,
    radiated: u64,
    doors: &[DoorReport],
    status: RunStatus,
) -> Result<String, Memory>
    ensures { IfOk result (λ text. string_bytes text
        ≡ run_text published radiated doors.now status) }
{
    let mut text = format!(in alloc; "stored {published}\nradiated {radiated}\n")?;
    add_doors(alloc, doors, &mut text)?;
    let last = status_line(alloc, status)?;
    text.push_str(last.as_str())?;
    Ok(text)
}
