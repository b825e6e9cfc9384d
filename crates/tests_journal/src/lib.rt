// Tests of disks in memory and of journals on them: rows of calls and of files, and what each
// answers. They stand above `disk_model` and `gate_journal`, and are proved once.
#![tactic(auto)]

#[cfg(test)]
mod calls;
#[cfg(test)]
mod journals;
#[cfg(test)]
mod reading;
#[cfg(test)]
mod script;
