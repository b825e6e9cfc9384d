// Tests of a station's workers whose links, disk, source, antenna or doors fail, and whose turns
// run out. They stand above `worker_runs`, and are proved once.
#![tactic(auto)]

#[cfg(test)]
mod tests;
