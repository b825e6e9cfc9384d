// Tests of a station's workers on threads: two sessions, the recorder and the antenna at once,
// beside the plain program of one thread. They stand above `worker_runs`, and are proved once.
#![tactic(auto)]

#[cfg(test)]
mod tests;
