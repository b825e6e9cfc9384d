// Tests of the lock: each of its calls, and turns of two threads that are held for some time, short
// ones a thousand times. They stand above `turn_lock`, and are proved once.
#![tactic(auto)]

#[cfg(test)]
mod log;
#[cfg(test)]
mod threads;
#[cfg(test)]
mod turns;
