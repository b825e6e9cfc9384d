// Tests of users: rows of streams of each service, whole and cut at every octet, with what is
// offered, printed and answered, and scripts of turns over a link in memory. They stand above
// `user_core`, and are proved once.
#![tactic(auto)]

#[cfg(test)]
mod centre;
#[cfg(test)]
mod cltu_rows;
#[cfg(test)]
mod common_rows;
#[cfg(test)]
mod messages;
#[cfg(test)]
mod named;
#[cfg(test)]
mod raf_rows;
#[cfg(test)]
mod rcf_rows;
#[cfg(test)]
mod scripts;
#[cfg(test)]
mod streams;
#[cfg(test)]
mod tasks;
#[cfg(test)]
mod texts;
#[cfg(test)]
mod turns;
