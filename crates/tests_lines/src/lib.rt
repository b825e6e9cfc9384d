// Tests of the lines of streams: rows of messages of each service with their lines, a stream that
// is cut at every octet, and outputs that fail. They stand above `user_lines`, and are proved once.
#![tactic(auto)]

#[cfg(test)]
mod cltu_rows;
#[cfg(test)]
mod raf_rows;
#[cfg(test)]
mod rcf_rows;
#[cfg(test)]
mod rows;
#[cfg(test)]
mod streams;
