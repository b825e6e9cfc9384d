// Tests of the link and the door over TCP, each over the loopback. They stand above `tcp_link` and
// `tcp_door`, and are proved once.
#![tactic(auto)]

#[cfg(test)]
mod beside;
#[cfg(test)]
mod doors;
#[cfg(test)]
mod links;
#[cfg(test)]
mod loopback;
