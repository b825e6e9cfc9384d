// Tests of the return services: rows of what a user asks, with what is answered, reported and handed
// over. What is expected was worked out by hand from the rules.
#![tactic(auto)]

#[cfg(test)]
mod ground;
#[cfg(test)]
mod instance;
#[cfg(test)]
mod parameters;
#[cfg(test)]
mod plain;
#[cfg(test)]
mod reports;
#[cfg(test)]
mod rounds;
#[cfg(test)]
mod starts;
#[cfg(test)]
mod words;
