//! Tests of what no input of a program shows: streams that fail, jobs that are cut or find no memory, another host,
//! the calls of the laws.
#![tactic(auto)]

#[cfg(test)]
mod capabilities;
#[cfg(test)]
mod counts;
#[cfg(test)]
mod drives;
#[cfg(test)]
mod faces;
#[cfg(test)]
mod generated;
#[cfg(test)]
mod jobs;
#[cfg(test)]
mod laws;
#[cfg(test)]
mod listings;
#[cfg(test)]
mod one_directory;
#[cfg(test)]
mod parsed;
#[cfg(test)]
mod plays;
#[cfg(test)]
mod reads;
#[cfg(test)]
mod stops;
#[cfg(test)]
mod streams;
