// Trials of the calls on a case, of runs and rows, of files and listings: each is proved, then run.
#![tactic(auto)]

#[cfg(test)]
mod along;
#[cfg(test)]
mod bodies;
#[cfg(test)]
mod body_records;
#[cfg(test)]
mod borders;
#[cfg(test)]
mod entering;
#[cfg(test)]
mod faults;
#[cfg(test)]
mod judging;
#[cfg(test)]
mod listings;
#[cfg(test)]
mod order;
#[cfg(test)]
mod refuting;
#[cfg(test)]
mod samples;
#[cfg(test)]
mod scratch;
#[cfg(test)]
mod sources;
#[cfg(test)]
mod standing;
