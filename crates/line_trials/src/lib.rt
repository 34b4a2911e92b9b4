// Trials of lines and of rule pages: each is proved, then run.
#![tactic(auto)]

#[cfg(test)]
mod connectives;
#[cfg(test)]
mod instances;
#[cfg(test)]
mod lines;
#[cfg(test)]
mod order;
#[cfg(test)]
mod pages;
#[cfg(test)]
mod samples;
#[cfg(test)]
mod taut;
