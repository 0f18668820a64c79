//! Examples of what the library answers, from the specification of mailmaps and from the original, as scripts of calls
//! with their answers, and tests of what no contract says. `mailmap_scripts` makes the calls, so that they are proved
//! once, and a change of an example costs little.
#![tactic(auto)]

#[cfg(test)]
mod checking;
#[cfg(test)]
mod lines;
#[cfg(test)]
mod listing;
#[cfg(test)]
mod lookups;
#[cfg(test)]
mod orders;
#[cfg(test)]
mod repeats;
#[cfg(test)]
mod script;
#[cfg(test)]
mod searches;
#[cfg(test)]
mod signatures;
#[cfg(test)]
mod snapshots;
