// Known answers: tables of texts, each with the answer that reading it must give; the limit on entries; names; searches and a
// cover; and job lines with their replies. The answers were worked out by hand from the rules, and none was copied from a run.
#![tactic(auto)]

#[cfg(test)]
mod bytes;
#[cfg(test)]
mod entries;
#[cfg(test)]
mod expect;
#[cfg(test)]
mod granted;
#[cfg(test)]
mod job_lines;
#[cfg(test)]
mod limits;
#[cfg(test)]
mod names;
#[cfg(test)]
mod openings;
#[cfg(test)]
mod order;
#[cfg(test)]
mod refused;
#[cfg(test)]
mod searches;
