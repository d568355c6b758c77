// Tests of the libraries. They stand apart because a crate that has tests is proved once more with them.
#![tactic(auto)]

#[cfg(test)]
mod context_stores;
#[cfg(test)]
mod control_lines;
#[cfg(test)]
mod dnn_names;
#[cfg(test)]
mod messages;
#[cfg(test)]
mod payload_verdicts;
#[cfg(test)]
mod played_lines;
#[cfg(test)]
mod printed_values;
#[cfg(test)]
mod router_calls;
#[cfg(test)]
mod scenario_words;
#[cfg(test)]
mod smf_directories;
#[cfg(test)]
mod ue_records;
