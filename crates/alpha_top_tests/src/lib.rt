//! Tests of the crates at the top that no case of `alpha_cases/data` can be: of devices and lists that no call has, and
//! of what a module, a journal and a run over rows give whoever stands on them. Those of the crates below are
//! `alpha_tests`.
#![tactic(auto)]

#[cfg(test)]
mod cmd;
#[cfg(test)]
mod link;
#[cfg(test)]
mod replay;
#[cfg(test)]
mod rows;
