// Commands beside the number that refuses them, worked out by hand, and a planner as a rule source.
#![tactic(auto)]

#[cfg(test)]
mod entering;
#[cfg(test)]
mod numbers;
#[cfg(test)]
mod sources;
