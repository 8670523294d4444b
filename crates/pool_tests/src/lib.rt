//! Worked rows of the pool and of what stands over it, and drawn lists of steps: tests alone.
//!
//! `help` makes pools of leagues, and works on what is lent; `rows` has the cases, and `undone` the
//! one in which a thousand tickets come back without work. `drawn` has the lists of steps,
//! `decided` the splits that a result decides, `pairs` a pool and a plain one that make the steps;
//! the plain one is in `plain` and `plain_change`, what is given back in `held`, what can be worked
//! on and asked in `eligibility`. `saved` has saved texts, `adopted` a tree that another pool made,
//! and `given` the verdicts given how a match ends.
#![tactic(auto)]

#[cfg(test)]
mod adopted;
#[cfg(test)]
mod decided;
#[cfg(test)]
mod drawn;
#[cfg(test)]
mod eligibility;
#[cfg(test)]
mod given;
#[cfg(test)]
mod held;
#[cfg(test)]
mod help;
#[cfg(test)]
mod near_leaves;
#[cfg(test)]
mod pairs;
#[cfg(test)]
mod plain;
#[cfg(test)]
mod plain_change;
#[cfg(test)]
mod rows;
#[cfg(test)]
mod saved;
#[cfg(test)]
mod seen;
#[cfg(test)]
mod undone;
